//! What a command line asks for.
use dsr_cells::Text;
use dsr_command::Names;
use dsr_sums::Rules;

/// What a command line asks for.
#[derive(Drop)]
pub struct Asked {
    /// The statements whose amounts are owed, in the order given.
    pub given: Names,
    /// The statements whose amounts were paid, in the order given.
    pub paid: Names,
    /// The lists with the names of more such statements, in the order given.
    pub lists: Names,
    /// What is let through.
    pub rules: Rules,
    /// The file that the totals are written to; standard output if there is none.
    pub output: Option<Text>,
}
