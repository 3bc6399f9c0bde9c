//! What a command line asks for.
use dsr_cells::Text;
use dsr_texts::Items;

/// Names of files.
pub type Names = Items<Text>;

/// What a command line asks for.
#[derive(Drop)]
pub struct Asked {
    /// The maximum number of messages in the relay of a file: 1 to 1,024.
    pub capacity: u32,
    /// The maximum number of reads of a file: 1 to 16,777,216.
    pub max_reads: u32,
    /// The report's files, in the order given.
    pub files: Names,
    /// The layout file, if one is named.
    pub layout: Option<Text>,
    /// The file that the statement is written to, if one is named; else it is standard output.
    pub output: Option<Text>,
    /// Whether progress is to be written to standard error.
    pub progress: bool,
    /// Whether the statement is to end with its seal.
    pub seal: bool,
}

/// Why a command line asks for no run.
#[derive(Drop)]
pub enum CommandFault {
    /// It asks for this text to be printed: the help, or the version.
    Help(Text),
    /// It is refused, and this text says why.
    Refused(Text),
    /// Memory was refused.
    Memory,
}
