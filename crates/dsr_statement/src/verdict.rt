//! When a statement has remarks.
/// Whether a statement has remarks that need attention.
#[derive(Debug, Clone, Copy, PartialEq, Eq)]
pub enum Status {
    /// Every file is there, once and whole, no block is rejected, and every summary agrees.
    Clean,
    /// At least one of these does not hold.
    Remarks,
}
