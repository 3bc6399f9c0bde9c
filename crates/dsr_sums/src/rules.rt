//! Which statements are taken.

/// What is taken beside sealed statements without remarks, each given one of a message of its own.
#[derive(Debug, Clone, Copy, PartialEq, Eq)]
pub struct Rules {
    /// Given statements with remarks.
    pub with_remarks: bool,
    /// Statements without a seal.
    pub unsealed: bool,
    /// Given statements of one message, each with another number of files or another period.
    pub same_message: bool,
}
