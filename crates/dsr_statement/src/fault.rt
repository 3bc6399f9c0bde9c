//! Why a statement is refused.

/// The first fault of a statement.
#[derive(Debug, Clone, Copy, PartialEq, Eq)]
pub enum StatementFault {
    /// A read failed.
    Read,
    /// A line has more than 16,384 bytes.
    LongLine,
    /// A line is not UTF-8 (RFC 3629).
    NotUtf8,
    /// The first cell is not the name of a line.
    UnknownLine,
    /// The line has not exactly the cells of its kind.
    Cells,
    /// A cell is not spelled as it is printed.
    Spelling,
    /// Such a line may not stand here.
    Place,
    /// The parties' amounts and the unclaimed amount do not add up to the ledger line's amount.
    Sum,
    /// The number of lines or the status in END is not that of the lines before it.
    Seal,
    /// The statement is of no report.
    NoReport,
    /// The statement ends too early.
    Cut,
    /// The statement is whole, but has no END.
    Unsealed,
    /// An earlier statement has the same report: the one at this place among all, from 0.
    Twice(usize),
    /// An earlier given statement has the same MessageId, and another number of files or another period: the one at this place
    /// among all, from 0.
    SameMessage(usize),
    /// No given statement has the report of a paid one.
    NotGiven,
    /// The statement has remarks.
    Remarks,
}

/// Why reading ends.
#[derive(Debug, Clone, Copy, PartialEq, Eq)]
pub enum ReadError {
    /// The text is no statement.
    Fault(StatementFault),
    /// Memory was refused.
    Memory,
}
