//! The faults of a line, and those of a layout.
use dsr_events::Column;

/// A fault of a line.
#[derive(Clone, Copy, PartialEq, Eq)]
pub enum RecordFault {
    /// The line has more than 64 cells.
    Many,
    /// The layout does not have the record type of the line.
    Unknown,
    /// A column is missing.
    Missing(Column),
    /// A cell is not spelled as its column requires.
    Bad(Column),
    /// A work has different numbers of parties and shares.
    Uneven,
}

/// The error of reading a record.
#[derive(Clone, Copy, PartialEq, Eq)]
pub enum ReadRecordError {
    /// The line has a fault.
    Fault(RecordFault),
    /// Out of memory for the texts of the record.
    Memory,
}

/// A fault of a line of a layout, or of the whole layout.
#[derive(Clone, Copy, PartialEq, Eq)]
pub enum LayoutFault {
    /// The layout has more than 65,536 bytes.
    Large,
    /// A line has more than 8,192 bytes.
    LongLine,
    /// A line is not UTF-8.
    NotUtf8,
    /// The first cell does not name a kind of record.
    UnknownRole,
    /// A record type is not 1 to 16 letters, digits or dots.
    BadType,
    /// An earlier line has the same kind.
    RoleTwice,
    /// An earlier line has the same record type.
    TypeTwice,
    /// The position of a column is missing, or is neither a number from 1 to 63 nor, if the column may be empty, a hyphen.
    BadPosition,
    /// More than 64 record types are skipped.
    ManySkips,
    /// The layout ends without a line for each of the six kinds.
    MissingRole,
}

/// The first fault of a layout, and its line.
#[derive(Clone, Copy, PartialEq, Eq)]
pub struct LayoutError {
    /// The number of the line, from 1. It is 1 for `Large`, and one more than that of the last line for
    /// `MissingRole`.
    pub line: u64,
    /// The fault.
    pub fault: LayoutFault,
}
