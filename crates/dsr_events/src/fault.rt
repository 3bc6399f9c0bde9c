//! The endings, outcomes and faults of a file.
ghost use Rattle.std.specs.Prelude.{◌≡◌};
ghost use Rattle.dsr_events.specs.meaning.Names.{name_of, column_named};
ghost use Rattle.dsr_events.specs.layer.Names.{is_memory};

use crate::kinds::Column;

/// The first fault of a file.
#[derive(Clone, Copy, PartialEq, Eq)]
pub enum FileFault {
    /// A line has more than 8,192 bytes.
    LongLine,
    /// A line is not UTF-8 (RFC 3629).
    NotUtf8,
    /// A line has more than 64 cells.
    ManyCells,
    /// The first cell is not a record type of the layout.
    UnknownRecord,
    /// The line ends before the cell of this column.
    MissingCell(Column),
    /// The cell of this column is not spelled as the column requires.
    BadCell(Column),
    /// A work has different numbers of parties and shares.
    Uneven,
    /// The first record is not HEAD, or there is none.
    NoHead,
    /// There is a second HEAD.
    SecondHead,
    /// A summary comes after a resource.
    LateSummary,
    /// A work or a usage comes before the first resource.
    NoResource,
    /// A work comes after a usage of its block.
    LateWork,
    /// The BlockId of a work or a usage is not that of its resource.
    BlockNumber,
    /// A block has no usage.
    NoUsage,
    /// A record comes after FOOT.
    AfterFoot,
    /// The text ends without FOOT.
    NoFoot,
    /// Two summaries have the same identifier.
    SummaryTwice,
    /// There are more than 1,000 summaries.
    ManySummaries,
    /// A block has more than 64 records.
    LongBlock,
    /// FOOT's count of lines is wrong.
    FootLines,
    /// FOOT's count of summaries is wrong.
    FootSummaries,
    /// FOOT's count of blocks is wrong.
    FootBlocks,
    /// A read failed.
    Read,
    /// The limit on reads was reached.
    Reads,
    /// Memory was refused.
    Memory,
}

impl FileFault {
    /// The name of the fault, as it is printed.
    pub fn name(self) -> &'static str
        ensures { result.now ≡ name_of self }
    {
        match self {
            FileFault::LongLine => "LongLine",
            FileFault::NotUtf8 => "NotUtf8",
            FileFault::ManyCells => "ManyCells",
            FileFault::UnknownRecord => "UnknownRecord",
            FileFault::MissingCell(_) => "MissingCell",
            FileFault::BadCell(_) => "BadCell",
            FileFault::Uneven => "Uneven",
            FileFault::NoHead => "NoHead",
            FileFault::SecondHead => "SecondHead",
            FileFault::LateSummary => "LateSummary",
            FileFault::NoResource => "NoResource",
            FileFault::LateWork => "LateWork",
            FileFault::BlockNumber => "BlockNumber",
            FileFault::NoUsage => "NoUsage",
            FileFault::AfterFoot => "AfterFoot",
            FileFault::NoFoot => "NoFoot",
            FileFault::SummaryTwice => "SummaryTwice",
            FileFault::ManySummaries => "ManySummaries",
            FileFault::LongBlock => "LongBlock",
            FileFault::FootLines => "FootLines",
            FileFault::FootSummaries => "FootSummaries",
            FileFault::FootBlocks => "FootBlocks",
            FileFault::Read => "Read",
            FileFault::Reads => "Reads",
            FileFault::Memory => "Memory",
        }
    }

    /// The column of a missing or bad cell; None for any other fault.
    pub fn column(self) -> Option<Column>
        ensures { result ≡ column_named self }
    {
        match self {
            FileFault::MissingCell(column) | FileFault::BadCell(column) => Some(column),
            _ => None,
        }
    }
}

/// How the bytes of a text end.
#[derive(Clone, Copy, PartialEq, Eq)]
pub enum Ending {
    /// The end of the bytes was reached.
    Whole,
    /// A read failed.
    Read,
    /// The limit on reads was reached.
    Reads,
}

/// How a file ends.
#[derive(Clone, Copy, PartialEq, Eq)]
pub enum Outcome {
    /// Every line is good, and the last record is FOOT.
    Whole,
    /// The first fault and its line, from 1.
    Fault {
        /// The number of the line with the fault, or of the one that would have come next.
        line: u64,
        /// The fault.
        fault: FileFault,
    },
}

impl Outcome {
    /// Whether the file ended because memory was refused.
    pub fn is_memory(self) -> bool
        ensures { result ≡ is_memory self }
    {
        match self {
            Outcome::Whole => false,
            Outcome::Fault { line: _, fault } => matches!(fault, FileFault::Memory),
        }
    }
}
