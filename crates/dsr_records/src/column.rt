//! The columns of the kinds.
ghost use Rattle.std.specs.Prelude.{◌≡◌};
ghost use Rattle.dsr_records.specs.meaning.Tables.{columns_of, may_be_empty};

use dsr_events::{Column, Kind};

/// The maximum number of columns of a kind.
pub(crate) const MOST_COLUMNS: usize = 7;

/// The columns of a kind, in order.
pub(crate) fn columns(kind: Kind) -> &'static [Column]
    ensures { result.now ≡ columns_of kind }
{
    match kind {
        Kind::Head => &[
            Column::MessageId,
            Column::FileNumber,
            Column::NumberOfFiles,
            Column::UsageStartDate,
            Column::UsageEndDate,
            Column::Sender,
            Column::Recipient,
        ],
        Kind::Summary => &[
            Column::SummaryRecordId,
            Column::Territory,
            Column::UseType,
            Column::Currency,
            Column::Usages,
            Column::Amount,
        ],
        Kind::Resource => &[
            Column::BlockId,
            Column::Isrc,
            Column::Titles,
            Column::Artists,
        ],
        Kind::Work => &[
            Column::BlockId,
            Column::WorkId,
            Column::Title,
            Column::Parties,
            Column::Shares,
        ],
        Kind::Usage => &[
            Column::BlockId,
            Column::SummaryRecordId,
            Column::Usages,
            Column::Amount,
        ],
        Kind::Foot => &[
            Column::NumberOfLinesInFile,
            Column::NumberOfSummaryRecords,
            Column::NumberOfBlocksInFile,
        ],
        Kind::Skipped => &[],
    }
}

/// Whether a column may be empty or missing.
pub(crate) fn column_may_be_empty(column: Column) -> bool
    ensures { result ≡ may_be_empty column }
{
    match column {
        Column::Sender
        | Column::Recipient
        | Column::Isrc
        | Column::Titles
        | Column::Artists
        | Column::WorkId
        | Column::Title
        | Column::Parties
        | Column::Shares => true,
        _ => false,
    }
}
