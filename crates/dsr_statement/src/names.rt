//! The names of kinds, standings, reasons, statuses, columns and faults, in both directions.
ghost use Rattle.std.specs.Prelude.{◌≡◌};
ghost use Rattle.dsr_events.specs.meaning.Names.{column_name, name_of};
ghost use Rattle.dsr_statement.specs.meaning.Names.{kind_name, standing_name, reason_name, status_name};
ghost use Rattle.dsr_statement.specs.meaning.Faults.{named, kind_in};
ghost use Rattle.dsr_statement.specs.inner.Lenient.{standings_in_order, reasons_in_order, statuses_in_order, columns_in_order, plain_faults};

use crate::line::LineKind;
use crate::verdict::Status;
use dsr_events::{Column, FileFault};
use dsr_ledger::{Reason, Standing};

/// The name of a kind of line.
pub(crate) fn kind_name(kind: LineKind) -> &'static str
    ensures { result.now ≡ kind_name kind }
{
    match kind {
        LineKind::Report => "REPORT",
        LineKind::NoReport => "NOREPORT",
        LineKind::File => "FILE",
        LineKind::Missing => "MISSING",
        LineKind::Summary => "SUMMARY",
        LineKind::Ledger => "LEDGER",
        LineKind::Party => "PARTY",
        LineKind::Unclaimed => "UNCLAIMED",
        LineKind::Reject => "REJECT",
        LineKind::Layout => "LAYOUT",
        LineKind::Input => "INPUT",
        LineKind::End => "END",
    }
}

/// The name of a standing.
#[tactic(auto, unfolding(crate::specs::meaning::Names::standing_name))]
pub(crate) fn standing_name(standing: Standing) -> &'static str
    ensures { result.now ≡ standing_name standing }
{
    match standing {
        Standing::Ours => "Ours",
        Standing::Foreign => "Foreign",
        Standing::Doubled => "Doubled",
        Standing::Headless => "Headless",
    }
}

/// The name of a reason.
#[tactic(auto, unfolding(crate::specs::meaning::Names::reason_name))]
pub(crate) fn reason_name(reason: Reason) -> &'static str
    ensures { result.now ≡ reason_name reason }
{
    match reason {
        Reason::ForeignFile => "ForeignFile",
        Reason::DoubledFile => "DoubledFile",
        Reason::DoubledBlock => "DoubledBlock",
        Reason::NoIsrc => "NoIsrc",
        Reason::BadIsrc => "BadIsrc",
        Reason::UnknownSummary => "UnknownSummary",
        Reason::ShareOver => "ShareOver",
    }
}

/// The name of a status.
#[tactic(auto, unfolding(crate::specs::meaning::Names::status_name))]
pub(crate) fn status_name(status: Status) -> &'static str
    ensures { result.now ≡ status_name status }
{
    match status {
        Status::Clean => "Clean",
        Status::Remarks => "Remarks",
    }
}

/// The kind of line with this name.
#[tactic(auto, unfolding(crate::specs::meaning::Faults::kind_in))]
pub(crate) fn kind_named(name: &str) -> Option<LineKind>
    ensures { result ≡ kind_in name.now }
{
    match name {
        "LEDGER" => Some(LineKind::Ledger),
        "PARTY" => Some(LineKind::Party),
        "UNCLAIMED" => Some(LineKind::Unclaimed),
        "REJECT" => Some(LineKind::Reject),
        "REPORT" => Some(LineKind::Report),
        "NOREPORT" => Some(LineKind::NoReport),
        "FILE" => Some(LineKind::File),
        "MISSING" => Some(LineKind::Missing),
        "SUMMARY" => Some(LineKind::Summary),
        "LAYOUT" => Some(LineKind::Layout),
        "INPUT" => Some(LineKind::Input),
        "END" => Some(LineKind::End),
        _ => None,
    }
}

/// The standing with this name.
pub(crate) fn standing_named(name: &str) -> Option<Standing>
    ensures { result ≡ named standing_name standings_in_order name.now }
{
    [
        Standing::Ours,
        Standing::Foreign,
        Standing::Doubled,
        Standing::Headless,
    ]
    .iter()
    .copied()
    .find(|standing| name == standing_name(*standing))
}

/// The reason with this name.
pub(crate) fn reason_named(name: &str) -> Option<Reason>
    ensures { result ≡ named reason_name reasons_in_order name.now }
{
    [
        Reason::ForeignFile,
        Reason::DoubledFile,
        Reason::DoubledBlock,
        Reason::NoIsrc,
        Reason::BadIsrc,
        Reason::UnknownSummary,
        Reason::ShareOver,
    ]
    .iter()
    .copied()
    .find(|reason| name == reason_name(*reason))
}

/// The status with this name.
pub(crate) fn status_named(name: &str) -> Option<Status>
    ensures { result ≡ named status_name statuses_in_order name.now }
{
    [Status::Clean, Status::Remarks]
        .iter()
        .copied()
        .find(|status| name == status_name(*status))
}

/// The columns.
const COLUMNS: [Column; 24] = [
    Column::MessageId,
    Column::FileNumber,
    Column::NumberOfFiles,
    Column::UsageStartDate,
    Column::UsageEndDate,
    Column::Sender,
    Column::Recipient,
    Column::SummaryRecordId,
    Column::Territory,
    Column::UseType,
    Column::Currency,
    Column::Usages,
    Column::Amount,
    Column::BlockId,
    Column::Isrc,
    Column::Titles,
    Column::Artists,
    Column::WorkId,
    Column::Title,
    Column::Parties,
    Column::Shares,
    Column::NumberOfLinesInFile,
    Column::NumberOfSummaryRecords,
    Column::NumberOfBlocksInFile,
];

/// The faults without a column.
const PLAIN_FAULTS: [FileFault; 22] = [
    FileFault::LongLine,
    FileFault::NotUtf8,
    FileFault::ManyCells,
    FileFault::UnknownRecord,
    FileFault::Uneven,
    FileFault::NoHead,
    FileFault::SecondHead,
    FileFault::LateSummary,
    FileFault::NoResource,
    FileFault::LateWork,
    FileFault::BlockNumber,
    FileFault::NoUsage,
    FileFault::AfterFoot,
    FileFault::NoFoot,
    FileFault::SummaryTwice,
    FileFault::ManySummaries,
    FileFault::LongBlock,
    FileFault::FootLines,
    FileFault::FootSummaries,
    FileFault::FootBlocks,
    FileFault::Read,
    FileFault::Reads,
];

/// The column with this name.
pub(crate) fn column_named(name: &str) -> Option<Column>
    ensures { result ≡ named column_name columns_in_order name.now }
{
    COLUMNS.iter().copied().find(|column| name == column.name())
}

/// The fault without a column with this name.
pub(crate) fn fault_named(name: &str) -> Option<FileFault>
    ensures { result ≡ named name_of plain_faults name.now }
{
    PLAIN_FAULTS
        .iter()
        .copied()
        .find(|fault| name == fault.name())
}
