//! The status of a report, and the lines that are remarks.
ghost use Rattle.std.specs.Prelude.{◌≡◌};
ghost use Rattle.std.specs.List.{list_all};
ghost use Rattle.dsr_statement.specs.meaning.Status.{is_clean_file, is_remark, status_of};

use crate::line::Line;
use crate::verdict::Status;
use dsr_events::Outcome;
use dsr_ledger::{FileLine, Report, Standing};

/// Whether the statement has remarks. This does not depend on the report's ledger.
pub fn status(report: &Report) -> Status
    ensures { result ≡ status_of report.now }
{
    if report.key.is_some()
        && are_clean(report.files.as_slice())
        && report.missing.as_slice().is_empty()
        && report.differences.as_slice().is_empty()
        && report.rejects.as_slice().is_empty()
    {
        Status::Clean
    } else {
        Status::Remarks
    }
}

/// Whether a line is a remark.
pub fn is_remark(line: &Line<'_>) -> bool
    ensures { result ≡ is_remark line.now }
{
    match line {
        Line::File(_, file) => !is_clean(file),
        Line::NoReport | Line::Missing(_) | Line::Summary(_) | Line::Reject(_) => true,
        _ => false,
    }
}

/// Whether every file is Ours and whole.
fn are_clean(files: &[FileLine]) -> bool
    ensures { result ≡ list_all is_clean_file files.now }
{
    files.iter().all(|file| is_clean(file))
}

/// Whether a file is Ours and whole.
fn is_clean(file: &FileLine) -> bool
    ensures { result ≡ is_clean_file file.now }
{
    matches!(file.standing, Standing::Ours) && matches!(file.outcome, Outcome::Whole)
}
