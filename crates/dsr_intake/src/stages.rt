//! Reading the files of a report and writing its statement.
ghost use Rattle.std.specs.Prelude.{◌≡◌, false, List, All, OnOk, IfOk, IfErr, IfSome, Err, MatchOption, vec_len};
ghost use Rattle.dsr_file.specs.meaning.Runs.{FileText};
ghost use Rattle.dsr_ledger.specs.declared.report.Report.{Report};
ghost use Rattle.dsr_ledger.specs.inner.BooksWords.{AreClosed};
ghost use Rattle.dsr_ledger.specs.meaning.Files.{File};
ghost use Rattle.dsr_ledger.specs.inner.View.{IsReady, IsViewOf};
ghost use Rattle.dsr_ledger.specs.meaning.Reports.{report_of};
ghost use Rattle.dsr_intake.specs.meaning.Texts.{HoldEach, refusal_of};
ghost use Rattle.dsr_intake.specs.meaning.Outcomes.{IsReported, IsUnwritten, IsLateRun};
ghost use Rattle.dsr_statement.specs.meaning.Statement.{statement_of};
ghost use Rattle.dsr_statement.specs.meaning.Status.{status_of};
ghost use Rattle.dsr_io.specs.meaning.Written.{IsFlushed};
ghost use Rattle.dsr_intake.specs.inner.Collecting.{IsUnfinished};

use crate::errors::{IntakeError, RunError};
use crate::gather::read_books;
use crate::options::Options;
use dsr_cells::NoMemory;
use dsr_file::Source;
use dsr_io::Outlet;
use dsr_ledger::{ClosedBooks, ReportView};
use dsr_statement::{Room, Status, status, write_statement};
use std::alloc::Global;
use std::random::RandomSource;
use std::sync::Wait;
use std::thread::Threads;
use std::time::Clock;

/// Reads the files, and writes their statement in pieces. All memory that writing needs is allocated before the first byte
/// is written.
///
/// # Errors
///
/// `Intake` and `Memory`: nothing was written or flushed. `Write`: exactly the first `written` bytes of the statement were
/// written, and the outlet has failed.
pub fn run<
    R: Source + Send + Drop + 'static,
    W: Outlet,
    H: Threads + Wait + RandomSource + Clock + Copy + Send + 'static,
>(
    rt: &H,
    alloc: Global,
    readers: &mut Vec<R>,
    options: Options,
    out: &mut W,
) -> Result<Status, RunError>
    requires sources { All (λ r. (R.told r).failed ≡ false) readers.old.items }
    requires outlet { (W.told out.old).failed ≡ false }
    ensures reported { IfOk result (λ status. (texts : List FileText)
        × IsReported R.told options readers.old.items readers.new.items
        (W.told out.old) (W.told out.new) texts status) }
    ensures unwritten { IfErr result (IsUnwritten R.told options readers.old.items readers.new.items
        (W.told out.old) (W.told out.new)) }
    ensures refused { MatchOption (refusal_of (vec_len readers.old) options)
        (IfErr result IsLateRun)
        (λ e. (result ≡ Err (RunError.Intake e)) × (readers.new ≡ readers.old)) }
    ensures held { OnOk result (HoldEach R.told R.holds readers.old.items readers.new.items) }
{
    let books = read_books(rt, alloc, readers, &options);
    drop(options);
    match books {
        Ok(books) => {
            let answer = write_books(alloc, &books, out);
            drop(books);
            answer
        }
        Err(error) => Err(RunError::Intake(error)),
    }
}

/// Writes the statement of closed books, and returns whether it has remarks.
fn write_books<W: Outlet>(
    alloc: Global,
    books: &ClosedBooks,
    out: &mut W,
) -> Result<Status, RunError>
    ensures written { (files : List File) → AreClosed books.now files → OnOk result
        (IsFlushed (statement_of (report_of files)) (W.told out.old) (W.told out.new)) }
    ensures status { (files : List File) → AreClosed books.now files
        → IfOk result (λ status. status ≡ status_of (report_of files)) }
    ensures unfinished { (files : List File) → AreClosed books.now files
        → IfErr result (IsUnfinished (report_of files) (W.told out.old) (W.told out.new)) }
    ensures late { IfErr result IsLateRun }
{
    match books.report() {
        Ok(mut view) => write_report(alloc, &mut view, out),
        Err(NoMemory) => Err(RunError::Intake(IntakeError::Memory)),
    }
}

/// Writes the statement of a view of a report, and returns whether it has remarks. All memory that writing needs is
/// allocated before the first byte is written.
fn write_report<W: Outlet>(
    alloc: Global,
    view: &mut ReportView<'_>,
    out: &mut W,
) -> Result<Status, RunError>
    requires ready { IfSome view.old.ledger IsReady }
    ensures written { (r : Report) → IsViewOf view.old r
        → OnOk result (IsFlushed (statement_of r) (W.told out.old) (W.told out.new)) }
    ensures status { (r : Report) → IsViewOf view.old r
        → IfOk result (λ status. status ≡ status_of r) }
    ensures unfinished { (r : Report) → IsViewOf view.old r
        → IfErr result (IsUnfinished r (W.told out.old) (W.told out.new)) }
    ensures late { IfErr result IsLateRun }
{
    let Ok(room) = Room::new(alloc) else {
        return Err(RunError::Memory);
    };
    let status = status(view.report);
    match write_statement(room, view, out) {
        Ok(()) => Ok(status),
        Err(written) => Err(RunError::Write { written }),
    }
}
