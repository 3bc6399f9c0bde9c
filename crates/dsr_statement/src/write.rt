//! The statement of a report.
ghost use Rattle.std.specs.Prelude.{◌≡◌, ◌≤◌, [], List, length, map, take, OnOk, IfOk, IfErr, IfSome};
ghost use Rattle.std.specs.List.{flat_map};
ghost use Rattle.dsr_statement.specs.meaning.Statement.{statement_of, files_from, lines_of_ledger, text_of};
ghost use Rattle.dsr_ledger.specs.declared.report.Report.{Report as ReportValue};
ghost use Rattle.dsr_ledger.specs.declared.report.LedgerLine.{LedgerLine as LedgerLineValue};
ghost use Rattle.dsr_ledger.specs.inner.View.{AreGiven, IsReady, IsViewOf};
ghost use Rattle.dsr_io.specs.meaning.Written.{IsFlushed, IsCut};
ghost use Rattle.dsr_statement.specs.inner.Pieces.{Puts};

use crate::lines::{AsLine, file_line, head_of, put_ledger, put_line, put_own_ledger};
use crate::pieces::Pieces;
use crate::room::Room;
use crate::slice_buffer::SliceBuffer;
use dsr_cells::NoMemory;
use dsr_io::{Outlet, ToWrite};
use dsr_ledger::{FileLine, LedgerLine, LedgerView, Report, ReportView};
use std::alloc::Global;

/// The bytes of the statement.
///
/// # Errors
///
/// `NoMemory`: out of memory for them.
pub fn statement(alloc: Global, report: &Report) -> Result<Vec<u8>, NoMemory>
    ensures { IfOk result (λ v. v.items ≡ statement_of report.now) }
{
    let room = Room::new(alloc)?;
    let mut view = ReportView {
        report,
        ledger: None,
    };
    let mut out = ToWrite::new(Vec::new(alloc));
    match write_statement(room, &mut view, &mut out) {
        Ok(()) => Ok(out.into_writer()),
        Err(_written) => Err(NoMemory),
    }
}

/// Writes the statement of a view of a report in pieces, and then flushes.
///
/// # Errors
///
/// How many of its bytes were written before a write or the flush failed.
pub fn write_statement<W: Outlet>(
    room: Room,
    view: &mut ReportView<'_>,
    out: &mut W,
) -> Result<(), u64>
    requires { IfSome view.old.ledger IsReady }
    ensures whole { (r : ReportValue) → IsViewOf view.old r → OnOk result
        (IsFlushed (statement_of r) (W.told out.old) (W.told out.new)) }
    ensures part { (r : ReportValue) → IsViewOf view.old r → IfErr result (λ n. (n ≤ length (statement_of r))
        × IsCut (take n (statement_of r)) (W.told out.old) (W.told out.new)) }
{
    let Room {
        mut key,
        mut waiting,
    } = room;
    let mut pieces = Pieces::new(out, waiting.as_mut_slice());
    let mut key = SliceBuffer::new(key.as_mut_slice());
    put_statement(&mut pieces, &mut key, view);
    let answer = pieces.finish();
    // Ends the borrow of the outlet, so that the clauses can say what it took.
    pieces.into_outlet();
    answer
}

/// Puts the statement.
fn put_statement<W: Outlet>(
    out: &mut Pieces<'_, W>,
    key: &mut SliceBuffer<'_>,
    view: &mut ReportView<'_>,
)
    requires { IfSome view.old.ledger IsReady }
    ensures { (r : ReportValue) → IsViewOf view.old r → Puts W.told out.old out.new (statement_of r) }
{
    let report = view.report;
    put_line(out, &head_of(&report.key));
    put_files(out, report.files.as_slice());
    put_each(out, report.missing.as_slice());
    put_each(out, report.differences.as_slice());
    put_lines(out, key, view);
    put_each(out, report.rejects.as_slice());
}

/// Puts the lines of the ledger.
fn put_lines<W: Outlet>(
    out: &mut Pieces<'_, W>,
    key: &mut SliceBuffer<'_>,
    view: &mut ReportView<'_>,
)
    requires { IfSome view.old.ledger IsReady }
    ensures { (r : ReportValue) → IsViewOf view.old r
        → Puts W.told out.old out.new (text_of (flat_map lines_of_ledger r.ledger)) }
{
    match &mut view.ledger {
        Some(ledger) => put_viewed_lines(out, key, ledger),
        None => put_own_lines(out, key, view.report.ledger.as_slice()),
    }
}

/// Puts the lines of a view of a ledger.
fn put_viewed_lines<W: Outlet>(
    out: &mut Pieces<'_, W>,
    key: &mut SliceBuffer<'_>,
    view: &mut LedgerView<'_>,
)
    requires { IsReady view.old }
    ensures { (all : List LedgerLineValue) → AreGiven view.old all []
        → Puts W.told out.old out.new (text_of (flat_map lines_of_ledger all)) }
{
    while let Some(line) = view.next() {
        put_ledger(out, key, &line, view.parties());
    }
}

/// Puts the ledger's lines that a report has itself.
fn put_own_lines<W: Outlet>(
    out: &mut Pieces<'_, W>,
    key: &mut SliceBuffer<'_>,
    lines: &[LedgerLine],
)
    ensures { Puts W.told out.old out.new (text_of (flat_map lines_of_ledger lines.now)) }
{
    for line in lines {
        put_own_ledger(out, key, line);
    }
}

/// Puts the lines of the files.
fn put_files<W: Outlet>(out: &mut Pieces<'_, W>, files: &[FileLine])
    ensures { Puts W.told out.old out.new (text_of (files_from 1 files.now)) }
{
    let mut place = 1;
    for file in files {
        put_line(out, &file_line(place, file));
        place += 1;
    }
}

/// Puts the line of each of these.
fn put_each<W: Outlet, T: AsLine>(out: &mut Pieces<'_, W>, items: &[T])
    ensures { Puts W.told out.old out.new (text_of (map T.line items.now)) }
{
    for item in items {
        put_line(out, &item.as_line());
    }
}
