//! Putting lines of a statement, each with its line feed. Those of a ledger line begin with the cells of its key, which are
//! laid once.
ghost use Rattle.std.specs.Prelude.{◌≡◌};
ghost use Rattle.dsr_statement.specs.declared.line.Line.{Line as LineValue};
ghost use Rattle.dsr_statement.specs.meaning.Lines.{line_bytes};
ghost use Rattle.dsr_statement.specs.meaning.Statement.{head_of, lines_of_ledger, text_of};
ghost use Rattle.dsr_statement.specs.inner.Pieces.{Puts};
ghost use Rattle.dsr_statement.specs.inner.Rows.{sums_bytes, party_bytes, unclaimed_bytes};

use crate::cells::{put_signed, put_text};
use crate::key::LaidLine;
use crate::line::{DifferenceRef, Line, RejectRef, ReportRef};
use crate::pieces::Pieces;
use crate::putting::put;
use crate::sink::Sink;
use crate::slice_buffer::SliceBuffer;
use dsr_io::Outlet;
use dsr_ledger::{Difference, FileLine, LedgerLine, LineView, PartyView, Reject, ReportKey};

/// Puts a line.
pub fn put_line<W: Outlet>(out: &mut Pieces<'_, W>, line: &Line<'_>)
    ensures { Puts W.told out.old out.new (line_bytes line.now) }
{
    put(out, line);
    out.put(b"\n");
}

/// The first line.
pub(crate) fn head_of(key: &Option<ReportKey>) -> Line<'_>
    ensures { result ≡ head_of key.now }
{
    match key {
        Some(key) => Line::Report(ReportRef {
            message_id: key.message_id.as_str(),
            number_of_files: key.number_of_files,
            first_day: key.first_day,
            last_day: key.last_day,
        }),
        None => Line::NoReport,
    }
}

/// The line of the file at this place in the order given, from 1.
pub(crate) fn file_line<'l>(place: u64, file: &FileLine) -> Line<'l>
    ensures { result ≡ LineValue.File place file.now }
{
    Line::File(
        place,
        FileLine {
            number: file.number,
            standing: file.standing,
            blocks: file.blocks,
            outcome: file.outcome,
        },
    )
}

/// What a statement has a line of.
pub(crate) trait AsLine {
    ghost line: { Self → LineValue };

    /// Its line.
    fn as_line(&self) -> Line<'_>
        ensures { result ≡ line self.now };
}

/// The number of a missing file.
impl AsLine for u32 {
    ghost line = { λ n. LineValue.Missing n };

    fn as_line(&self) -> Line<'_> {
        Line::Missing(*self)
    }
}

impl AsLine for Difference {
    ghost line = { λ d. LineValue.Summary d };

    fn as_line(&self) -> Line<'_> {
        Line::Summary(DifferenceRef {
            file: u64::from(self.file),
            summary_id: self.summary_id.as_str(),
            stated_usages: i128::from(self.stated_usages),
            found_usages: self.found_usages,
            stated_amount: self.stated_amount,
            found_amount: self.found_amount,
        })
    }
}

impl AsLine for Reject {
    ghost line = { λ x. LineValue.Reject x };

    fn as_line(&self) -> Line<'_> {
        Line::Reject(RejectRef {
            file: u64::from(self.file),
            position: self.position,
            block_id: self.block_id.as_str(),
            reason: self.reason,
        })
    }
}

/// Puts the lines of a ledger line: its sums, these parties, and the unclaimed amount. The cells of the key, with which each
/// of them begins, are written into `room` once. Nothing is put once the outlet has failed.
pub(crate) fn put_ledger<W: Outlet>(
    out: &mut Pieces<'_, W>,
    room: &mut SliceBuffer<'_>,
    line: &LineView<'_>,
    parties: &[PartyView<'_>],
)
    ensures { Puts W.told out.old out.new
        (text_of (lines_of_ledger (record line.now { parties = parties.now }))) }
{
    if out.drop_if_failed() {
        return;
    }
    let laid = LaidLine::of(room, line);
    put_sums(out, &laid);
    for party in parties {
        put_party(out, &laid, party);
    }
    put_unclaimed(out, &laid)
}

/// Puts the lines of a ledger line of a report.
pub(crate) fn put_own_ledger<W: Outlet>(
    out: &mut Pieces<'_, W>,
    room: &mut SliceBuffer<'_>,
    line: &LedgerLine,
)
    ensures { Puts W.told out.old out.new (text_of (lines_of_ledger line.now)) }
{
    let view = LineView {
        isrc: &line.isrc,
        territory: &line.territory,
        use_type: &line.use_type,
        currency: &line.currency,
        usages: line.usages,
        amount: line.amount,
        unclaimed: line.unclaimed,
    };
    let laid = LaidLine::of(room, &view);
    put_sums(out, &laid);
    for party in line.parties.as_slice() {
        let view = PartyView {
            party: &party.party,
            amount: party.amount,
        };
        put_party(out, &laid, &view);
    }
    put_unclaimed(out, &laid)
}

/// Puts the line of a key's sums.
#[inline(always)]
fn put_sums<W: Outlet>(out: &mut Pieces<'_, W>, laid: &LaidLine<'_>)
    ensures { Puts W.told out.old out.new (sums_bytes laid.now) }
{
    let line = laid.line;
    out.put(b"LEDGER");
    laid.put_key(out);
    put_signed(out, line.usages);
    out.put_last_amount(line.amount);
}

/// Puts the line of a party.
#[inline(always)]
fn put_party<W: Outlet>(out: &mut Pieces<'_, W>, laid: &LaidLine<'_>, party: &PartyView<'_>)
    ensures { Puts W.told out.old out.new (party_bytes laid.now party.now) }
{
    out.put(b"PARTY");
    laid.put_key(out);
    put_text(out, party.party.as_str());
    out.put_last_amount(party.amount);
}

/// Puts the line of a key's unclaimed amount.
#[inline(always)]
fn put_unclaimed<W: Outlet>(out: &mut Pieces<'_, W>, laid: &LaidLine<'_>)
    ensures { Puts W.told out.old out.new (unclaimed_bytes laid.now) }
{
    let line = laid.line;
    out.put(b"UNCLAIMED");
    laid.put_key(out);
    out.put_last_amount(line.unclaimed);
}
