//! The cells with which each line of a ledger key begins.
ghost use Rattle.std.specs.Prelude.{◌≡◌, ◌++◌, ◌∷◌, true, IfSome};
ghost use Rattle.dsr_ledger.specs.meaning.Laws.{key_of_line};
ghost use Rattle.dsr_statement.specs.inner.Pieces.{Puts};
ghost use Rattle.dsr_statement.specs.inner.Rows.{key_text};

use crate::pieces::Pieces;
use crate::sink::Sink;
use crate::slice_buffer::SliceBuffer;
use dsr_io::Outlet;
use dsr_ledger::LineView;
use std::marker::Model;

/// Room for this many bytes of a key's cells.
pub(crate) const KEY_ROOM: usize = 256;

/// A ledger line, with the cells of its key if they were laid. Contracts see it as the line.
#[derive(Drop)]
pub(crate) struct LaidLine<'a> {
    pub(crate) line: &'a LineView<'a>,
    key: Option<&'a [u8]>,
}

impl<'a> Model for LaidLine<'a> {
    ghost use Rattle.std.specs.Prelude.{◌≡◌, IfSome};
    ghost use Rattle.dsr_ledger.specs.declared.report.LedgerLine.{LedgerLine};
    ghost use Rattle.dsr_ledger.specs.meaning.Laws.{key_of_line};
    ghost use Rattle.dsr_statement.specs.inner.Rows.{key_text};

    ghost Value = { LedgerLine };

    ghost view = { λ laid. laid.line.now };

    ghost invariant = { λ laid. IfSome laid.key
        (λ key. key.now ≡ key_text (key_of_line laid.line.now)) };
}

impl<'a> LaidLine<'a> {
    /// The line, with the cells of its key written into this room, if they fit.
    #[inline(always)]
    pub(crate) fn of(room: &'a mut SliceBuffer<'_>, line: &'a LineView<'a>) -> LaidLine<'a>
        ensures { result ≡ line.now }
    {
        LaidLine {
            line,
            key: laid_key(room, line),
        }
    }

    /// Puts the cells of the key.
    #[inline(always)]
    pub(crate) fn put_key<W: Outlet>(&self, out: &mut Pieces<'_, W>)
        ensures { Puts W.told out.old out.new (key_text (key_of_line self.now)) }
    {
        match self.key {
            Some(key) => out.put(key),
            None => put_key_cells(out, self.line),
        }
    }
}

/// The cells of a key, written into this room, if they fit.
fn laid_key<'a>(room: &'a mut SliceBuffer<'_>, line: &LineView<'_>) -> Option<&'a [u8]>
    ensures { IfSome result (λ k. k.now ≡ key_text (key_of_line line.now)) }
{
    if lay_key(room, line) {
        Some(room.as_slice())
    } else {
        None
    }
}

/// Writes the cells of a key over what the room has. Returns whether they fit.
fn lay_key(room: &mut SliceBuffer<'_>, line: &LineView<'_>) -> bool
    ensures { result ≡ true → room.new ≡ key_text (key_of_line line.now) }
{
    room.clear();
    lay_cell(room, line.isrc.as_bytes())
        && lay_cell(room, line.territory.as_str().as_bytes())
        && lay_cell(room, line.use_type.as_str().as_bytes())
        && lay_cell(room, line.currency.as_str().as_bytes())
}

/// Appends a cell, after a tab. Returns whether it fits.
#[inline(always)]
fn lay_cell(room: &mut SliceBuffer<'_>, cell: &[u8]) -> bool
    ensures { result ≡ true → room.new ≡ room.old ++ 9 ∷ cell.now }
{
    room.append(b"\t") && room.append(cell)
}

/// Puts the cells of a line's key one by one.
fn put_key_cells<W: Outlet>(out: &mut Pieces<'_, W>, line: &LineView<'_>)
    ensures { Puts W.told out.old out.new (key_text (key_of_line line.now)) }
{
    put_cell(out, line.isrc.as_bytes());
    put_cell(out, line.territory.as_str().as_bytes());
    put_cell(out, line.use_type.as_str().as_bytes());
    put_cell(out, line.currency.as_str().as_bytes())
}

/// Puts a cell, after a tab.
fn put_cell<W: Outlet>(out: &mut Pieces<'_, W>, cell: &[u8])
    ensures { Puts W.told out.old out.new (9 ∷ cell.now) }
{
    out.put(b"\t");
    out.put(cell);
}
