//! Putting the text of a line into a sink.
ghost use Rattle.std.specs.Prelude.{◌∷◌, map};
ghost use Rattle.std.specs.List.{flat_map, join_with_byte};
ghost use Rattle.dsr_statement.specs.meaning.Cells.{cell_text};
ghost use Rattle.dsr_statement.specs.meaning.Lines.{line_text};

use crate::cell::{Cell, days_in};
use crate::cells::{put_amount, put_day, put_number, put_signed, put_text};
use crate::line::{Line, LineKind};
use crate::names::{kind_name, reason_name, standing_name, status_name};
use crate::sink::Sink;
use crate::table::{Row, give};

/// Puts the text of a line, without its line feed.
pub fn put<S: Sink>(out: &mut S, line: &Line<'_>)
    ensures { S.took out.old (line_text line.now) out.new }
{
    give(out, line);
}

impl<S: Sink> Row for S {
    ghost gave = { λ old cells new. S.took old (join_with_byte 9 (map cell_text cells)) new };

    fn take(&mut self, kind: LineKind, cells: &[Cell<'_>]) {
        self.put(kind_name(kind).as_bytes());
        put_cells(self, cells);
    }
}

/// Puts what cells print, each after a tab.
fn put_cells<S: Sink>(out: &mut S, cells: &[Cell<'_>])
    ensures { S.took out.old (flat_map (λ c. 9 ∷ cell_text c) cells.now) out.new }
{
    for cell in cells {
        put_cell(out, cell);
    }
}

/// Puts what a cell prints, after a tab.
fn put_cell<S: Sink>(out: &mut S, cell: &Cell<'_>)
    ensures { S.took out.old (9 ∷ cell_text cell.now) out.new }
{
    match cell {
        Cell::Name(kind) => put_text(out, kind_name(*kind)),
        Cell::Number64(number) => put_number(out, *number),
        Cell::Number32(number) => put_number(out, u64::from(*number)),
        Cell::FileNumber(Some(number)) => put_number(out, u64::from(*number)),
        Cell::FileNumber(None) => put_text(out, "-"),
        Cell::Usages(usages) => put_signed(out, *usages),
        Cell::Amount(amount) => put_amount(out, *amount),
        Cell::OnDay(day) => put_day(out, *day),
        Cell::DaysIn(first, last) => put_signed(out, days_in(*first, *last)),
        Cell::Identifier(_, word) => put_text(out, word.text),
        Cell::Isrc(word) => put_text(out, word.text),
        Cell::Territory(word) => put_text(out, word.text),
        Cell::UseType(word) => put_text(out, word.text),
        Cell::Currency(word) => put_text(out, word.text),
        Cell::PartyName(word) => put_text(out, word.text),
        Cell::Stands(standing) => put_text(out, standing_name(*standing)),
        Cell::Why(reason) => put_text(out, reason_name(*reason)),
        Cell::Whole => put_text(out, "Whole"),
        Cell::Faulty => put_text(out, "Fault"),
        Cell::FaultName(fault) => put_text(out, fault.name()),
        Cell::ColumnName(column) => put_text(out, column.name()),
        Cell::Sha256(word) => put_text(out, word.text),
        Cell::StatusName(status) => put_text(out, status_name(*status)),
    }
}
