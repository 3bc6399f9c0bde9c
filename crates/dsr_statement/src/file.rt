//! The line of a file, read leniently.
ghost use Rattle.std.specs.Prelude.{◌≡◌, ◌≤◌, ◌∷◌, [], ℕ, Some, None, true, false, length, drop, map};
ghost use Rattle.std.specs.List.{list_all};
ghost use Rattle.dsr_events.specs.declared.fault.FileFault.{FileFault as FaultValue};
ghost use Rattle.dsr_events.specs.declared.kinds.Column.{Column as ColumnValue};
ghost use Rattle.dsr_events.specs.meaning.Names.{name_of, column_named};
ghost use Rattle.dsr_ledger.specs.declared.report.FileLine.{FileLine as FileLineValue};
ghost use Rattle.dsr_statement.specs.meaning.Cells.{Cell, FileNumber};
ghost use Rattle.dsr_statement.specs.inner.Lenient.{Reads, ReadsKind, ReadsOutcome, ReadsFault};

use crate::line::{Line, LineKind};
use crate::names::{column_named, fault_named, standing_named};
use crate::number::{read_u32, read_u64};
use dsr_cells::FirstCells;
use dsr_events::{Column, FileFault, Outcome};
use dsr_ledger::{FileLine, Standing};

/// The number of a file, or None for a hyphen.
fn number_of(is_hyphen: bool, number: Option<u32>) -> Option<Option<u32>>
    ensures none { is_hyphen ≡ true → result ≡ Some None }
    ensures some { (n : ℕ) → is_hyphen ≡ false → number ≡ Some n → result ≡ Some (Some n) }
{
    if is_hyphen {
        return Some(None);
    }
    Some(Some(number?))
}

/// The number of a file that a cell spells.
fn read_file_number(text: &str) -> Option<Option<u32>>
    ensures { Reads FileNumber text.now result }
{
    number_of(text == "-", read_u32(text))
}

/// The fault of a cell of this column: the one with this name.
fn column_fault(is_missing: bool, column: Option<Column>) -> Option<FileFault>
    ensures missing { (c : ColumnValue) → is_missing ≡ true → column ≡ Some c → result ≡ Some (FileFault.MissingCell c) }
    ensures bad { (c : ColumnValue) → is_missing ≡ false → column ≡ Some c → result ≡ Some (FileFault.BadCell c) }
{
    let column = column?;
    if is_missing {
        Some(FileFault::MissingCell(column))
    } else {
        Some(FileFault::BadCell(column))
    }
}

/// The fault of a row that has so many cells.
fn read_fault(row: &FirstCells<'_>) -> Option<FileFault>
    requires { 8 ≤ length row.now }
    ensures { ReadsFault row.now result }
{
    if row.len() == 9 {
        column_fault(row.at(7) == "MissingCell", column_named(row.at(8)))
    } else {
        fault_named(row.at(7))
    }
}

/// How a file with a fault ended.
fn fault_of(line: Option<u64>, fault: Option<FileFault>) -> Option<Outcome>
    ensures { (n : ℕ) (f : FaultValue) → line ≡ Some n → fault ≡ Some f → result ≡ Some (Outcome.Fault n f) }
{
    let (line, fault) = (line?, fault?);
    Some(Outcome::Fault { line, fault })
}

/// How a file ended.
fn read_outcome(row: &FirstCells<'_>) -> Option<Outcome>
    requires { 6 ≤ length row.now }
    ensures { ReadsOutcome row.now result }
{
    if row.len() < 8 {
        return Some(Outcome::Whole);
    }
    fault_of(read_u64(row.at(6)), read_fault(row))
}

/// The line of a file with these parts.
fn file_of<'l>(
    place: Option<u64>,
    number: Option<Option<u32>>,
    standing: Option<Standing>,
    blocks: Option<u64>,
    outcome: Option<Outcome>,
) -> Option<Line<'l>>
    ensures { (at : ℕ) (f : FileLineValue) → place ≡ Some at → number ≡ Some f.number → standing ≡ Some f.standing
        → blocks ≡ Some f.blocks → outcome ≡ Some f.outcome → result ≡ Some (Line.File at f) }
{
    Some(Line::File(
        place?,
        FileLine {
            number: number?,
            standing: standing?,
            blocks: blocks?,
            outcome: outcome?,
        },
    ))
}

/// The line of a file.
pub(crate) fn read_file<'l>(row: &FirstCells<'_>) -> Option<Line<'l>>
    requires { 6 ≤ length row.now }
    ensures { ReadsKind LineKind.File row.now result }
{
    file_of(
        read_u64(row.at(1)),
        read_file_number(row.at(2)),
        standing_named(row.at(3)),
        read_u64(row.at(4)),
        read_outcome(row),
    )
}
