//! The cells of each kind of line.
ghost use Rattle.std.specs.Prelude.{◌∷◌, List};
ghost use Rattle.dsr_statement.specs.declared.cell.Cell.{Cell as CellValue};
ghost use Rattle.dsr_statement.specs.meaning.Lines.{line_cells};

use crate::cell::{Cell, Word};
use crate::line::{DifferenceRef, KeyRef, Line, LineKind, PartyRef, RejectRef, ReportRef};
use dsr_events::Outcome;
use dsr_ledger::FileLine;

/// What takes the cells of a line.
pub(crate) trait Row {
    ghost gave: { Self → List CellValue → Self → Type 0 };

    /// Takes all cells of a line: its name, and these.
    fn take(&mut self, kind: LineKind, cells: &[Cell<'_>])
        ensures { gave self.old (CellValue.Name kind ∷ cells.now) self.new };
}

/// Gives the cells of a line.
pub(crate) fn give<R: Row>(row: &mut R, line: &Line<'_>)
    ensures { R.gave row.old (line_cells line.now) row.new }
{
    match line {
        Line::Report(key) => give_report(row, key),
        Line::NoReport => row.take(LineKind::NoReport, &[]),
        Line::File(place, file) => give_file(row, *place, file),
        Line::Missing(number) => row.take(LineKind::Missing, &[Cell::Number32(*number)]),
        Line::Summary(difference) => give_difference(row, difference),
        Line::Ledger(key, usages, amount) => give_ledger(row, key, *usages, *amount),
        Line::Party(key, part) => give_party(row, key, part),
        Line::Unclaimed(key, amount) => give_unclaimed(row, key, *amount),
        Line::Reject(reject) => give_reject(row, reject),
        Line::Layout(digest) => {
            let sha256 = Word {
                text: digest.sha256,
            };
            let cells = [Cell::Number64(digest.bytes), Cell::Sha256(sha256)];
            row.take(LineKind::Layout, &cells);
        }
        Line::Input(place, digest) => {
            let (place, bytes) = (Cell::Number64(*place), Cell::Number64(digest.bytes));
            let sha256 = Word {
                text: digest.sha256,
            };
            row.take(LineKind::Input, &[place, bytes, Cell::Sha256(sha256)]);
        }
        Line::End(count, status) => {
            let cells = [Cell::Number64(*count), Cell::StatusName(*status)];
            row.take(LineKind::End, &cells);
        }
    }
}

/// Gives the cells of a report's line.
fn give_report<R: Row>(row: &mut R, key: &ReportRef<'_>)
    ensures { R.gave row.old (line_cells (Line.Report key.now)) row.new }
{
    let message_id = Word {
        text: key.message_id,
    };
    let cells = [
        Cell::Identifier(64, message_id),
        Cell::Number32(key.number_of_files),
        Cell::OnDay(key.first_day),
        Cell::OnDay(key.last_day),
        Cell::DaysIn(key.first_day, key.last_day),
    ];
    row.take(LineKind::Report, &cells);
}

/// Gives the cells of a file's line.
fn give_file<R: Row>(row: &mut R, place: u64, file: &FileLine)
    ensures { R.gave row.old (line_cells (Line.File place file.now)) row.new }
{
    let (place, number) = (Cell::Number64(place), Cell::FileNumber(file.number));
    let (standing, blocks) = (Cell::Stands(file.standing), Cell::Number64(file.blocks));
    let Outcome::Fault { line, fault } = file.outcome else {
        let cells = [place, number, standing, blocks, Cell::Whole];
        return row.take(LineKind::File, &cells);
    };
    let (line, name) = (Cell::Number64(line), Cell::FaultName(fault));
    if let Some(column) = fault.column() {
        let (faulty, column) = (Cell::Faulty, Cell::ColumnName(column));
        let cells = [place, number, standing, blocks, faulty, line, name, column];
        return row.take(LineKind::File, &cells);
    }
    let cells = [place, number, standing, blocks, Cell::Faulty, line, name];
    row.take(LineKind::File, &cells);
}

/// Gives the cells of a difference's line.
fn give_difference<R: Row>(row: &mut R, difference: &DifferenceRef<'_>)
    ensures { R.gave row.old (line_cells (Line.Summary difference.now)) row.new }
{
    let summary_id = Word {
        text: difference.summary_id,
    };
    let cells = [
        Cell::Number64(difference.file),
        Cell::Identifier(32, summary_id),
        Cell::Usages(difference.stated_usages),
        Cell::Usages(difference.found_usages),
        Cell::Amount(difference.stated_amount),
        Cell::Amount(difference.found_amount),
    ];
    row.take(LineKind::Summary, &cells);
}

/// Gives the cells of a ledger line.
fn give_ledger<R: Row>(row: &mut R, key: &KeyRef<'_>, usages: i128, amount: i128)
    ensures { R.gave row.old (line_cells (Line.Ledger key.now usages amount)) row.new }
{
    let cells = [
        Cell::Isrc(Word { text: key.isrc }),
        Cell::Territory(Word {
            text: key.territory,
        }),
        Cell::UseType(Word { text: key.use_type }),
        Cell::Currency(Word { text: key.currency }),
        Cell::Usages(usages),
        Cell::Amount(amount),
    ];
    row.take(LineKind::Ledger, &cells);
}

/// Gives the cells of a party's line.
fn give_party<'l, R: Row>(row: &mut R, key: &KeyRef<'l>, part: &PartyRef<'l>)
    ensures { R.gave row.old (line_cells (Line.Party key.now part.now)) row.new }
{
    let cells = [
        Cell::Isrc(Word { text: key.isrc }),
        Cell::Territory(Word {
            text: key.territory,
        }),
        Cell::UseType(Word { text: key.use_type }),
        Cell::Currency(Word { text: key.currency }),
        Cell::PartyName(Word { text: part.party }),
        Cell::Amount(part.amount),
    ];
    row.take(LineKind::Party, &cells);
}

/// Gives the cells of an unclaimed amount's line.
fn give_unclaimed<R: Row>(row: &mut R, key: &KeyRef<'_>, amount: i128)
    ensures { R.gave row.old (line_cells (Line.Unclaimed key.now amount)) row.new }
{
    let cells = [
        Cell::Isrc(Word { text: key.isrc }),
        Cell::Territory(Word {
            text: key.territory,
        }),
        Cell::UseType(Word { text: key.use_type }),
        Cell::Currency(Word { text: key.currency }),
        Cell::Amount(amount),
    ];
    row.take(LineKind::Unclaimed, &cells);
}

/// Gives the cells of a rejected block's line.
fn give_reject<R: Row>(row: &mut R, reject: &RejectRef<'_>)
    ensures { R.gave row.old (line_cells (Line.Reject reject.now)) row.new }
{
    let block_id = Word {
        text: reject.block_id,
    };
    let cells = [
        Cell::Number64(reject.file),
        Cell::Number64(reject.position),
        Cell::Identifier(32, block_id),
        Cell::Why(reject.reason),
    ];
    row.take(LineKind::Reject, &cells);
}
