//! Reading a line: leniently, and then put against its text.
ghost use Rattle.std.specs.Prelude.{◌≡◌, ◌↔◌, [], Some, true, take, slice_index_or, IfSome, Ok, IfOk, IfErr};
ghost use Rattle.dsr_cells.specs.meaning.Cells.{cells};
ghost use Rattle.dsr_statement.specs.declared.line.Line.{Line as LineValue};
ghost use Rattle.dsr_statement.specs.meaning.Names.{kind_name};
ghost use Rattle.dsr_statement.specs.meaning.Lines.{cell_texts, line_text};
ghost use Rattle.dsr_statement.specs.meaning.Faults.{has_cells, has_file_cells, kind_in};
ghost use Rattle.dsr_statement.specs.meaning.Readings.{Spells, fault_of, IsLineOf};
ghost use Rattle.dsr_statement.specs.inner.Lenient.{ReadsKind, is_hot};

use crate::check::is_line;
use crate::fault::StatementFault;
use crate::file::read_file;
use crate::lenient::{
    read_difference, read_ledger, read_missing, read_party, read_reject, read_report,
    read_unclaimed,
};
use crate::line::{Line, LineKind};
use crate::names::kind_named;
use crate::putting::put;
use crate::seal::{read_end, read_input, read_layout};
use crate::sink::Match;
use dsr_cells::FirstCells;
use dsr_texts::text_of;

/// The most bytes of a line, without its line feed.
pub const LINE_LIMIT: usize = 16384;

/// Whether a line has exactly this text.
fn has_text(line: &Line<'_>, text: &str) -> bool
    ensures { result ≡ true ↔ line_text line.now ≡ text.now }
{
    let mut rest = Match::new(text);
    put(&mut rest, line);
    rest.is_done()
}

/// Whether the cells of a line of this kind are compared with what they are read as, one by one: those of ledger lines, of
/// which there are many.
fn is_hot(kind: LineKind) -> bool
    ensures { result ≡ is_hot kind }
{
    matches!(kind, LineKind::Ledger)
}

/// A line, if it is one that a statement may have, and has exactly this text. One that is read from its own row (`is_same`) is
/// not put against the text.
fn if_spelled<'l>(
    line: Option<Line<'l>>,
    text: &str,
    is_same: bool,
) -> Result<Line<'l>, StatementFault>
    requires { is_same ≡ true → IfSome line (λ l. line_text l ≡ text.now) }
    ensures found { IfOk result (λ l. Spells text.now l) }
    ensures only { (l : LineValue) → Spells text.now l → line.entry ≡ Some l → result ≡ Ok l }
    ensures fault { IfErr result (λ f. f ≡ StatementFault.Spelling) }
{
    match line {
        Some(line) if is_line(&line) && (is_same || has_text(&line, text)) => Ok(line),
        _ => Err(StatementFault::Spelling),
    }
}

/// Whether a file's row has as many cells as its outcome wants.
fn has_file_cells(row: &FirstCells<'_>) -> bool
    ensures { result ≡ has_file_cells row.now }
{
    match row.len() {
        6 => row.at(5) != "Fault",
        8 | 9 => row.at(5) != "Whole",
        _ => false,
    }
}

/// Whether a row of this kind has as many cells.
fn has_cells(kind: LineKind, row: &FirstCells<'_>) -> bool
    ensures { result ≡ has_cells kind row.now }
{
    match kind {
        LineKind::Report => row.len() == 6,
        LineKind::NoReport => row.len() == 1,
        LineKind::File => has_file_cells(row),
        LineKind::Missing => row.len() == 2,
        LineKind::Summary => row.len() == 7,
        LineKind::Ledger => row.len() == 7,
        LineKind::Party => row.len() == 7,
        LineKind::Unclaimed => row.len() == 6,
        LineKind::Reject => row.len() == 5,
        LineKind::Layout => row.len() == 3,
        LineKind::Input => row.len() == 4,
        LineKind::End => row.len() == 3,
    }
}

/// The line of this kind that the cells of a row spell, read leniently.
fn read_kind<'l>(kind: LineKind, row: &FirstCells<'l>) -> Option<Line<'l>>
    requires cells { has_cells kind row.now ≡ true }
    requires name { slice_index_or row.now 0 [] ≡ kind_name kind }
    ensures again { ReadsKind kind row.now result }
    ensures own { is_hot kind ≡ true → IfSome result (λ l. row.now ≡ cell_texts l) }
{
    match kind {
        LineKind::Report => read_report(row),
        LineKind::NoReport => Some(Line::NoReport),
        LineKind::File => read_file(row),
        LineKind::Missing => read_missing(row),
        LineKind::Summary => read_difference(row),
        LineKind::Ledger => read_ledger(row),
        LineKind::Party => read_party(row),
        LineKind::Unclaimed => read_unclaimed(row),
        LineKind::Reject => read_reject(row),
        LineKind::Layout => read_layout(row),
        LineKind::Input => read_input(row),
        LineKind::End => read_end(row),
    }
}

/// The line of this kind whose text this is.
#[inline(always)]
fn read_row<'l>(
    text: &str,
    kind: LineKind,
    row: &FirstCells<'l>,
) -> Result<Line<'l>, StatementFault>
    requires row { row.now ≡ take 10 (cells text.now) }
    requires kind { kind_in (slice_index_or row.now 0 []) ≡ Some kind }
    ensures found { IfOk result (λ l. Spells text.now l) }
    ensures only { (l : LineValue) → Spells text.now l → result ≡ Ok l }
    ensures fault { IfErr result (λ f. f ≡ fault_of text.now) }
{
    if !has_cells(kind, row) {
        return Err(StatementFault::Cells);
    }
    if_spelled(read_kind(kind, row), text, is_hot(kind))
}

/// The line whose text this is.
///
/// # Errors
///
/// The fault of the text: it is that of no line.
pub fn read(text: &str) -> Result<Line<'_>, StatementFault>
    ensures found { IfOk result (λ l. Spells text.now l) }
    ensures only { (l : LineValue) → Spells text.now l → result ≡ Ok l }
    ensures fault { IfErr result (λ f. f ≡ fault_of text.now) }
{
    let row = FirstCells::of(text);
    match kind_named(row.at(0)) {
        Some(kind) => read_row(text, kind, &row),
        None => Err(StatementFault::UnknownLine),
    }
}

/// The line that bytes are, without its line feed, or their fault.
pub(crate) fn read_line(bytes: &[u8]) -> Result<Line<'_>, StatementFault>
    ensures { IsLineOf bytes.now result }
{
    if bytes.len() > LINE_LIMIT {
        return Err(StatementFault::LongLine);
    }
    match text_of(bytes) {
        Some(text) => read(text),
        None => Err(StatementFault::NotUtf8),
    }
}
