//! Whether a line is one that a statement may have: whether each cell is spelled as in a report and in its range.
ghost use Rattle.std.specs.Prelude.{◌≡◌, ◌^◌, nat_lt};
ghost use Rattle.std.specs.List.{list_all};
ghost use Rattle.dsr_cells.specs.meaning.Texts.{is_isrc_text};
ghost use Rattle.dsr_statement.specs.meaning.Digests.{is_small_hex, is_sha256_text};
ghost use Rattle.dsr_statement.specs.meaning.Cells.{FileNumber, OnDay, DaysIn, has_no_tab, is_cell, is_amount, are_usages, is_printed_fault, are_days};
ghost use Rattle.dsr_statement.specs.meaning.Lines.{is_line};

use crate::cell::{Cell, days_in};
use crate::line::{KeyRef, Line, LineKind};
use crate::table::{Row, give};
use dsr_cells::{Day, Isrc, is_currency, is_identifier, is_territory, is_use_type};
use dsr_events::FileFault;

/// Whether a number has 64 bits: it does.
#[inline(always)]
fn is_u64(number: u64) -> bool
    ensures { result ≡ nat_lt number (2 ^ 64) }
{
    number <= u64::MAX
}

/// Whether a number has 32 bits: it does.
#[inline(always)]
fn is_u32(number: u32) -> bool
    ensures { result ≡ nat_lt number (2 ^ 32) }
{
    number <= u32::MAX
}

/// Whether usages are in their range.
#[inline(always)]
fn are_usages(usages: i128) -> bool
    ensures { result ≡ are_usages usages }
{
    usages <= i128::MAX
}

/// Whether an amount is in its range.
pub(crate) fn is_amount(amount: i128) -> bool
    ensures { result ≡ is_amount amount }
{
    amount.unsigned_abs() < 1 << 123
}

/// Whether a text has no TAB.
fn has_no_tab(text: &str) -> bool
    ensures { result ≡ has_no_tab text.now }
{
    text.as_bytes().iter().all(|byte| *byte != b'\t')
}

/// Whether a text is an ISRC.
fn is_isrc(text: &str) -> bool
    ensures { result ≡ is_isrc_text text.now }
{
    Isrc::read(text).is_some()
}

/// Whether these are days: at least one.
fn are_some(days: i128) -> bool
    ensures { result ≡ are_days days }
{
    match u64::try_from(days) {
        Ok(days) => 0 < days,
        Err(_) => false,
    }
}

/// Whether there is at least one day from the first to the last.
fn are_days(first: Day, last: Day) -> bool
    ensures { result ≡ is_cell (DaysIn first last) }
{
    are_some(days_in(first, last))
}

/// Whether a day is one of the calendar: it is.
#[inline(always)]
fn is_day(day: Day) -> bool
    ensures { result ≡ is_cell (OnDay day) }
{
    let _ = day.parts();
    true
}

/// Whether the number of a file is in its range: it is.
#[inline(always)]
fn is_file_number(number: Option<u32>) -> bool
    ensures { result ≡ is_cell (FileNumber number) }
{
    match number {
        Some(number) => is_u32(number),
        None => true,
    }
}

/// Whether a fault is printed.
fn is_printed(fault: FileFault) -> bool
    ensures { result ≡ is_printed_fault fault }
{
    !matches!(fault, FileFault::Memory)
}

/// Whether the parts of a ledger line are spelled as in a report and in their ranges.
fn is_ledger(key: &KeyRef<'_>, usages: i128, amount: i128) -> bool
    ensures { result ≡ is_line (Line.Ledger key.now usages amount) }
{
    is_isrc(key.isrc)
        && is_territory(key.territory)
        && is_use_type(key.use_type)
        && is_currency(key.currency)
        && are_usages(usages)
        && is_amount(amount)
}

/// Whether a byte is a digit or a small letter a to f.
fn is_small_hex(byte: u8) -> bool
    ensures { result ≡ is_small_hex byte }
{
    byte.is_ascii_digit() || (b'a' <= byte && byte <= b'f')
}

/// Whether every byte is a digit or a small letter a to f.
fn all_small_hex(bytes: &[u8]) -> bool
    ensures { result ≡ list_all is_small_hex bytes.now }
{
    bytes.iter().all(|byte| is_small_hex(*byte))
}

/// Whether a text is a SHA-256: 64 digits and small letters a to f.
fn is_sha256(text: &str) -> bool
    ensures { result ≡ is_sha256_text text.now }
{
    all_small_hex(text.as_bytes()) && text.len() == 64
}

/// Whether a cell is spelled as in a report and in its range.
fn is_cell(cell: &Cell<'_>) -> bool
    ensures { result ≡ is_cell cell.now }
{
    match cell {
        Cell::Number64(number) => is_u64(*number),
        Cell::Number32(number) => is_u32(*number),
        Cell::FileNumber(number) => is_file_number(*number),
        Cell::Usages(usages) => are_usages(*usages),
        Cell::Amount(amount) => is_amount(*amount),
        Cell::OnDay(day) => is_day(*day),
        Cell::DaysIn(first, last) => are_days(*first, *last),
        Cell::Identifier(most, word) => is_identifier(word.text, *most),
        Cell::Isrc(word) => is_isrc(word.text),
        Cell::Territory(word) => is_territory(word.text),
        Cell::UseType(word) => is_use_type(word.text),
        Cell::Currency(word) => is_currency(word.text),
        Cell::PartyName(word) => has_no_tab(word.text),
        Cell::FaultName(fault) => is_printed(*fault),
        Cell::Sha256(word) => is_sha256(word.text),
        _ => true,
    }
}

/// Whether each of these cells is.
fn are_cells(cells: &[Cell<'_>]) -> bool
    ensures { result ≡ list_all is_cell cells.now }
{
    for cell in cells {
        if !is_cell(cell) {
            return false;
        }
    }
    true
}

/// Whether the cells of a line were all spelled as in a report and in their ranges.
#[derive(Drop)]
struct Check {
    passed: bool,
}

impl Row for Check {
    ghost gave = { λ old cells new. new.passed ≡ list_all is_cell cells };

    fn take(&mut self, _kind: LineKind, cells: &[Cell<'_>]) {
        self.passed = are_cells(cells);
    }
}

/// Whether a line is one that a statement may have. That of a ledger line, of which there are many, is told without a table.
pub(crate) fn is_line(line: &Line<'_>) -> bool
    ensures { result ≡ is_line line.now }
{
    if let Line::Ledger(key, usages, amount) = line {
        return is_ledger(key, *usages, *amount);
    }
    let mut check = Check { passed: false };
    give(&mut check, line);
    check.passed
}
