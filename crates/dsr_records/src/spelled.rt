//! Reading the cells of a row: each call returns what the column's text spells, or the fault of the column.
ghost use Rattle.std.specs.Prelude.{◌≡◌, ℕ, List, [], ◌∷◌, ◌++◌, Some, None, MatchResult, OnOk, OnSome, is_some, false, take};
ghost use Rattle.dsr_cells.specs.meaning.Days.{day_of};
ghost use Rattle.dsr_cells.specs.meaning.Numbers.{amount_of, number_of, usages_of};
ghost use Rattle.dsr_cells.specs.meaning.Texts.{is_identifier_text};
ghost use Rattle.dsr_events.specs.declared.kinds.Column.TheVariants as columns;
ghost use Rattle.dsr_records.specs.declared.fault.RecordFault.TheVariants as faults;
ghost use Rattle.dsr_records.specs.inner.Rows.{ReadsText, ReadsValue, share_count};
ghost use Rattle.dsr_records.specs.meaning.Tables.{cell_of, file_number_of, is_spelled, may_be_empty, text_of};
ghost use Rattle.dsr_records.specs.meaning.Values.{shares_of};

use crate::fault::RecordFault;
use crate::row::Row;
use arrayvec::ArrayVec;
use dsr_cells::{
    Amount, Day, Share, is_currency, is_identifier, is_territory, is_use_type, read_number,
    read_usages, values,
};
use dsr_events::Column;

/// The first shares of a list cell, at most four. Most works have fewer, so their cells are read only once.
pub(crate) type FirstShares = ArrayVec<Share, 4>;

/// The greatest number of files of a report.
const MOST_FILES: u64 = 9999;

/// The file number that a text spells: 1 to 9999.
fn file_number(text: &str) -> Option<u32>
    ensures { result ≡ file_number_of text.now }
{
    let number = read_number(text)?;
    if number < 1 || number > MOST_FILES {
        return None;
    }
    Some(number as u32)
}

/// The cell of a column that must not be missing.
#[inline(always)]
fn there<'l>(row: &Row<'_, 'l>, i: usize, column: Column) -> Result<&'l str, RecordFault>
    ensures { MatchResult result (λ text. cell_of row.now i ≡ Some text.now)
        (λ fault. (cell_of row.now i ≡ None) × (fault ≡ faults.Missing column)) }
{
    row.cell(i).ok_or(RecordFault::Missing(column))
}

/// An identifier of at most `most` bytes, in a column that requires one.
#[inline(always)]
pub(crate) fn read_identifier<'l>(
    row: &Row<'_, 'l>,
    i: usize,
    column: Column,
    most: usize,
) -> Result<&'l str, RecordFault>
    requires needed { may_be_empty column ≡ false }
    requires asked { (text : List ℕ) → is_spelled row.now column text
        ≡ is_identifier_text most text }
    ensures { ReadsText row.now column i result }
{
    let text = there(row, i, column)?;
    if !is_identifier(text, most) {
        return Err(RecordFault::Bad(column));
    }
    Ok(text)
}

/// A number, in a column that requires one.
pub(crate) fn read_count(row: &Row<'_, '_>, i: usize, column: Column) -> Result<u64, RecordFault>
    requires needed { may_be_empty column ≡ false }
    requires asked { (text : List ℕ) → is_spelled row.now column text ≡ is_some (number_of text) }
    ensures { ReadsValue number_of row.now column i result }
{
    let text = there(row, i, column)?;
    read_number(text).ok_or(RecordFault::Bad(column))
}

/// The file number.
pub(crate) fn read_file_number(row: &Row<'_, '_>, i: usize) -> Result<u32, RecordFault>
    ensures { ReadsValue file_number_of row.now columns.FileNumber i result }
{
    let text = there(row, i, Column::FileNumber)?;
    file_number(text).ok_or(RecordFault::Bad(Column::FileNumber))
}

/// The number of files, which is at least the file number.
pub(crate) fn read_number_of_files(
    row: &Row<'_, '_>,
    i: usize,
    least: u32,
) -> Result<u32, RecordFault>
    requires { file_number_of (text_of row.now 1) ≡ Some least }
    ensures { ReadsValue file_number_of row.now columns.NumberOfFiles i result }
{
    let text = there(row, i, Column::NumberOfFiles)?;
    match file_number(text) {
        Some(number) if least <= number => Ok(number),
        _ => Err(RecordFault::Bad(Column::NumberOfFiles)),
    }
}

/// The first day of the usages.
pub(crate) fn read_first_day(row: &Row<'_, '_>, i: usize) -> Result<Day, RecordFault>
    ensures { ReadsValue day_of row.now columns.UsageStartDate i result }
{
    let text = there(row, i, Column::UsageStartDate)?;
    Day::read(text).ok_or(RecordFault::Bad(Column::UsageStartDate))
}

/// The last day of the usages, not before the first.
pub(crate) fn read_last_day(row: &Row<'_, '_>, i: usize, first: Day) -> Result<Day, RecordFault>
    requires { day_of (text_of row.now 3) ≡ Some first }
    ensures { ReadsValue day_of row.now columns.UsageEndDate i result }
{
    let text = there(row, i, Column::UsageEndDate)?;
    match Day::read(text) {
        Some(day) if first.number() <= day.number() => Ok(day),
        _ => Err(RecordFault::Bad(Column::UsageEndDate)),
    }
}

/// A territory.
pub(crate) fn read_territory<'l>(row: &Row<'_, 'l>, i: usize) -> Result<&'l str, RecordFault>
    ensures { ReadsText row.now columns.Territory i result }
{
    let text = there(row, i, Column::Territory)?;
    if !is_territory(text) {
        return Err(RecordFault::Bad(Column::Territory));
    }
    Ok(text)
}

/// A use type.
pub(crate) fn read_use_type<'l>(row: &Row<'_, 'l>, i: usize) -> Result<&'l str, RecordFault>
    ensures { ReadsText row.now columns.UseType i result }
{
    let text = there(row, i, Column::UseType)?;
    if !is_use_type(text) {
        return Err(RecordFault::Bad(Column::UseType));
    }
    Ok(text)
}

/// A currency.
pub(crate) fn read_currency<'l>(row: &Row<'_, 'l>, i: usize) -> Result<&'l str, RecordFault>
    ensures { ReadsText row.now columns.Currency i result }
{
    let text = there(row, i, Column::Currency)?;
    if !is_currency(text) {
        return Err(RecordFault::Bad(Column::Currency));
    }
    Ok(text)
}

/// Usages.
#[inline(always)]
pub(crate) fn read_usage_count(row: &Row<'_, '_>, i: usize) -> Result<i64, RecordFault>
    ensures { ReadsValue usages_of row.now columns.Usages i result }
{
    let text = there(row, i, Column::Usages)?;
    read_usages(text).ok_or(RecordFault::Bad(Column::Usages))
}

/// An amount.
#[inline(always)]
pub(crate) fn read_amount(row: &Row<'_, '_>, i: usize) -> Result<Amount, RecordFault>
    ensures { ReadsValue amount_of row.now columns.Amount i result }
{
    let text = there(row, i, Column::Amount)?;
    Amount::read(text).ok_or(RecordFault::Bad(Column::Amount))
}

/// Adds a share to the first ones, unless there are four.
#[inline(always)]
fn add_share(first: &mut FirstShares, share: Share)
    ensures { first.new.items ≡ take 4 (first.old.items ++ share ∷ []) }
{
    if !first.is_full() {
        first.push(share);
    }
}

/// The number of shares in a list cell; None if a raw part is not a share. The first four are added to `first`, which is
/// empty.
pub(crate) fn count_shares(cell: &str, first: &mut FirstShares) -> Option<usize>
    requires { first.old.items ≡ [] }
    ensures count { result ≡ share_count cell.now }
    ensures first { OnSome result (first.new.items ≡ take 4 (shares_of cell.now)) }
{
    let mut count = 0;
    for part in values(cell) {
        let share = Share::read(part)?;
        add_share(first, share);
        count += 1;
    }
    Some(count)
}

/// The number of shares in the cell of the column Shares, which may be missing. The first four are added to `first`,
/// which is empty.
#[inline(always)]
pub(crate) fn read_share_count(
    row: &Row<'_, '_>,
    i: usize,
    first: &mut FirstShares,
) -> Result<usize, RecordFault>
    requires { first.old.items ≡ [] }
    ensures count { ReadsValue share_count row.now columns.Shares i result }
    ensures first { OnOk result (first.new.items ≡ take 4 (shares_of (text_of row.now i))) }
{
    count_shares(row.text(i), first).ok_or(RecordFault::Bad(Column::Shares))
}
