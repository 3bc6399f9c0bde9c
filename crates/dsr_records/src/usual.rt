//! Lines of the usual form, read quickly from the bytes of a piece, or declined.
ghost use Rattle.std.specs.Prelude.{◌≡◌, ◌≤◌, IfSome, IsTrue, Some, length, slice_index};
ghost use Rattle.std.specs.Int.{w32, to_le_bytes};
ghost use Rattle.std.specs.Simd.Lanes.{chunk};
ghost use Rattle.dsr_cells.specs.meaning.Numbers.{amount_of};
ghost use Rattle.dsr_events.specs.declared.record.Record.TheVariants as records;
ghost use Rattle.dsr_records.specs.inner.Usual.{BeginsWithRecord};

mod cells;
mod point;

use crate::check::{ResourceLine, UsageLine, WorkLine};
use crate::spelled::count_shares;
use arrayvec::ArrayVec;
use cells::{Cell, Cells};
use dsr_cells::{Amount, count_values, usual_decimals, usual_number};
use point::point_in_16;

/// The number of bytes that a page must have: those behind the bytes that are looked at are read too.
const PAGE: usize = 96;

/// The record types AS01, MW01 and SU01, as little-endian numbers.
const RESOURCE: u32 = 0x3130_5341;

const WORK: u32 = 0x3130_574d;

const USAGE: u32 = 0x3130_5553;

/// Whether a page has enough bytes, and begins with this record type and a TAB.
#[inline(always)]
fn has_type(page: &[u8], name: u32) -> bool
    ensures { IsTrue result → (96 ≤ length page.now)
        × (chunk 0 4 page.now ≡ to_le_bytes w32 name) × (slice_index page.now 4 ≡ 9) }
{
    page.len() >= PAGE
        && u32::from_le_bytes([page[0], page[1], page[2], page[3]]) == name
        && page[4] == b'\t'
}

/// The resource of the line that a page begins with, and the length of the line, if the line has the usual form.
#[inline(always)]
pub(crate) fn usual_resource(page: &[u8]) -> Option<(ResourceLine<'_>, usize)>
    ensures { IfSome result (λ r. BeginsWithRecord page.now r.1 (records.Resource r.0)) }
{
    if !has_type(page, RESOURCE) {
        return None;
    }
    let (block_id, rest) = Cells::behind_type(page).next()?;
    let (isrc, rest) = rest.next()?;
    let (titles, rest) = rest.next_text()?;
    let (artists, size) = rest.last_text()?;
    if !block_id.is_identifier() {
        return None;
    }
    let line = ResourceLine {
        block_id: block_id.text(),
        isrc: isrc.text(),
        titles,
        artists,
    };
    Some((line, size))
}

/// The work of the line that a page begins with, and the length of the line, if the line has the usual form.
#[inline(always)]
pub(crate) fn usual_work(page: &[u8]) -> Option<(WorkLine<'_>, usize)>
    ensures { IfSome result (λ w. BeginsWithRecord page.now w.1 (records.Work w.0)) }
{
    if !has_type(page, WORK) {
        return None;
    }
    let (block_id, rest) = Cells::behind_type(page).next()?;
    let (work_id, rest) = rest.next()?;
    let (title, rest) = rest.next_text()?;
    let (parties, rest) = rest.look()?.next_text()?;
    let (shares, size) = rest.last()?;
    if !block_id.is_identifier() {
        return None;
    }
    let share_cell = shares.text();
    let mut first_shares = ArrayVec::new();
    let count = count_shares(share_cell, &mut first_shares)?;
    if count_values(parties) != count {
        return None;
    }
    let line = WorkLine {
        block_id: block_id.text(),
        work_id: work_id.text(),
        title,
        parties,
        shares: share_cell,
        first_shares,
    };
    Some((line, size))
}

/// The usage of the line that a page begins with, and the length of the line, if the line has the usual form.
#[inline(always)]
pub(crate) fn usual_usage(page: &[u8]) -> Option<(UsageLine<'_>, usize)>
    ensures { IfSome result (λ u. BeginsWithRecord page.now u.1 (records.Usage u.0)) }
{
    if !has_type(page, USAGE) {
        return None;
    }
    let (block_id, rest) = Cells::behind_type(page).next()?;
    let (summary_id, rest) = rest.next()?;
    let (usages, rest) = rest.next()?;
    let (amount, size) = rest.last()?;
    if !block_id.is_identifier() || !summary_id.is_identifier() {
        return None;
    }
    let line = UsageLine {
        block_id: block_id.text(),
        summary_id: summary_id.text(),
        usages: usual_number(usages.page, usages.at, usages.size)? as i64,
        amount: usual_amount(amount)?,
    };
    Some((line, size))
}

/// The amount in a cell: 1 to 8 digits, a point and 1 to 10 decimals.
#[inline(always)]
fn usual_amount(cell: Cell<'_>) -> Option<Amount>
    ensures { IfSome result (λ a.
        amount_of (chunk cell.entry.at cell.entry.size cell.entry.page.now) ≡ Some a) }
{
    let point = point_in_16(cell.page, cell.at);
    if point >= cell.size {
        return None;
    }
    let whole = usual_number(cell.page, cell.at, point)?;
    let decimals = usual_decimals(cell.page, cell.at + point + 1, cell.size - point - 1)?;
    Some(Amount::of_parts(whole, decimals))
}
