//! The recordings in the order of their ISRCs, the lines of a recording in the order of their summary keys, and the parties of a
//! line in the order of their names.
ghost use Rattle.std.specs.Prelude.{◌≡◌, IfOk, ◌≤◌, ℕ, List, filter, length, vec_capacity};
ghost use Rattle.std.specs.Str.{bytes_eq};
ghost use Rattle.std.specs.List.{IsDistinct};
ghost use Rattle.indexmap.specs.IndexMap.{get, index_of};
ghost use Rattle.dsr_ledger.specs.meaning.Bookings.{text_cmp, Booking};
ghost use Rattle.dsr_ledger.specs.meaning.Ledger.{party_lines, all_parts};
ghost use Rattle.dsr_ledger.specs.inner.View.{AreListed, lent, AreDistinctBelow, line_for, party_in};
ghost use Rattle.dsr_ledger.specs.inner.Numbered.{place_by};
ghost use Rattle.dsr_ledger.specs.inner.Recordings.{summary_key_eq, summary_key_cmp};
ghost use Rattle.dsr_ledger.specs.inner.Seated.{part_seats, owed_in, owed_for};
ghost use Rattle.dsr_ledger.specs.inner.Tallies.{line_keys};

use crate::index::{Seeded, to_u32};
use crate::ledger::line::Line;
use crate::ledger::part::SeatPart;
use crate::ledger::recording::Recording;
use crate::ledger::summary_key::SummaryKey;
use crate::view::PartyView;
use dsr_cells::{Isrc, NoMemory, Text};
use indexmap::IndexMap;
use std::alloc::Global;
use std::cmp::Ordering;

/// The order of two numbered ISRCs: the order of the ISRCs.
fn by_isrc(one: &(Isrc, u32), other: &(Isrc, u32)) -> Ordering
    ensures { result ≡ text_cmp one.now.0 other.now.0 }
{
    one.0.cmp(&other.0)
}

/// The ISRCs in order, with the numbers of their recordings. They are copies, so that sorting reads them where they
/// lie. A number past 32 bits is reported as `NoMemory`.
fn sorted_isrcs(
    alloc: Global,
    recordings: &IndexMap<Isrc, Recording, Seeded>,
) -> Result<Vec<(Isrc, u32)>, NoMemory>
    ensures { IfOk result (λ list. AreListed text_cmp (index_of bytes_eq recordings.now)
        list.items) }
{
    let mut list = Vec::with_capacity(alloc, recordings.len())?;
    for (isrc, _) in recordings.iter() {
        let number = to_u32(list.len())?;
        list.push((*isrc, number))?;
    }
    list.sort_unstable_by(by_isrc);
    Ok(list)
}

/// The recordings in order, with their ISRCs. The recordings themselves stay in the order of arrival, in which
/// their memory is given back much faster.
pub(crate) fn sorted_recordings<'a>(
    alloc: Global,
    recordings: &'a IndexMap<Isrc, Recording, Seeded>,
) -> Result<Vec<(&'a Isrc, &'a Recording)>, NoMemory>
    ensures { IfOk result (λ list. AreListed text_cmp (get bytes_eq recordings.now)
        (lent list.items)) }
{
    let sorted = sorted_isrcs(alloc, recordings)?;
    let mut list = Vec::with_capacity(alloc, recordings.len())?;
    for (_, number) in sorted.as_slice() {
        if let Some(found) = recordings.get_index(*number as usize) {
            list.push(found)?;
        }
    }
    Ok(list)
}

/// The order of two lines: the order of their summary keys.
fn by_key(one: &(&SummaryKey, &Line), other: &(&SummaryKey, &Line)) -> Ordering
    ensures { result ≡ summary_key_cmp one.now.0.now other.now.0.now }
{
    one.0.cmp(other.0)
}

/// The order of two parties: the byte order of their names.
fn by_name(one: &PartyView<'_>, other: &PartyView<'_>) -> Ordering
    ensures { result ≡ text_cmp one.now.party other.now.party }
{
    one.party.cmp(other.party)
}

/// Fills a list with the lines that have a booking, in the order of their summary keys, with these keys. This allocates
/// nothing.
pub(crate) fn lines_by_key<'a>(
    keys: &'a [SummaryKey],
    lines: &'a [Line],
    listed: &mut Vec<(&'a SummaryKey, &'a Line)>,
)
    requires distinct { IsDistinct summary_key_eq keys.now }
    requires numbers { AreDistinctBelow (length keys.now) (line_keys lines.now) }
    requires room { length lines.now ≤ vec_capacity listed.old }
    ensures listed { AreListed summary_key_cmp
        (line_for keys.now (filter (λ l. l.sums.is_booked) lines.now)) (lent listed.new.items) }
    ensures few { length listed.new.items ≤ length lines.now }
    ensures room { vec_capacity listed.new ≡ vec_capacity listed.old }
{
    listed.clear();
    for line in lines {
        if line.sums.is_booked() {
            listed.push_reserved((&keys[line.sums.key() as usize], line));
        }
    }
    listed.sort_unstable_by(by_key);
}

/// Fills a list with the parties that have a part, in the byte order of their names. `numbers` has the number of the
/// party at each seat. This allocates nothing.
pub(crate) fn parties_by_name<'a>(
    names: &'a [Text],
    numbers: &[u32],
    parts: &[SeatPart],
    listed: &mut Vec<PartyView<'a>>,
)
    requires distinct { IsDistinct bytes_eq names.now }
    requires numbers { AreDistinctBelow (length names.now) numbers.now }
    requires seats { AreDistinctBelow (length numbers.now) (part_seats parts.now) }
    requires room { length parts.now ≤ vec_capacity listed.old }
    ensures listed { (bs : List Booking)
        → ((q : List ℕ) → owed_in parts.now (place_by (party_in names.now) numbers.now q) ≡ owed_for q (all_parts bs))
        → listed.new.items ≡ party_lines bs }
    ensures room { vec_capacity listed.new ≡ vec_capacity listed.old }
{
    listed.clear();
    for part in parts {
        if part.has_part() {
            let number = numbers[part.seat() as usize];
            listed.push_reserved(PartyView {
                party: &names[number as usize],
                amount: part.amount(),
            });
        }
    }
    listed.sort_unstable_by(by_name);
}
