//! The ledger: the parties, the summary keys and the recordings, all interned: stored once, and numbered.
ghost use Rattle.std.specs.Prelude.{◌≡◌, ℕ, List, Some, length};
ghost use Rattle.std.specs.Str.{bytes_eq};
ghost use Rattle.indexmap.specs.IndexMap.{get};
ghost use Rattle.dsr_ledger.specs.layer.Limits.{amount_bound};
ghost use Rattle.dsr_ledger.specs.inner.Numbered.{AreBelow};
ghost use Rattle.dsr_ledger.specs.inner.Seated.{seat_numbers};
ghost use Rattle.dsr_ledger.specs.inner.Tallies.{line_keys};
ghost use Rattle.dsr_ledger.specs.declared.ledger.recording.Recording.{Recording};

pub(crate) mod line;
pub(crate) mod part;
pub(crate) mod parts;
pub(crate) mod recording;
pub(crate) mod seats;
pub(crate) mod spares;
pub(crate) mod summary_key;
pub(crate) mod totals;

use crate::index::{Seeded, to_u32};
use crate::ledger::parts::SeatShare;
use crate::ledger::recording::Recording;
use crate::ledger::spares::Spares;
use crate::ledger::summary_key::SummaryKey;
use dsr_cells::{Isrc, NoMemory, Text};
use dsr_events::Usage;
use indexmap::{IndexMap, IndexSet};
use std::alloc::Global;

/// Each party, each summary key and each recording once. Each kind is numbered in order of arrival.
#[derive(Drop)]
pub(crate) struct Ledger {
    pub(crate) parties: IndexSet<Text, Seeded>,
    pub(crate) summary_keys: IndexSet<SummaryKey, Seeded>,
    pub(crate) recordings: IndexMap<Isrc, Recording, Seeded>,
    ghost seated: { (isrc : List ℕ) (r : Recording) → get bytes_eq recordings isrc ≡ Some r
        → AreBelow (length parties.keys) (seat_numbers r.seats) },
    ghost keyed: { (isrc : List ℕ) (r : Recording) → get bytes_eq recordings isrc ≡ Some r
        → AreBelow (length summary_keys.keys) (line_keys r.lines.items) },
}

impl Ledger {
    ghost use Rattle.std.specs.Prelude.{◌≤◌, ◌+◌, Option, IfOk, IfSome, None, map, if◌then◌else◌};
    ghost use Rattle.dsr_ledger.specs.meaning.Bookings.{Key, key_eq, key_under};
    ghost use Rattle.dsr_ledger.specs.inner.Seated.{parts_size, AreSeated};
    ghost use Rattle.dsr_ledger.specs.meaning.Ledger.{part_of};
    ghost use Rattle.dsr_ledger.specs.inner.Summaries.{IsInRange};
    ghost use Rattle.dsr_ledger.specs.inner.Tallies.{no_tally, tally_with, TallyFits};
    ghost use Rattle.dsr_ledger.specs.inner.Recordings.{party_number, key_number, recording_number, tally_at, seat_at, line_at, IsWideAt, KeepsKeys, KeepsSeats, KeepsLines, SameNumbers, IsLineOf};

    /// No recordings.
    pub(crate) fn new(alloc: Global, seeded: Seeded) -> Ledger
        ensures { (q : Key) → tally_at result q ≡ no_tally }
    {
        Ledger {
            parties: IndexSet::with_hasher(alloc, seeded),
            summary_keys: IndexSet::with_hasher(alloc, seeded),
            recordings: IndexMap::with_hasher(alloc, seeded),
        }
    }

    /// The recording whose block came after one of recording `last` before, by its number and its ISRC. It is mostly that of
    /// the next block.
    pub(crate) fn expected(&self, last: usize) -> Option<(usize, Isrc)>
        ensures { IfSome result (λ e. recording_number self.now e.1 ≡ Some e.0) }
    {
        let recordings = self.recordings.as_slice();
        let (_, found) = recordings.get_index(last)?;
        let next = found.next as usize;
        let (isrc, _) = recordings.get_index(next)?;
        Some((next, *isrc))
    }

    /// The number of a recording, if it is the one expected after recording `last`.
    fn following(&self, last: usize, isrc: &Isrc) -> Option<usize>
        ensures { IfSome result (λ number. recording_number self.now isrc.now ≡ Some number) }
    {
        let (next, own) = self.expected(last)?;
        if own == *isrc {
            return Some(next);
        }
        None
    }

    /// Notes that a block of recording `next` came after one of recording `last`.
    fn follow(&mut self, last: usize, next: usize)
        ensures { KeepsSeats self.old self.new }
    {
        let Ok(next) = u32::try_from(next) else {
            return;
        };
        if last < self.recordings.len() {
            let (_, found) = self.recordings.pair_mut(last);
            found.next = next;
        }
    }

    /// The number of a recording, which is added if it is new, with room for this many lines. The sums of each key are
    /// unchanged. The recording whose block came after one of `last` before is tried first: the files of a report
    /// often have their recordings in the same order.
    pub(crate) fn recording(
        &mut self,
        alloc: Global,
        isrc: Isrc,
        lines: usize,
        last: usize,
    ) -> Result<usize, NoMemory>
        ensures same { (q : Key) → tally_at self.new q ≡ tally_at self.old q }
        ensures keys { self.new.summary_keys ≡ self.old.summary_keys }
        ensures there { IfOk result (λ number. recording_number self.new isrc ≡ Some number) }
    {
        if let Some(number) = self.following(last, &isrc) {
            return Ok(number);
        }
        let number = self.recording_of(alloc, isrc, lines)?;
        self.follow(last, number);
        Ok(number)
    }

    /// The number of a recording, which is added if it is new, with room for this many lines. The sums of each key are
    /// unchanged.
    fn recording_of(&mut self, alloc: Global, isrc: Isrc, lines: usize) -> Result<usize, NoMemory>
        ensures same { (q : Key) → tally_at self.new q ≡ tally_at self.old q }
        ensures keys { self.new.summary_keys ≡ self.old.summary_keys }
        ensures there { IfOk result (λ number. recording_number self.new isrc ≡ Some number) }
    {
        if let Some(number) = self.recordings.get_index_of(&isrc) {
            return Ok(number);
        }
        let number = self.recordings.len();
        let made = Recording::with_room(alloc, lines)?;
        let _none = self.recordings.insert(isrc, made)?;
        Ok(number)
    }

    /// The number of a party, which is given one if it has none. A number past 32 bits is reported as `NoMemory`.
    #[inline(never)]
    fn party(&mut self, alloc: Global, name: &Text) -> Result<u32, NoMemory>
        ensures seats { (isrc q : List ℕ) → seat_at self.new isrc q ≡ seat_at self.old isrc q }
        ensures same { (q : Key) → tally_at self.new q ≡ tally_at self.old q }
        ensures keys { self.new.summary_keys ≡ self.old.summary_keys }
        ensures recordings { self.new.recordings ≡ self.old.recordings }
        ensures there { IfOk result (λ number. party_number self.new name.now ≡ Some number) }
    {
        if let Some(number) = self.parties.get_index_of(name) {
            return to_u32(number);
        }
        let number = to_u32(self.parties.len())?;
        self.parties.insert(name.copy(alloc)?)?;
        Ok(number)
    }

    /// The seat `hint` of a recording, if it is this party's.
    fn hinted_seat(&self, recording: usize, name: &Text, hint: usize) -> Option<usize>
        ensures { (isrc : List ℕ) → recording_number self.now isrc ≡ Some recording
            → IfSome result (λ seat. seat_at self.now isrc name.now ≡ Some seat) }
    {
        let (_, found) = self.recordings.as_slice().get_index(recording)?;
        let party = found.seats.as_slice().get(hint)?;
        let named = self.parties.as_slice().get(*party as usize)?;
        if *named == *name {
            return Some(hint);
        }
        None
    }

    /// The seat of a party in a recording, which is given one if it has none. The sums of each key
    /// are unchanged. The seat `hint` is tried first.
    pub(crate) fn seat(
        &mut self,
        alloc: Global,
        recording: usize,
        name: &Text,
        hint: usize,
    ) -> Result<usize, NoMemory>
        requires { (isrc : List ℕ) × (recording_number self.old isrc ≡ Some recording) }
        ensures keeps { KeepsSeats self.old self.new }
        ensures there { (isrc : List ℕ) → recording_number self.old isrc ≡ Some recording
            → IfOk result (λ seat. seat_at self.new isrc name.now ≡ Some seat) }
    {
        if let Some(seat) = self.hinted_seat(recording, name, hint) {
            return Ok(seat);
        }
        let party = self.party(alloc, name)?;
        let seeded = *self.recordings.hasher();
        let (_, found) = self.recordings.pair_mut(recording);
        found.seats.seat(alloc, seeded, party)
    }

    /// The number of a summary key, which is given one if it has none. A number past 32 bits is reported as `NoMemory`.
    pub(crate) fn summary_key(&mut self, key: SummaryKey) -> Result<u32, NoMemory>
        ensures keeps { KeepsKeys self.old self.new }
        ensures there { IfOk result (λ number. key_number self.new key ≡ Some number) }
    {
        if let Some(number) = self.summary_keys.get_index_of(&key) {
            return to_u32(number);
        }
        let number = to_u32(self.summary_keys.len())?;
        self.summary_keys.insert(key)?;
        Ok(number)
    }

    /// The line of the summary key with this number in a recording, which is added if there is none, and has a part for
    /// the seat of each share. The sums of each key are unchanged. If the recording has many lines, `next` is tried first.
    pub(crate) fn line(
        &mut self,
        alloc: Global,
        recording: usize,
        number: u32,
        next: usize,
        shares: &[SeatShare],
    ) -> Result<usize, NoMemory>
        requires there { (isrc : List ℕ) × (es : List (List ℕ × ℕ))
            × (recording_number self.old isrc ≡ Some recording)
            × AreSeated (seat_at self.old isrc) shares.now es }
        requires known { (key : SummaryKey) × (key_number self.old key ≡ Some number) }
        ensures keeps { KeepsLines self.old self.new }
        ensures there { (isrc : List ℕ) (key : SummaryKey)
            → recording_number self.old isrc ≡ Some recording
            → key_number self.old key ≡ Some number
            → IfOk result (λ i. (line_at self.new isrc key ≡ Some i) × IsWideAt self.new isrc shares.now i) }
    {
        let seeded = *self.recordings.hasher();
        let (_, found) = self.recordings.pair_mut(recording);
        found.line(alloc, seeded, number, next, shares)
    }

    /// Adds a usage and its parts to a line, and to no other. This allocates nothing.
    pub(crate) fn add(
        &mut self,
        recording: usize,
        line: usize,
        usage: &Usage,
        shares: &[SeatShare],
        spares: &mut Spares,
    )
        requires fits { (isrc : List ℕ) × (key : SummaryKey) × (es : List (List ℕ × ℕ))
            × IsLineOf self.old isrc key es recording line shares.now
            × TallyFits 1 (tally_at self.old (key_under isrc key)) × (parts_size (map (part_of usage.now.amount) es) ≤ amount_bound) }
        requires spare { 2 + length shares.now ≤ spares.old }
        ensures range { IsInRange usage.now }
        ensures numbers { SameNumbers self.old self.new }
        ensures tally { (isrc : List ℕ) (key : SummaryKey) (es : List (List ℕ × ℕ))
            → IsLineOf self.old isrc key es recording line shares.now
            → (q : Key) → tally_at self.new q ≡ (if key_eq (key_under isrc key) q then tally_with usage.now (map (part_of usage.now.amount) es) (tally_at self.old q) else tally_at self.old q) }
        ensures spares { spares.old ≤ spares.new + (2 + length shares.now) }
    {
        let (_, found) = self.recordings.pair_mut(recording);
        let line = &mut found.lines[line];
        line.sums.add(usage, spares);
        line.parts.add(usage.amount, shares, spares);
    }
}
