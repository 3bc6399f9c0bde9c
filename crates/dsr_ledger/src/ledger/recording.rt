//! A recording: the seats of its parties, and its lines.
ghost use Rattle.std.specs.Prelude.{◌≡◌, length};
ghost use Rattle.std.proofs.Props.{props};
ghost use Rattle.dsr_ledger.specs.inner.Numbered.{AreIndexed, AreApart};
ghost use Rattle.dsr_ledger.specs.inner.Seated.{seat_numbers};
ghost use Rattle.dsr_ledger.specs.inner.Tallies.{line_in, line_keys, AreWithin};

use crate::index::{Hints, Index, Seeded};
use crate::ledger::line::Line;
use crate::ledger::parts::{SeatShare, widen};
use crate::ledger::seats::Seats;
use dsr_cells::NoMemory;
use std::alloc::Global;

/// The lines of a recording have hints in this many groups, by the numbers of their summary keys.
const LINE_GROUPS: usize = 16;

/// The parties of a recording, each at its seat, and its lines: one for each summary key, in the order
/// in which they were added.
#[derive(Drop)]
pub(crate) struct Recording {
    pub(crate) seats: Seats,
    pub(crate) lines: Vec<Line>,
    /// By the numbers of the lines' summary keys.
    index: Index,
    hints: Hints<LINE_GROUPS>,
    /// The number of the recording whose block came next, when a block of this one last came before another. It may be
    /// any number.
    pub(crate) next: u32,
    ghost apart: { AreApart (line_keys lines.items) },
    ghost indexed: { AreIndexed (line_keys lines.items) index } by { Prim.hlevel props },
    ghost within: { AreWithin (length (seat_numbers seats)) lines.items },
}

/// The group of hints of a summary key.
#[inline(always)]
fn line_group(key: u32) -> usize {
    key as usize % LINE_GROUPS
}

impl Recording {
    ghost use Rattle.std.specs.Prelude.{Some, None, [], IfOk};
    ghost use Rattle.dsr_ledger.specs.inner.Numbered.{IsWithNumber};
    ghost use Rattle.dsr_ledger.specs.inner.Seated.{AreSeatsBelow};
    ghost use Rattle.dsr_ledger.specs.inner.Tallies.{LinesGrow, IsWide};

    /// No parties and no lines, with room for this many lines.
    pub(crate) fn with_room(alloc: Global, lines: usize) -> Result<Recording, NoMemory>
        ensures seats { IfOk result (λ r. seat_numbers r.seats ≡ []) }
        ensures lines { IfOk result (λ r. r.lines.items ≡ []) }
    {
        Ok(Recording {
            seats: Seats::new(alloc),
            lines: Vec::with_capacity(alloc, lines)?,
            index: Index::new(),
            hints: Hints::new(),
            next: u32::MAX,
        })
    }

    /// Adds a line for a summary key that has none.
    #[cold]
    #[inline(never)]
    fn add_line(&mut self, alloc: Global, seeded: Seeded, key: u32) -> Result<usize, NoMemory>
        requires { line_in self.old.lines.items key ≡ None }
        ensures seats { self.new.seats ≡ self.old.seats }
        ensures grows { LinesGrow self.old.lines.items self.new.lines.items }
        ensures keys { IsWithNumber (line_keys self.old.lines.items)
            (line_keys self.new.lines.items) key }
        ensures there { IfOk result (λ i. line_in self.new.lines.items key ≡ Some i) }
    {
        self.lines.reserve(1)?;
        let number = self.lines.len();
        self.index.add(alloc, seeded, self.lines.as_slice(), key)?;
        self.lines.push(Line::new(alloc, key))?;
        self.hints.set(line_group(key), number);
        Ok(number)
    }

    /// Where the line of a summary key probably is: while there are few lines, at the key's hint, and later at `next`.
    #[inline(always)]
    fn line_hint(&self, key: u32, next: usize) -> usize {
        if self.lines.len() > LINE_GROUPS {
            next
        } else {
            self.hints.get(line_group(key))
        }
    }

    /// The line of a summary key, which is added if there is none. Of many lines, the one at `next` is tried first.
    fn line_of(
        &mut self,
        alloc: Global,
        seeded: Seeded,
        key: u32,
        next: usize,
    ) -> Result<usize, NoMemory>
        ensures seats { self.new.seats ≡ self.old.seats }
        ensures grows { LinesGrow self.old.lines.items self.new.lines.items }
        ensures keys { IsWithNumber (line_keys self.old.lines.items)
            (line_keys self.new.lines.items) key }
        ensures there { IfOk result (λ i. line_in self.new.lines.items key ≡ Some i) }
    {
        let hint = self.line_hint(key, next);
        if let Some(number) = self.index.find(self.lines.as_slice(), key, hint) {
            return Ok(number);
        }
        self.add_line(alloc, seeded, key)
    }

    /// The same, and the line has a part for the seat of each share. One with a part for every seat needs no further ones.
    pub(crate) fn line(
        &mut self,
        alloc: Global,
        seeded: Seeded,
        key: u32,
        next: usize,
        shares: &[SeatShare],
    ) -> Result<usize, NoMemory>
        requires { AreSeatsBelow (length (seat_numbers self.old.seats)) shares.now }
        ensures seats { self.new.seats ≡ self.old.seats }
        ensures grows { LinesGrow self.old.lines.items self.new.lines.items }
        ensures keys { IsWithNumber (line_keys self.old.lines.items)
            (line_keys self.new.lines.items) key }
        ensures there { IfOk result (λ i. (line_in self.new.lines.items key ≡ Some i)
            × IsWide shares.now self.new.lines.items i) }
    {
        let number = self.line_of(alloc, seeded, key, next)?;
        if self.lines[number].parts.len() == self.seats.len() {
            return Ok(number);
        }
        widen(&mut self.lines[number].parts, alloc, seeded, shares).and(Ok(number))
    }
}
