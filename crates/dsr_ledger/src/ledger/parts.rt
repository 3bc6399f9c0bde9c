//! The parts of a line: what it owes the party at each seat.
ghost use Rattle.std.specs.Prelude.{◌≡◌, ◌≤◌, ◌<◌, ◌+◌, ◌^◌, ◌+ℤ◌, ◌*ℤ◌, pos, ℕ, List, Option, None, Some, [], ◌∷◌, ◌++◌, IfOk, OnOk, OnErr, length, map, unsigned_abs, if◌then◌else◌};
ghost use Rattle.std.specs.Int.{w128};
ghost use Rattle.std.specs.Int.RustNames.{FitsSigned, int_div};
ghost use Rattle.std.specs.Str.{bytes_eq};
ghost use Rattle.std.proofs.Props.{props};
ghost use Rattle.dsr_ledger.specs.layer.Limits.{amount_bound};
ghost use Rattle.dsr_ledger.specs.inner.Numbered.{AreIndexed, IsNumbered, AreApart, AreBelow};
ghost use Rattle.dsr_ledger.specs.inner.Seated.{owed_with, owed_in, owed_plus, owed_for, part_seats, part_in, parts_size, PartsGrow, HaveSeats, HasPart, HaveParts, AreSeatsBelow};
ghost use Rattle.dsr_ledger.specs.meaning.Ledger.{part_of};

use crate::index::{Index, Seeded};
use crate::ledger::part::SeatPart;
use crate::ledger::spares::Spares;
use dsr_cells::{Amount, NoMemory};
use smallvec::SmallVec;
use std::alloc::Global;

/// This many parts of a line are stored in the line itself, more on the heap.
const FEW_PARTS: usize = 2;

/// A party's share of a work, at the seat of the party.
#[derive(Clone, Copy, PartialEq, Eq, Drop)]
pub(crate) struct SeatShare {
    pub(crate) seat: u32,
    /// In millionths.
    pub(crate) share: u32,
}

/// The parts of a line, one for each seat that has one, in the order in which they were added.
#[derive(Drop)]
pub(crate) struct Parts {
    pub(crate) items: SmallVec<SeatPart, FEW_PARTS>,
    /// By the seats.
    index: Index,
    ghost apart: { AreApart (part_seats items.items) },
    ghost indexed: { AreIndexed (part_seats items.items) index } by { Prim.hlevel props },
}

/// A share, in millionths, of an amount in units, rounded toward zero.
fn share_of(amount: i128, share: u32) -> i128
    requires { unsigned_abs amount < amount_bound }
    ensures { result ≡ int_div (amount *ℤ pos share) (pos 1000000) }
{
    let product = amount * i128::from(share);
    match i64::try_from(product) {
        Ok(product) => i128::from(product / 1_000_000),
        Err(_) => product / 1_000_000,
    }
}

/// How many of these seats are above all before them: the number of parties, if the shares come in
/// the order of their seats.
fn rising_seats(shares: &[SeatShare]) -> usize {
    let mut rising = 0usize;
    let mut next = 0u32;
    for share in shares {
        if share.seat >= next {
            rising = rising.wrapping_add(1);
            next = share.seat.wrapping_add(1);
        }
    }
    rising
}

/// Adds the share of an amount to the part of its seat, and returns the place after that. The part at
/// `hint` is tried first.
fn add_share(
    parts: &mut [SeatPart],
    index: &Index,
    amount: Amount,
    share: &SeatShare,
    hint: usize,
    spares: &mut Spares,
) -> usize
    requires apart { AreApart (part_seats parts.old) }
    requires indexed { AreIndexed (part_seats parts.old) index.now }
    requires has_part { HasPart parts.old share.now }
    requires fits { FitsSigned w128 ((owed_in parts.old (Some share.now.seat)).amount
        +ℤ int_div (amount *ℤ pos share.now.share) (pos 1000000)) }
    requires spare { 0 < spares.old }
    ensures seats { part_seats parts.new ≡ part_seats parts.old }
    ensures part { (n : ℕ) (seat : List ℕ → Option ℕ) (party : List ℕ)
        → IsNumbered seat n → seat party ≡ Some share.now.seat
        → (q : List ℕ) → owed_in parts.new (seat q) ≡ (if bytes_eq party q
        then owed_with (int_div (amount *ℤ pos share.now.share) (pos 1000000)) (owed_in parts.old (seat q))
        else owed_in parts.old (seat q)) }
    ensures spares { spares.old ≤ spares.new + 1 }
{
    let Some(place) = index.find(parts, share.seat, hint) else {
        return hint;
    };
    parts[place].add(share_of(amount.units(), share.share), spares);
    place.wrapping_add(1)
}

impl Parts {
    /// No parts.
    pub(crate) fn new(alloc: Global) -> Parts
        ensures { result.items.items ≡ [] }
    {
        Parts {
            items: SmallVec::new(alloc),
            index: Index::new(),
        }
    }

    /// The parts, in the order in which they were added.
    pub(crate) fn as_slice(&self) -> &[SeatPart]
        ensures value { result.now ≡ self.now.items.items }
        ensures apart { AreApart (part_seats self.now.items.items) }
    {
        self.items.as_slice()
    }

    /// How many seats have a part.
    pub(crate) fn len(&self) -> usize
        ensures { result ≡ length self.now.items.items }
    {
        self.items.len()
    }

    /// Adds a part for a seat that has none. Nothing is owed of it yet.
    #[inline(never)]
    fn push(&mut self, alloc: Global, seeded: Seeded, seat: u32) -> Result<(), NoMemory>
        requires { part_in self.old.items.items seat ≡ None }
        ensures ok { OnOk result (PartsGrow self.old.items.items self.new.items.items) }
        ensures seats { OnOk result (part_seats self.new.items.items
            ≡ part_seats self.old.items.items ++ seat ∷ []) }
        ensures err { OnErr result (self.new.items.items ≡ self.old.items.items) }
    {
        self.items.reserve(1)?;
        self.index.add(alloc, seeded, self.items.as_slice(), seat)?;
        self.items.push(SeatPart::new(seat))?;
        Ok(())
    }

    /// The place of a seat's part. If it has none, one is added, of which nothing is owed yet. The
    /// part at `hint` is tried first.
    fn place(
        &mut self,
        alloc: Global,
        seeded: Seeded,
        seat: u32,
        hint: usize,
    ) -> Result<usize, NoMemory>
        ensures grows { PartsGrow self.old.items.items self.new.items.items }
        ensures below { (n : ℕ) → seat < n → AreBelow n (part_seats self.old.items.items)
            → AreBelow n (part_seats self.new.items.items) }
        ensures there { IfOk result (λ place. part_in self.new.items.items seat ≡ Some place) }
    {
        if let Some(place) = self.index.find(self.items.as_slice(), seat, hint) {
            return Ok(place);
        }
        let place = self.items.len();
        self.push(alloc, seeded, seat)?;
        Ok(place)
    }

    /// Adds the shares of an amount, each to the part of its seat.
    pub(crate) fn add(&mut self, amount: Amount, shares: &[SeatShare], spares: &mut Spares)
        requires wide { HaveParts shares.now self.old.items.items }
        requires fits { (n : ℕ) × (seat : List ℕ → Option ℕ) × (es : List (List ℕ × ℕ))
            × HaveSeats seat n shares.now es × (parts_size (map (part_of amount) es) ≤ amount_bound)
            × ((q : List ℕ) → unsigned_abs (owed_in self.old.items.items (seat q)).amount + amount_bound < 2 ^ 127) }
        requires spare { length shares.now ≤ spares.old }
        ensures seats { part_seats self.new.items.items ≡ part_seats self.old.items.items }
        ensures owed { (n : ℕ) (seat : List ℕ → Option ℕ) (es : List (List ℕ × ℕ))
            → HaveSeats seat n shares.now es → (q : List ℕ) → owed_in self.new.items.items (seat q)
            ≡ owed_plus (owed_in self.old.items.items (seat q)) (owed_for q (map (part_of amount) es)) }
        ensures spares { spares.old ≤ spares.new + length shares.now }
    {
        let parts = self.items.as_mut_slice();
        let index = &self.index;
        let mut next = 0;
        for share in shares {
            next = add_share(parts, index, amount, share, next, spares);
        }
    }
}

/// Gives the seat of each share a part. What is owed is unchanged.
pub(crate) fn widen(
    parts: &mut Parts,
    alloc: Global,
    seeded: Seeded,
    shares: &[SeatShare],
) -> Result<(), NoMemory>
    ensures grows { PartsGrow parts.old.items.items parts.new.items.items }
    ensures below { (n : ℕ) → AreSeatsBelow n shares.now
        → AreBelow n (part_seats parts.old.items.items) → AreBelow n (part_seats parts.new.items.items) }
    ensures wide { OnOk result (HaveParts shares.now parts.new.items.items) }
{
    if parts.items.is_empty() {
        parts.items.reserve_exact(rising_seats(shares))?;
    }
    let mut next = 0;
    for share in shares {
        let place = parts.place(alloc, seeded, share.seat, next)?;
        next = place.wrapping_add(1);
    }
    Ok(())
}
