//! The seats of a recording's parties.
ghost use Rattle.std.specs.Prelude.{◌≡◌, IfOk, OnOk, OnErr, Some, length};
ghost use Rattle.std.proofs.Props.{props};
ghost use Rattle.dsr_ledger.specs.inner.Numbered.{AreIndexed, place_in, AreApart};

use crate::index::{Index, Seeded};
use dsr_cells::NoMemory;
use smallvec::SmallVec;
use std::alloc::Global;

/// This many seats are stored in the recording itself, more on the heap.
const FEW_SEATS: usize = 2;

/// The numbers of a recording's parties, each once, at its seat, in the order of their first use.
#[derive(Drop)]
pub(crate) struct Seats {
    numbers: SmallVec<u32, FEW_SEATS>,
    /// By the numbers of the parties.
    index: Index,
    ghost apart: { AreApart numbers.items },
    ghost indexed: { AreIndexed numbers.items index } by { Prim.hlevel props },
}

impl Seats {
    ghost use Rattle.std.specs.Prelude.{[], ◌∷◌, ◌++◌, None};
    ghost use Rattle.dsr_ledger.specs.inner.Numbered.{IsWithNumber};
    ghost use Rattle.dsr_ledger.specs.inner.Seated.{seat_numbers};

    /// No parties.
    pub(crate) fn new(alloc: Global) -> Seats
        ensures { seat_numbers result ≡ [] }
    {
        Seats {
            numbers: SmallVec::new(alloc),
            index: Index::new(),
        }
    }

    /// The numbers of the parties, each at its seat.
    pub(crate) fn as_slice(&self) -> &[u32]
        ensures value { result.now ≡ seat_numbers self.now }
        ensures apart { AreApart (seat_numbers self.now) }
    {
        self.numbers.as_slice()
    }

    /// How many seats there are.
    pub(crate) fn len(&self) -> usize
        ensures { result ≡ length (seat_numbers self.now) }
    {
        self.numbers.len()
    }

    /// The seat of a party, if it has one.
    fn find(&self, party: u32) -> Option<usize>
        ensures { result ≡ place_in (seat_numbers self.now) party }
    {
        self.index.search(self.numbers.as_slice(), party)
    }

    /// Gives the next seat to a party that has none.
    fn add(&mut self, alloc: Global, seeded: Seeded, party: u32) -> Result<(), NoMemory>
        requires { place_in (seat_numbers self.old) party ≡ None }
        ensures ok { OnOk result (seat_numbers self.new ≡ seat_numbers self.old ++ party ∷ []) }
        ensures err { OnErr result (seat_numbers self.new ≡ seat_numbers self.old) }
    {
        self.numbers.reserve(1)?;
        self.index
            .add(alloc, seeded, self.numbers.as_slice(), party)?;
        self.numbers.push(party)?;
        Ok(())
    }

    /// The seat of a party, which is given one if it has none.
    pub(crate) fn seat(
        &mut self,
        alloc: Global,
        seeded: Seeded,
        party: u32,
    ) -> Result<usize, NoMemory>
        ensures more { IsWithNumber (seat_numbers self.old) (seat_numbers self.new) party }
        ensures there { IfOk result (λ seat. place_in (seat_numbers self.new) party ≡ Some seat) }
    {
        if let Some(seat) = self.find(party) {
            return Ok(seat);
        }
        let seat = self.numbers.len();
        self.add(alloc, seeded, party)?;
        Ok(seat)
    }
}
