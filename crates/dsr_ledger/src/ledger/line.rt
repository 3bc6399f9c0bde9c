//! A line of a recording: the sums of the bookings of one summary key, and the parties' parts.
ghost use Rattle.std.specs.Prelude.{◌≡◌, ℕ, List, Option, []};
ghost use Rattle.dsr_ledger.specs.inner.Tallies.{no_tally, line_tally};

use crate::index::Numbered;
use crate::ledger::parts::Parts;
use crate::ledger::totals::LineSums;
use std::alloc::Global;
use std::mem::size_of;

/// A line: the sums of its bookings, and the parties' parts of them. It takes 88 bytes.
#[derive(Drop)]
pub(crate) struct Line {
    pub(crate) sums: LineSums,
    pub(crate) parts: Parts,
}

const _: () = prove!(size_of::<Line>() == 88);

impl Numbered for Line {
    ghost number_of = { λ line. line.sums.key };

    fn number(&self) -> u32 {
        self.sums.key()
    }
}

impl Line {
    /// A line with no usages.
    pub(crate) fn new(alloc: Global, key: u32) -> Line
        ensures key { result.sums.key ≡ key }
        ensures parts { result.parts.items.items ≡ [] }
        ensures tally { (seat : List ℕ → Option ℕ) → line_tally seat result ≡ no_tally }
    {
        Line {
            sums: LineSums::new(key),
            parts: Parts::new(alloc),
        }
    }
}
