//! Memory for sums that leave 64 bits, taken before anything is added.
ghost use Rattle.std.specs.Prelude.{◌≡◌, ◌+◌, ◌≤◌, ◌<◌, ◌+ℤ◌, OnOk, IfSome};
ghost use Rattle.std.specs.Int.{w128};
ghost use Rattle.std.specs.Int.RustNames.{FitsSigned};

use dsr_cells::NoMemory;
use std::alloc::Global;
use std::marker::Model;

/// Memory for numbers of 128 bits. Contracts see it as how many there are.
#[derive(Drop)]
pub(crate) struct Spares {
    boxes: Vec<Box<i128>>,
}

impl Model for Spares {
    ghost use Rattle.std.specs.Prelude.{ℕ, length};

    ghost Value = { ℕ };

    ghost view = { λ s. length s.boxes.items };
}

impl Spares {
    /// No memory.
    pub(crate) fn new(alloc: Global) -> Spares
        ensures { result ≡ 0 }
    {
        Spares {
            boxes: Vec::new(alloc),
        }
    }

    /// Takes memory until there is enough for `count` numbers.
    #[cold]
    #[inline(never)]
    fn fill(&mut self, alloc: Global, count: usize) -> Result<(), NoMemory>
        ensures { OnOk result (count ≤ self.new) }
    {
        while self.boxes.len() < count {
            self.boxes.push(Box::new(alloc, 0)?)?;
        }
        Ok(())
    }

    /// Sees to it that there is memory for `count` numbers.
    pub(crate) fn reserve(&mut self, alloc: Global, count: usize) -> Result<(), NoMemory>
        ensures { OnOk result (count ≤ self.new) }
    {
        if self.boxes.len() >= count {
            return Ok(());
        }
        self.fill(alloc, count)
    }

    /// The number in memory of its own.
    pub(crate) fn take(&mut self, number: i128) -> Box<i128>
        requires { 0 < self.old }
        ensures number { result.value ≡ number }
        ensures fewer { self.old ≡ self.new + 1 }
    {
        let mut spare = self.boxes.pop().unwrap();
        *spare = number;
        spare
    }
}

/// The sum of the two numbers, if it is found to have 64 bits.
#[inline(always)]
pub(crate) fn narrow_sum(sum: i64, number: i128) -> Option<i64>
    requires { FitsSigned w128 (sum +ℤ number) }
    ensures { IfSome result (λ same. same ≡ sum +ℤ number) }
{
    i64::try_from(i128::from(sum) + number).ok()
}
