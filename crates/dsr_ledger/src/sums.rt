//! Sums over usages, and the numbers of 128 bits in which they are kept.
ghost use Rattle.std.specs.Prelude.{◌≡◌, ◌+ℤ◌, pos};
ghost use Rattle.dsr_ledger.specs.inner.Summaries.{IsInRange, SumsFit};

use dsr_events::Usage;
use std::marker::Model;

/// A number of 128 bits that is aligned like one of 64 bits, so that a struct with one takes less memory. Contracts see
/// it as the number.
#[derive(Default, Drop)]
pub(crate) struct PackedI128 {
    high: i64,
    low: u64,
}

impl Model for PackedI128 {
    ghost use Rattle.std.specs.Prelude.{ℤ, ◌+ℤ◌, ◌*ℤ◌, ◌^◌, pos};

    ghost Value = { ℤ };

    ghost view = { λ wide. wide.high *ℤ pos (2 ^ 64) +ℤ pos wide.low };
}

impl PackedI128 {
    /// This number.
    #[inline(always)]
    pub(crate) fn of(number: i128) -> PackedI128
        ensures { result ≡ number }
    {
        PackedI128 {
            high: number.div_euclid(1 << 64) as i64,
            low: number.rem_euclid(1 << 64) as u64,
        }
    }

    /// The number.
    #[inline(always)]
    pub(crate) fn get(&self) -> i128
        ensures { result ≡ self.now }
    {
        (i128::from(self.high) << 64) + i128::from(self.low)
    }
}

/// The sums of the usages and of the amounts, in units.
#[derive(Drop)]
pub(crate) struct Sums {
    pub(crate) usages: PackedI128,
    pub(crate) amount: PackedI128,
}

impl Sums {
    /// The sums of no usages.
    pub(crate) fn new() -> Sums
        ensures { result ≡ record { usages = pos 0; amount = pos 0 } }
    {
        Sums {
            usages: PackedI128::of(0),
            amount: PackedI128::of(0),
        }
    }

    /// The same sums.
    pub(crate) fn copy(&self) -> Sums
        ensures { result ≡ self.now }
    {
        Sums {
            usages: PackedI128::of(self.usages.get()),
            amount: PackedI128::of(self.amount.get()),
        }
    }

    /// Adds a usage.
    pub(crate) fn add(&mut self, usage: &Usage)
        requires { SumsFit 1 self.old }
        ensures usages { self.new.usages ≡ self.old.usages +ℤ usage.now.usages }
        ensures amount { self.new.amount ≡ self.old.amount +ℤ usage.now.amount }
        ensures range { IsInRange usage.now }
    {
        self.usages = PackedI128::of(self.usages.get() + i128::from(usage.usages));
        self.amount = PackedI128::of(self.amount.get() + usage.amount.units());
    }
}

/// Shows that every usage is in range, by its types.
pub(crate) fn check_range(usage: &Usage)
    ensures { IsInRange usage.now }
{
    let _usages = usage.usages;
    let _units = usage.amount.units();
}
