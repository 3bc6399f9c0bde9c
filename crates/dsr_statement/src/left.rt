//! What the parties of a ledger line leave of its amount.
ghost use Rattle.std.specs.Prelude.{◌≡◌, ◌-ℤ◌, ◌+ℤ◌, ◌*ℤ◌, ◌^◌, pos, OnOk};
ghost use Rattle.std.specs.Ordering.{int_eq};

use dsr_cells::NoMemory;
use std::marker::Model;

/// What the parties leave, which 16 of them can bring out of the range of 128 bits. Contracts see it as the number.
#[derive(Drop)]
pub(crate) struct Left {
    /// How many times 2^128 is to be added to the rest.
    wraps: i64,
    rest: i128,
}

impl Model for Left {
    ghost use Rattle.std.specs.Prelude.{ℤ, ◌+ℤ◌, ◌*ℤ◌, ◌^◌, pos};

    ghost Value = { ℤ };

    ghost view = { λ left. left.rest +ℤ left.wraps *ℤ pos (2 ^ 128) };
}

/// A number less an amount, and how many times 2^128 is to be added to that.
fn difference(number: i128, amount: i128) -> (i128, i64)
    ensures { result.0 +ℤ result.1 *ℤ pos (2 ^ 128) ≡ number -ℤ amount }
{
    match number.checked_sub(amount) {
        Some(rest) => (rest, 0),
        None if amount < 0 => ((number + i128::MIN) - (amount - i128::MIN), 1),
        None => ((number - i128::MIN) - (amount + i128::MIN), -1),
    }
}

impl Left {
    /// This amount.
    pub(crate) fn of(amount: i128) -> Left
        ensures { result ≡ amount }
    {
        Left {
            wraps: 0,
            rest: amount,
        }
    }

    /// Whether it is this amount.
    pub(crate) fn is(&self, amount: i128) -> bool
        ensures { result ≡ int_eq amount self.now }
    {
        self.rest == amount && self.wraps == 0
    }

    /// Takes an amount away. Memory is refused where `wraps` is at its end, which takes 2^63 lines.
    pub(crate) fn subtract(&mut self, amount: i128) -> Result<(), NoMemory>
        ensures { OnOk result (self.new ≡ self.old -ℤ amount) }
    {
        let (rest, more) = difference(self.rest, amount);
        match self.wraps.checked_add(more) {
            Some(wraps) => {
                *self = Left { wraps, rest };
                Ok(())
            }
            None => Err(NoMemory),
        }
    }
}
