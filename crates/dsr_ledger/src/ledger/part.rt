//! What a line owes one party.
ghost use Rattle.std.specs.Prelude.{◌≡◌, ◌+◌, ◌≤◌, ◌<◌, ◌+ℤ◌, true, IfSome};
ghost use Rattle.std.specs.Int.{w128};
ghost use Rattle.std.specs.Int.RustNames.{FitsSigned};
ghost use Rattle.dsr_ledger.specs.inner.Forms.{part_held};
ghost use Rattle.dsr_ledger.specs.inner.Seated.{nothing_owed, owed_with, owed_kept};

use crate::index::Numbered;
use crate::ledger::spares::{Spares, narrow_sum};
use std::marker::Model;
use std::mem::size_of;

/// A party's seat, whether it has a part, and the sum of its parts: of 64 bits in place, or of 128 on the heap, where it
/// has one. The seat stands in each form, since the mark of the form then takes no further memory.
#[derive(Drop)]
pub(crate) enum PartForm {
    Narrow {
        has_part: bool,
        seat: u32,
        amount: i64,
    },
    Wide {
        seat: u32,
        amount: Box<i128>,
    },
}

/// What a line owes the party at a seat: whether the party has a part, and the sum of its parts. It takes 16 bytes.
#[derive(Drop)]
pub(crate) struct SeatPart {
    form: PartForm,
}

impl Model for SeatPart {
    ghost use Rattle.dsr_ledger.specs.inner.Held.{HeldPart};

    ghost Value = { HeldPart };

    ghost use Rattle.dsr_ledger.specs.inner.Forms.{part_held};

    ghost view = { λ p. part_held p.form };
}

const _: () = prove!(size_of::<SeatPart>() == 16);

impl Default for SeatPart {
    fn default() -> SeatPart {
        SeatPart::new(0)
    }
}

impl Numbered for SeatPart {
    ghost number_of = { λ part. part.seat };

    fn number(&self) -> u32 {
        self.seat()
    }
}

impl SeatPart {
    /// No part so far.
    pub(crate) fn new(seat: u32) -> SeatPart
        ensures seat { result.seat ≡ seat }
        ensures owed { owed_kept result ≡ nothing_owed }
    {
        SeatPart {
            form: PartForm::Narrow {
                has_part: false,
                seat,
                amount: 0,
            },
        }
    }

    /// The seat.
    #[inline(always)]
    pub(crate) fn seat(&self) -> u32
        ensures { result ≡ self.now.seat }
    {
        match &self.form {
            PartForm::Narrow { seat, .. } => *seat,
            PartForm::Wide { seat, .. } => *seat,
        }
    }

    /// Whether the party has a part.
    #[inline(always)]
    pub(crate) fn has_part(&self) -> bool
        ensures { result ≡ self.now.has_part }
    {
        match &self.form {
            PartForm::Narrow { has_part, .. } => *has_part,
            PartForm::Wide { .. } => true,
        }
    }

    /// The sum of the parts.
    #[inline(always)]
    pub(crate) fn amount(&self) -> i128
        ensures { result ≡ self.now.amount }
    {
        match &self.form {
            PartForm::Narrow { amount, .. } => i128::from(*amount),
            PartForm::Wide { amount, .. } => **amount,
        }
    }

    /// What is held with one more part, if the sum has 64 bits and keeps to them.
    #[inline(always)]
    fn narrow_with(&self, amount: i128) -> Option<PartForm>
        requires { FitsSigned w128 (self.now.amount +ℤ amount) }
        ensures { IfSome result (λ form. part_held form ≡ record { seat = self.now.seat; has_part = true; amount = self.now.amount +ℤ amount }) }
    {
        match &self.form {
            PartForm::Narrow {
                seat,
                amount: sum,
                ..
            } => Some(PartForm::Narrow {
                has_part: true,
                seat: *seat,
                amount: narrow_sum(*sum, amount)?,
            }),
            PartForm::Wide { .. } => None,
        }
    }

    /// Adds a part to a sum of 128 bits.
    #[cold]
    #[inline(never)]
    fn add_wide(&mut self, amount: i128, spares: &mut Spares)
        requires fits { FitsSigned w128 (self.old.amount +ℤ amount) }
        requires spare { 0 < spares.old }
        ensures seat { self.new.seat ≡ self.old.seat }
        ensures owed { owed_kept self.new ≡ owed_with amount (owed_kept self.old) }
        ensures spares { spares.old ≡ spares.new + 1 }
    {
        let seat = self.seat();
        let sum = self.amount() + amount;
        self.form = PartForm::Wide {
            seat,
            amount: spares.take(sum),
        };
    }

    /// Adds a part. This allocates nothing.
    pub(crate) fn add(&mut self, amount: i128, spares: &mut Spares)
        requires fits { FitsSigned w128 (self.old.amount +ℤ amount) }
        requires spare { 0 < spares.old }
        ensures seat { self.new.seat ≡ self.old.seat }
        ensures owed { owed_kept self.new ≡ owed_with amount (owed_kept self.old) }
        ensures spares { spares.old ≤ spares.new + 1 }
    {
        match self.narrow_with(amount) {
            Some(form) => self.form = form,
            None => self.add_wide(amount, spares),
        }
    }
}
