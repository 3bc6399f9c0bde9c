//! What a line has booked: the sums of its usages and of their amounts.
ghost use Rattle.std.specs.Prelude.{◌≡◌, ◌+◌, ◌≤◌, IfSome};
ghost use Rattle.dsr_ledger.specs.inner.Summaries.{IsInRange, SumsFit};
ghost use Rattle.dsr_ledger.specs.inner.Forms.{line_held};
ghost use Rattle.dsr_ledger.specs.inner.Held.{nothing_booked, booked_with, sums_held};

use crate::ledger::spares::{Spares, narrow_sum};
use crate::sums::check_range;
use dsr_events::Usage;
use std::marker::Model;
use std::mem::size_of;

/// The number of a line's summary key, whether the line has a booked usage, and the sums: of 64 bits in place, or of 128
/// on the heap, where it has one. The number stands in each form, since the mark of the form then takes no further memory.
#[derive(Drop)]
pub(crate) enum LineForm {
    Narrow {
        is_booked: bool,
        key: u32,
        usages: i64,
        amount: i64,
    },
    Wide {
        key: u32,
        usages: Box<i128>,
        amount: Box<i128>,
    },
}

/// The number of a line's summary key, whether the line has a booked usage, and the sums of the usages and of their
/// amounts, in units. It takes 24 bytes.
#[derive(Drop)]
pub(crate) struct LineSums {
    form: LineForm,
}

impl Model for LineSums {
    ghost use Rattle.dsr_ledger.specs.inner.Forms.{line_held};
    ghost use Rattle.dsr_ledger.specs.inner.Held.{HeldLine};

    ghost Value = { HeldLine };

    ghost use Rattle.dsr_ledger.specs.inner.Forms.{line_held};

    ghost view = { λ s. line_held s.form };
}

const _: () = prove!(size_of::<LineSums>() == 24);

impl LineSums {
    /// The sums of no usages.
    pub(crate) fn new(key: u32) -> LineSums
        ensures { result ≡ nothing_booked key }
    {
        LineSums {
            form: LineForm::Narrow {
                is_booked: false,
                key,
                usages: 0,
                amount: 0,
            },
        }
    }

    /// The number of the summary key.
    #[inline(always)]
    pub(crate) fn key(&self) -> u32
        ensures { result ≡ self.now.key }
    {
        match &self.form {
            LineForm::Narrow { key, .. } => *key,
            LineForm::Wide { key, .. } => *key,
        }
    }

    /// Whether there is a booked usage.
    #[inline(always)]
    pub(crate) fn is_booked(&self) -> bool
        ensures { result ≡ self.now.is_booked }
    {
        match &self.form {
            LineForm::Narrow { is_booked, .. } => *is_booked,
            LineForm::Wide { .. } => true,
        }
    }

    /// The sum of the usages.
    #[inline(always)]
    pub(crate) fn usages(&self) -> i128
        ensures { result ≡ self.now.usages }
    {
        match &self.form {
            LineForm::Narrow { usages, .. } => i128::from(*usages),
            LineForm::Wide { usages, .. } => **usages,
        }
    }

    /// The sum of the amounts.
    #[inline(always)]
    pub(crate) fn amount(&self) -> i128
        ensures { result ≡ self.now.amount }
    {
        match &self.form {
            LineForm::Narrow { amount, .. } => i128::from(*amount),
            LineForm::Wide { amount, .. } => **amount,
        }
    }

    /// What is held with one more usage, if the sums have 64 bits and keep to them.
    #[inline(always)]
    fn narrow_with(&self, usage: &Usage) -> Option<LineForm>
        requires { SumsFit 1 (sums_held self.now) }
        ensures { IfSome result (λ form. line_held form ≡ booked_with usage.now self.now) }
    {
        match &self.form {
            LineForm::Narrow {
                key,
                usages,
                amount,
                ..
            } => Some(LineForm::Narrow {
                is_booked: true,
                key: *key,
                usages: narrow_sum(*usages, i128::from(usage.usages))?,
                amount: narrow_sum(*amount, usage.amount.units())?,
            }),
            LineForm::Wide { .. } => None,
        }
    }

    /// Adds a usage to sums of 128 bits.
    #[cold]
    #[inline(never)]
    fn add_wide(&mut self, usage: &Usage, spares: &mut Spares)
        requires fits { SumsFit 1 (sums_held self.old) }
        requires spare { 2 ≤ spares.old }
        ensures sums { self.new ≡ booked_with usage.now self.old }
        ensures spares { spares.old ≡ spares.new + 2 }
    {
        let key = self.key();
        let usages = self.usages() + i128::from(usage.usages);
        let amount = self.amount() + usage.amount.units();
        self.form = LineForm::Wide {
            key,
            usages: spares.take(usages),
            amount: spares.take(amount),
        };
    }

    /// Adds a usage. This allocates nothing.
    pub(crate) fn add(&mut self, usage: &Usage, spares: &mut Spares)
        requires fits { SumsFit 1 (sums_held self.old) }
        requires spare { 2 ≤ spares.old }
        ensures range { IsInRange usage.now }
        ensures sums { self.new ≡ booked_with usage.now self.old }
        ensures spares { spares.old ≤ spares.new + 2 }
    {
        check_range(usage);
        match self.narrow_with(usage) {
            Some(form) => self.form = form,
            None => self.add_wide(usage, spares),
        }
    }
}
