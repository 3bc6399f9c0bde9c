//! The numbers of an account.
ghost use Rattle.std.specs.Prelude.{◌≡◌, ◌+ℤ◌, true, false, MatchOption};
ghost use Rattle.dsr_sums.specs.meaning.Postings.{signed, is_in_range};

use crate::reports::Role;

/// The sums of an account, or the numbers of a line that are added to them. Those that an account has not are 0.
#[derive(Clone, Copy, PartialEq, Eq)]
pub struct Sums {
    /// The usages.
    pub usages: i128,
    /// The amount, in units of 10^-10 of the currency.
    pub amount: i128,
    /// The amount that parties claim.
    pub claimed: i128,
    /// The amount that no party claims.
    pub unclaimed: i128,
}

/// A sum with a number more, or less if it was paid; None if that leaves the range of 128 bits.
fn added(sum: i128, number: i128, role: Role) -> Option<i128>
    ensures { let total = sum +ℤ signed role number in MatchOption result
        (is_in_range total ≡ false) (λ n. (is_in_range total ≡ true) × (n ≡ total)) }
{
    match role {
        Role::Given => sum.checked_add(number),
        Role::Paid => sum.checked_sub(number),
    }
}

impl Sums {
    ghost use Rattle.dsr_sums.specs.meaning.Postings.{are_in_range, signed_sums};
    ghost use Rattle.dsr_sums.specs.inner.Plus.{plus, zero_sums};

    /// The sums of nothing.
    pub(crate) fn zero() -> Sums
        ensures { result ≡ zero_sums }
    {
        Sums {
            usages: 0,
            amount: 0,
            claimed: 0,
            unclaimed: 0,
        }
    }

    /// The sums with these numbers more, or less if they were paid; None if one leaves the range of 128 bits.
    pub(crate) fn plus(&self, numbers: &Sums, role: Role) -> Option<Sums>
        ensures { let total = plus self.now (signed_sums role numbers.now) in MatchOption result
            (are_in_range total ≡ false) (λ s. (are_in_range total ≡ true) × (s ≡ total)) }
    {
        Some(Sums {
            usages: added(self.usages, numbers.usages, role)?,
            amount: added(self.amount, numbers.amount, role)?,
            claimed: added(self.claimed, numbers.claimed, role)?,
            unclaimed: added(self.unclaimed, numbers.unclaimed, role)?,
        })
    }
}
