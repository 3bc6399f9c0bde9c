//! Laws of the shares of a report: functions that do nothing, whose contracts are the laws.
ghost use Rattle.std.specs.Prelude.{List};
ghost use Rattle.dsr_ledger.specs.meaning.Files.{File};
ghost use Rattle.dsr_ledger.specs.layer.Laws.{SharesAddUp, SharesAreNear, SharesAreWithin};

/// The amounts of a ledger line's parties and the unclaimed amount add up exactly to its amount.
#[tactic(auto, using(crate::proofs::LawLemmas::add_up))]
pub fn shares_add_up()
    ensures { (files : List File) → SharesAddUp files }
{}

/// A party's amount differs from the exact sum of its shares by less than one unit for each of its
/// parts.
#[tactic(auto, using(crate::proofs::LawLemmas::are_near))]
pub fn shares_are_near()
    ensures { (files : List File) → SharesAreNear files }
{}

/// If no booked usage of a ledger line has a negative amount, the unclaimed amount is not negative, and each party's
/// amount is at most the exact sum of its shares, and below it by less than one unit for each of its parts.
pub fn shares_are_within()
    ensures { (files : List File) → SharesAreWithin files }
{}
