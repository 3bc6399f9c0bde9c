//! The law of totals: a function that does nothing, whose contract is the law.
ghost use Rattle.std.specs.Prelude.{◌≡◌, [], List, Ok};
ghost use Rattle.dsr_sums.specs.declared.account.Account.{Account};
ghost use Rattle.dsr_sums.specs.declared.rules.Rules.{Rules};
ghost use Rattle.dsr_sums.specs.meaning.Answers.{StatementText, statements_after};
ghost use Rattle.dsr_sums.specs.layer.Laws.{AddUp, currency_sums};
ghost use Rattle.dsr_sums.specs.meaning.Statements.{Statement};

/// In each currency, what parties claim and what nobody claims add up to the amount, over all statements that are read, those
/// that were paid subtracted.
#[tactic(auto, using(crate::proofs::LawLemmas::add_up))]
pub fn claimed_and_unclaimed_add_up()
    ensures { (rules : Rules) (texts : List StatementText) (statements : List Statement)
        → statements_after rules (Ok []) texts ≡ Ok statements
        → (currency : Account) → AddUp (currency_sums statements currency) }
{}
