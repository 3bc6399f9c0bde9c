//! The totals of statements.
ghost use Rattle.std.specs.Prelude.{◌≡◌, [], true, false, List, All, IfOk, MatchResult};
ghost use Rattle.dsr_sums.specs.meaning.Answers.{totals_of};
ghost use Rattle.dsr_sums.specs.meaning.Statements.{Statement, booked_lines, totals_text};
ghost use Rattle.dsr_sums.specs.meaning.Totals.{are_in_range};
ghost use Rattle.dsr_sums.specs.inner.Totaling.{HoldsStatements, IsNoTextOf, sorted_text, error_of, ReadsNext};
ghost use Rattle.dsr_sums.specs.meaning.Sources.{role_of, HasTotals, HasNoTotals};

use crate::reading::{ReadingError, read_statement};
use crate::reports::{Role, StatementReport, push_report, refusal_after};
use crate::rules::Rules;
use crate::seeded::Seeded;
use crate::text::{SumsLine, put_book, put_statements};
use crate::totals::Totals;
use dsr_cells::NoMemory;
use dsr_io::Source;
use dsr_statement::StatementFault;
use std::alloc::Global;

/// Why there are no totals.
#[derive(Debug, Clone, Copy, PartialEq, Eq)]
pub enum TotalsError {
    /// A statement is refused: its place among all, from 0, the number of the line, from 1, and the fault.
    Refused(usize, u64, StatementFault),
    /// A sum leaves the range of 128 bits.
    OutOfRange,
    /// Memory was refused.
    Memory,
}

/// Statements that were read, and what they add up to.
#[derive(Drop)]
pub(crate) struct Totaling {
    alloc: Global,
    rules: Rules,
    pub(crate) totals: Totals,
    pub(crate) reports: Vec<StatementReport>,
}

impl Totaling {
    /// No statement was read yet.
    fn new(alloc: Global, seed: u64, rules: Rules) -> Totaling
        ensures holds { HoldsStatements result [] }
        ensures rules { result.rules ≡ rules }
    {
        Totaling {
            alloc,
            rules,
            totals: Totals::new(alloc, Seeded::with_seed(seed)),
            reports: Vec::new(alloc),
        }
    }

    /// Reads a statement, and adds it.
    fn read<R: Source>(&mut self, source: &mut R, role: Role) -> Result<(), ReadingError>
        requires { (R.told source.old).failed ≡ false }
        ensures rules { self.new.rules ≡ self.old.rules }
        ensures next { (ss : List Statement) → HoldsStatements self.old ss
            → ReadsNext self.old.rules (R.told source.old) (R.told source.new) role ss
            self.new result }
    {
        let unsealed = self.rules.unsealed;
        let report = read_statement(self.alloc, source, role, unsealed, &mut self.totals)?;
        match refusal_after(self.rules, &self.reports, &report) {
            Some((line, fault)) => Err(ReadingError::Refused(line, fault)),
            None => match push_report(&mut self.reports, report) {
                Ok(()) => Ok(()),
                Err(NoMemory) => Err(ReadingError::Memory),
            },
        }
    }

    /// The text of the totals, whose sums are in range.
    fn sorted_text(&mut self) -> Result<Vec<u8>, NoMemory>
        ensures { (ss : List Statement) → HoldsStatements self.old ss
            → are_in_range (booked_lines ss) ≡ true → IfOk result (λ v. v.items ≡ totals_text ss) }
    {
        self.totals.sort()?;
        let text = put_totals(self.alloc, &self.totals, &self.reports)?;
        Ok(text)
    }

    /// The text of the totals, if their sums are in range.
    fn text(mut self) -> Result<Vec<u8>, TotalsError>
        ensures { (ss : List Statement) → HoldsStatements self ss → MatchResult result
            (λ text. totals_of (Ok ss) ≡ Ok text.items) (IsNoTextOf ss) }
    {
        if !self.totals.are_in_range() {
            return Err(TotalsError::OutOfRange);
        }
        match self.sorted_text() {
            Ok(text) => Ok(text),
            Err(NoMemory) => Err(TotalsError::Memory),
        }
    }
}

/// The text of totals whose accounts are sorted.
fn put_totals(
    alloc: Global,
    totals: &Totals,
    reports: &[StatementReport],
) -> Result<Vec<u8>, NoMemory>
    ensures { IfOk result (λ v. v.items ≡ sorted_text totals.now reports.now) }
{
    let mut out = Vec::new(alloc);
    put_statements(&mut out, reports)?;
    put_book(&mut out, SumsLine::Currency, &totals.currencies)?;
    put_book(&mut out, SumsLine::Market, &totals.markets)?;
    put_book(&mut out, SumsLine::Party, &totals.parties)?;
    Ok(out)
}

/// What the source at this place is, of which the first ones are given.
fn role_at(given: usize, place: usize) -> Role
    ensures { result ≡ role_of given place }
{
    if place < given {
        Role::Given
    } else {
        Role::Paid
    }
}

/// The error of the statement at this place.
fn error_at(place: usize, error: ReadingError) -> TotalsError
    ensures { result ≡ error_of place error }
{
    match error {
        ReadingError::Refused(line, fault) => TotalsError::Refused(place, line, fault),
        ReadingError::Memory => TotalsError::Memory,
    }
}

/// Reads statements, the given ones first and then those that were paid, and returns the text of their totals. `seed` is
/// that of hashes, on which nothing depends; `rules` say which statements are taken.
///
/// # Errors
///
/// `Refused`: the first statement that is refused. `OutOfRange`: a sum leaves the range of 128 bits. `Memory`: out of memory.
pub fn add_up<R: Source>(
    alloc: Global,
    seed: u64,
    sources: &mut [R],
    given: usize,
    rules: Rules,
) -> Result<Vec<u8>, TotalsError>
    requires { All (λ r. (R.told r).failed ≡ false) sources.old }
    ensures { MatchResult result
        (λ text. HasTotals R.told given rules sources.old sources.new text.items)
        (HasNoTotals R.told given rules sources.old sources.new) }
{
    let mut totaling = Totaling::new(alloc, seed, rules);
    for place in 0..sources.len() {
        match totaling.read(&mut sources[place], role_at(given, place)) {
            Ok(()) => {}
            Err(error) => return Err(error_at(place, error)),
        }
    }
    totaling.text()
}
