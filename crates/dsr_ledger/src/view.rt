//! A view of a report, which is borrowed; its ledger lines borrow their texts. The lines come one after
//! another: recordings in the order of their ISRCs, in each its lines in the order of their keys, with their parties in the
//! order of their names (`sorted`). `copies` makes copies of the lines.
ghost use Rattle.std.specs.Prelude.{◌≡◌, ◌+◌, ◌<◌, ◌≤◌, ◌-ℤ◌, ◌^◌, IfOk, length, sum_by, unsigned_abs, vec_capacity};
ghost use Rattle.dsr_ledger.specs.meaning.Limits.{int_sum_by};
ghost use Rattle.dsr_ledger.specs.inner.Stands.{AreOfSmall};

pub(crate) mod copies;
mod sorted;

use crate::ledger::Ledger;
use crate::ledger::line::Line;
use crate::ledger::recording::Recording;
use crate::ledger::summary_key::SummaryKey;
use crate::report::Report;
use crate::view::sorted::{lines_by_key, parties_by_name, sorted_recordings};
use dsr_cells::{Isrc, NoMemory, Text};
use std::alloc::Global;
use std::marker::Model;
use std::vec::IntoIter;

/// A party's part of a ledger line's amount. Contracts see it as a `PartyLine`.
#[derive(Drop)]
pub struct PartyView<'a> {
    /// The name of the party, as the works spell it.
    pub party: &'a Text,
    /// What the party is owed, in units of 10^-10 of the line's currency.
    pub amount: i128,
}

impl<'a> Model for PartyView<'a> {
    ghost use Rattle.dsr_ledger.specs.declared.report.PartyLine.{PartyLine as PartyLineValue};

    ghost Value = { PartyLineValue };

    ghost view = { λ view. record { party = view.party.now; amount = view.amount } };
}

/// A line of the ledger, but for its parties. Contracts see it as a `LedgerLine` without parties.
#[derive(Drop)]
pub struct LineView<'a> {
    /// The recording (ISO 3901).
    pub isrc: &'a Isrc,
    /// Territory of the summaries that the usages name.
    pub territory: &'a Text,
    /// UseType of these summaries.
    pub use_type: &'a Text,
    /// Currency of these summaries (ISO 4217).
    pub currency: &'a Text,
    /// The sum of the booked usages, which may be below zero.
    pub usages: i128,
    /// The sum of their amounts, in units of 10^-10 of the currency.
    pub amount: i128,
    /// The amount minus the amounts of the parties, in units of 10^-10 of the currency.
    pub unclaimed: i128,
}

impl<'a> Model for LineView<'a> {
    ghost use Rattle.std.specs.Prelude.{[]};
    ghost use Rattle.dsr_ledger.specs.declared.report.LedgerLine.{LedgerLine as LedgerLineValue};

    ghost Value = { LedgerLineValue };

    ghost view = { λ view. record {
      isrc = view.isrc.now;
      territory = view.territory.now;
      use_type = view.use_type.now;
      currency = view.currency.now;
      usages = view.usages;
      amount = view.amount;
      parties = [];
      unclaimed = view.unclaimed;
    } };
}

/// The lines of a ledger, by the bytes of ISRC, territory, use type and currency. They are given one after another, and
/// giving them allocates nothing: there is room for as many lines as there are summary keys, and for all parties.
pub struct LedgerView<'a> {
    books: &'a Ledger,
    /// The recordings that come after the one at hand, in order.
    recordings: IntoIter<(&'a Isrc, &'a Recording)>,
    at_hand: Option<(&'a Isrc, &'a Recording)>,
    /// The lines of the recording at hand that have a booking, in the order of their summary keys.
    lines: Vec<(&'a SummaryKey, &'a Line)>,
    /// How many of them were given.
    given: usize,
    /// The parties of the line that was given last.
    parties: Vec<PartyView<'a>>,
    ghost lines_fit: { length books.now.summary_keys.keys ≤ vec_capacity lines },
    ghost parties_fit: { length books.now.parties.keys ≤ vec_capacity parties },
    ghost small: { ∥ AreOfSmall books.now ∥₁ },
}

/// Written out, so that dropping one is a call: a derived drop is proved anew wherever it happens.
impl Drop for LedgerView<'_> {
    fn drop(self) {
        let LedgerView {
            books: _,
            recordings: _,
            at_hand: _,
            lines: _,
            given: _,
            parties: _,
        } = self;
    }
}

/// A line of a recording with its summary key.
#[derive(Drop)]
struct FoundLine<'a> {
    isrc: &'a Isrc,
    recording: &'a Recording,
    key: &'a SummaryKey,
    line: &'a Line,
}

/// An amount minus the amounts of the parties.
fn unclaimed(amount: i128, parties: &[PartyView<'_>]) -> i128
    requires { unsigned_abs amount + sum_by (λ p. unsigned_abs p.amount) parties.now < 2 ^ 127 }
    ensures { result ≡ amount -ℤ int_sum_by (λ p. p.amount) parties.now }
{
    let mut left = amount;
    for line in parties {
        left -= line.amount;
    }
    left
}

impl<'a> LedgerView<'a> {
    ghost use Rattle.std.specs.Prelude.{◌++◌, ◌∷◌, [], IfNone, IfSome, List};
    ghost use Rattle.dsr_ledger.specs.declared.report.LedgerLine.{LedgerLine as LedgerLineValue};
    ghost use Rattle.dsr_ledger.specs.meaning.Bookings.{Booking, Key};
    ghost use Rattle.dsr_ledger.specs.meaning.Ledger.{ledger};
    ghost use Rattle.dsr_ledger.specs.inner.Stands.{LedgerStands};
    ghost use Rattle.dsr_ledger.specs.inner.View.{AreBefore, AreGiven, HaveGiven, IsBookedLine};
    ghost use Rattle.dsr_ledger.specs.inner.View.{IsReady, found_key, most_left, whole_line};

    /// The lines of this ledger.
    ///
    /// # Errors
    ///
    /// `NoMemory`: out of memory for giving them.
    pub(crate) fn of(alloc: Global, books: &'a Ledger) -> Result<LedgerView<'a>, NoMemory>
        requires { ∥ AreOfSmall books.now ∥₁ }
        ensures ready { IfOk result IsReady }
        ensures none_given { (bs : List Booking) → LedgerStands books.now bs
            → IfOk result (λ from. AreGiven from (ledger bs) []) }
    {
        Ok(LedgerView {
            books,
            recordings: sorted_recordings(alloc, &books.recordings)?.into_iter(),
            at_hand: None,
            lines: Vec::with_capacity(alloc, books.summary_keys.len())?,
            given: 0,
            parties: Vec::with_capacity(alloc, books.parties.len())?,
        })
    }

    /// The next line that has a booking. This allocates nothing.
    fn next_line(&mut self) -> Option<FoundLine<'a>>
        requires { IsReady self.old }
        ensures books { self.new.books ≡ self.old.books }
        ensures line { (keys : List Key) → HaveGiven self.old keys
            → IfSome result (λ found. HaveGiven self.new (keys ++ found_key found ∷ [])) }
        ensures booked { IfSome result (λ found. IsBookedLine self.old.books.now found.isrc.now
            found.recording.now found.key.now found.line.now) }
        ensures all { (keys : List Key) → HaveGiven self.old keys
            → IfNone result (HaveGiven self.new keys × AreBefore self.old.books.now [] keys) }
        ensures fewer { IfSome result (λ _. most_left self.new < most_left self.old) }
    {
        while self.given >= self.lines.len() {
            let (isrc, recording) = self.recordings.next()?;
            let keys = self.books.summary_keys.as_slice();
            lines_by_key(keys, recording.lines.as_slice(), &mut self.lines);
            self.at_hand = Some((isrc, recording));
            self.given = 0;
        }
        let (isrc, recording) = self.at_hand?;
        let (key, line) = self.lines[self.given];
        self.given += 1;
        Some(FoundLine {
            isrc,
            recording,
            key,
            line,
        })
    }

    /// The next line, without its parties, which `parties` has. This allocates nothing.
    pub fn next(&mut self) -> Option<LineView<'a>>
        requires { IsReady self.old }
        ensures ready { IsReady self.new }
        ensures line { (all given : List LedgerLineValue) → AreGiven self.old all given
            → IfSome result (λ line. AreGiven self.new all (given ++ whole_line self.new line ∷ [])) }
        ensures all { (all given : List LedgerLineValue) → AreGiven self.old all given
            → IfNone result (given ≡ all) }
        ensures fewer { IfSome result (λ _. most_left self.new < most_left self.old) }
    {
        let found = self.next_line()?;
        let names = self.books.parties.as_slice();
        let numbers = found.recording.seats.as_slice();
        parties_by_name(
            names,
            numbers,
            found.line.parts.as_slice(),
            &mut self.parties,
        );
        let amount = found.line.sums.amount();
        Some(LineView {
            isrc: found.isrc,
            territory: &found.key.territory,
            use_type: &found.key.use_type,
            currency: &found.key.currency,
            usages: found.line.sums.usages(),
            amount,
            unclaimed: unclaimed(amount, self.parties.as_slice()),
        })
    }

    /// The parties of the line that was given last, by the bytes of their names.
    pub fn parties(&self) -> &[PartyView<'_>]
        ensures { result.now ≡ self.now.parties.items }
    {
        self.parties.as_slice()
    }
}

/// A report that is borrowed.
#[derive(Drop)]
pub struct ReportView<'a> {
    /// The report, without its ledger's lines if these borrow their texts.
    pub report: &'a Report,
    /// The ledger's lines that borrow their texts; None if the report has them itself.
    pub ledger: Option<LedgerView<'a>>,
}
