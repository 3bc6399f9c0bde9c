//! The books of totals, and the lines that are added to them.
ghost use Rattle.std.specs.Prelude.{◌≡◌, ◌&&◌, [], true, List, OnOk};

use crate::account::{Account, AccountRef};
use crate::book::Book;
use crate::reports::Role;
use crate::seeded::Seeded;
use crate::sums::Sums;
use dsr_cells::NoMemory;
use dsr_statement::{KeyRef, Line, PartyRef};
use std::alloc::Global;

/// What the lines of statements add up to: by currency, by market, and by party.
#[derive(Drop)]
pub(crate) struct Totals {
    alloc: Global,
    pub(crate) currencies: Book,
    pub(crate) markets: Book,
    pub(crate) parties: Book,
    /// The party's account that is posted to, so that a long name is written over in its memory.
    party: Account,
}

/// Whether both hold.
fn both(one: bool, other: bool) -> bool
    ensures { result ≡ (one && other) }
{
    one && other
}

impl Totals {
    ghost use Rattle.dsr_sums.specs.meaning.Totals.{Booked, booked, are_in_range};
    ghost use Rattle.dsr_sums.specs.inner.Books.{HoldsLines, AddsLine, AreSorted};
    ghost use Rattle.dsr_statement.specs.declared.line.Line.TheVariants as lines;

    /// The totals of nothing.
    pub(crate) fn new(alloc: Global, seeded: Seeded) -> Totals
        ensures { HoldsLines result [] }
    {
        Totals {
            alloc,
            currencies: Book::new(alloc, seeded),
            markets: Book::new(alloc, seeded),
            parties: Book::new(alloc, seeded),
            party: Account::blank(),
        }
    }

    /// Adds a line of a statement, or subtracts it if its statement was paid.
    pub(crate) fn add(&mut self, line: &Line<'_>, role: Role) -> Result<(), NoMemory>
        ensures { OnOk result (AddsLine self.old self.new (booked role line.now)) }
    {
        match line {
            Line::Ledger(key, usages, amount) => { self.add_ledger(key, *usages, *amount, role) }
            Line::Party(key, party) => self.add_party(key, party, role),
            Line::Unclaimed(key, amount) => self.add_unclaimed(key, *amount, role),
            _ => Ok(()),
        }
    }

    /// Adds a ledger line.
    fn add_ledger(
        &mut self,
        key: &KeyRef<'_>,
        usages: i128,
        amount: i128,
        role: Role,
    ) -> Result<(), NoMemory>
        ensures { OnOk result (AddsLine self.old self.new
            (booked role (lines.Ledger key.now usages amount))) }
    {
        let numbers = Sums {
            usages,
            amount,
            claimed: 0,
            unclaimed: 0,
        };
        let currency = AccountRef::of_currency(key.currency);
        self.currencies
            .post_near(self.alloc, &currency, &numbers, role)?;
        let market = AccountRef::of_market(key.territory, key.use_type, key.currency);
        self.markets.post_near(self.alloc, &market, &numbers, role)?;
        Ok(())
    }

    /// Adds a party's part of a ledger line.
    fn add_party(
        &mut self,
        key: &KeyRef<'_>,
        party: &PartyRef<'_>,
        role: Role,
    ) -> Result<(), NoMemory>
        ensures { OnOk result (AddsLine self.old self.new
            (booked role (lines.Party key.now party.now))) }
    {
        let claimed = Sums {
            usages: 0,
            amount: 0,
            claimed: party.amount,
            unclaimed: 0,
        };
        let owed = Sums {
            usages: 0,
            amount: party.amount,
            claimed: 0,
            unclaimed: 0,
        };
        let currency = AccountRef::of_currency(key.currency);
        self.currencies
            .post_near(self.alloc, &currency, &claimed, role)?;
        let account = AccountRef::of_party(party.party, key.currency);
        self.party.assign(self.alloc, &account)?;
        self.parties.post(self.alloc, &self.party, &owed, role)?;
        Ok(())
    }

    /// Adds what no party has of a ledger line.
    fn add_unclaimed(&mut self, key: &KeyRef<'_>, amount: i128, role: Role) -> Result<(), NoMemory>
        ensures { OnOk result (AddsLine self.old self.new
            (booked role (lines.Unclaimed key.now amount))) }
    {
        let numbers = Sums {
            usages: 0,
            amount: 0,
            claimed: 0,
            unclaimed: amount,
        };
        let currency = AccountRef::of_currency(key.currency);
        self.currencies
            .post_near(self.alloc, &currency, &numbers, role)?;
        Ok(())
    }

    /// Whether no sum has left the range of 128 bits.
    pub(crate) fn are_in_range(&self) -> bool
        ensures { (bs : List Booked) → HoldsLines self.now bs → result ≡ are_in_range bs }
    {
        both(
            self.currencies.in_range,
            both(self.markets.in_range, self.parties.in_range),
        )
    }

    /// Sorts the accounts.
    pub(crate) fn sort(&mut self) -> Result<(), NoMemory>
        ensures { (bs : List Booked) → HoldsLines self.old bs → are_in_range bs ≡ true
            → OnOk result (AreSorted self.new bs) }
    {
        self.currencies.sort()?;
        self.markets.sort()?;
        self.parties.sort()?;
        Ok(())
    }
}
