//! A book: the sums of each account.
use crate::account::{Account, AccountRef};
use crate::reports::Role;
use crate::seeded::Seeded;
use crate::sums::Sums;
use dsr_cells::NoMemory;
use indexmap::IndexMap;
use std::alloc::Global;

/// The sums of each account to which something was posted.
#[derive(Drop)]
pub struct Book {
    /// The sums, in the order of the first postings.
    pub(crate) sums: IndexMap<Account, Sums, Seeded>,
    /// Whether no sum has left the range of 128 bits. If one has, nothing more is added.
    pub(crate) in_range: bool,
    /// The place of the account to which something was posted last.
    last: usize,
}

impl Book {
    ghost use Rattle.std.specs.Prelude.{◌≡◌, ◌<◌, [], true, List, OnOk, IfSome, Some, None};
    ghost use Rattle.indexmap.specs.IndexMap.{get, index_of, index_map_len};
    ghost use Rattle.dsr_sums.specs.declared.account.Account.{Account as AccountValue};
    ghost use Rattle.dsr_sums.specs.meaning.Accounts.{account_eq};
    ghost use Rattle.dsr_sums.specs.meaning.Postings.{Posting, posting, signed_sums, balances, are_summable};
    ghost use Rattle.dsr_sums.specs.inner.Books.{HoldsPostings, AddsPosting, IsPosted};

    /// A book without postings.
    pub(crate) fn new(alloc: Global, seeded: Seeded) -> Book
        ensures { HoldsPostings result [] }
    {
        Book {
            sums: IndexMap::with_hasher(alloc, seeded),
            in_range: true,
            last: 0,
        }
    }

    /// This place, if the account is there.
    #[inline(always)]
    fn hinted(&self, place: usize, account: &AccountRef<'_>) -> Option<usize>
        ensures index { IfSome result (λ i. index_of account_eq self.now.sums account.now ≡ Some i) }
        ensures within { IfSome result (λ i. i < index_map_len self.now.sums) }
    {
        let (own, _) = self.sums.as_slice().get_index(place)?;
        if own.is(account) {
            return Some(place);
        }
        None
    }

    /// The place of an account, if that is the place of the last posting or the next one.
    #[inline(always)]
    fn near(&self, account: &AccountRef<'_>) -> Option<usize>
        ensures index { IfSome result (λ i. index_of account_eq self.now.sums account.now ≡ Some i) }
        ensures within { IfSome result (λ i. i < index_map_len self.now.sums) }
    {
        match self.hinted(self.last, account) {
            Some(place) => Some(place),
            None => self.hinted(self.last.wrapping_add(1), account),
        }
    }

    /// Adds numbers to an account, or subtracts those that were paid. It is quick if the account is that of the last posting
    /// or the next one.
    #[inline(always)]
    pub(crate) fn post_near(
        &mut self,
        alloc: Global,
        account: &AccountRef<'_>,
        numbers: &Sums,
        role: Role,
    ) -> Result<(), NoMemory>
        ensures { OnOk result (AddsPosting self.old self.new
            (posting role account.now numbers.now)) }
    {
        if self.in_range {
            if let Some(place) = self.near(account) {
                self.last = place;
                self.post_at(place, numbers, role);
                return Ok(());
            }
        }
        let own = Account::copy_of(alloc, account)?;
        self.post(alloc, &own, numbers, role)
    }

    /// Adds numbers to an account, or subtracts those that were paid.
    pub(crate) fn post(
        &mut self,
        alloc: Global,
        account: &Account,
        numbers: &Sums,
        role: Role,
    ) -> Result<(), NoMemory>
        ensures { OnOk result (AddsPosting self.old self.new
            (posting role account.now numbers.now)) }
    {
        if !self.in_range {
            return Ok(());
        }
        match self.sums.get_index_of(account) {
            Some(place) => {
                self.last = place;
                self.post_at(place, numbers, role);
                Ok(())
            }
            None => self.post_first(alloc, account, numbers, role),
        }
    }

    /// Adds numbers to the account at this place.
    fn post_at(&mut self, place: usize, numbers: &Sums, role: Role)
        requires place { place < index_map_len self.old.sums }
        requires range { self.old.in_range ≡ true }
        ensures { (account : AccountValue) → index_of account_eq self.old.sums account ≡ Some place
            → IsPosted self.old self.new account (signed_sums role numbers.now) }
    {
        let (_, sums) = self.sums.pair_mut(place);
        match sums.plus(numbers, role) {
            Some(total) => *sums = total,
            None => self.in_range = false,
        }
    }

    /// Adds numbers to an account to which nothing was posted yet.
    fn post_first(
        &mut self,
        alloc: Global,
        account: &Account,
        numbers: &Sums,
        role: Role,
    ) -> Result<(), NoMemory>
        requires absent { get account_eq self.old.sums account.now ≡ None }
        requires range { self.old.in_range ≡ true }
        ensures { OnOk result (IsPosted self.old self.new account.now
            (signed_sums role numbers.now)) }
    {
        let Some(total) = Sums::zero().plus(numbers, role) else {
            self.in_range = false;
            return Ok(());
        };
        self.sums.insert(account.copy(alloc)?, total)?;
        Ok(())
    }

    /// Sorts the accounts.
    pub(crate) fn sort(&mut self) -> Result<(), NoMemory>
        ensures { (ps : List Posting) → HoldsPostings self.old ps → are_summable ps ≡ true
            → OnOk result (self.new.sums.entries ≡ balances ps) }
    {
        self.sums.sort_unstable_keys()?;
        Ok(())
    }
}
