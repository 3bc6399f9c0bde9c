//! The state of a file's summaries.
ghost use Rattle.std.specs.Prelude.{◌≡◌, ℕ, List, [], ◌∷◌, option_map, length};
ghost use Rattle.std.specs.List.{AllByRecursion};
ghost use Rattle.std.specs.Option.{ForSome};
ghost use Rattle.dsr_ledger.specs.inner.Summaries.{IsInRange, nothing_found, state_at, state_with, StateFits};

use crate::index::{Hints, Seeded};
use crate::sums::{Sums, check_range};
use dsr_cells::{NoMemory, Text};
use dsr_events::{Summary, Usage};
use indexmap::IndexMap;
use std::alloc::Global;

/// Summaries have hints in this many groups, by the last two bytes of their identifiers.
const SUMMARY_GROUPS: usize = 64;

/// The state of a summary: the key under which its usages count, and the sums of the usages that name it.
#[derive(Drop)]
struct SummaryState {
    /// The number of the key in the ledger.
    key: u32,
    sums: Sums,
}

/// A file's summaries by their identifiers, numbered in file order.
#[derive(Drop)]
pub(crate) struct Summaries {
    states: IndexMap<Text, SummaryState, Seeded>,
    hints: Hints<SUMMARY_GROUPS>,
}

/// The group of hints of an identifier. Identifiers that end with different numbers are mostly in different groups.
#[inline(always)]
fn summary_group(id: &Text) -> usize {
    match id.as_str().as_bytes() {
        [.., tens, ones] => (*tens % 4) as usize * 16 + (*ones % 16) as usize,
        _ => 0,
    }
}

impl Summaries {
    ghost use Rattle.std.specs.Prelude.{◌<◌, IfSome, IfOk, OnOk, None, Some};
    ghost use Rattle.std.specs.Option.{option_or};
    ghost use Rattle.indexmap.specs.IndexMap.{index_map_len};
    ghost use Rattle.dsr_ledger.specs.inner.Summaries.{sums_at, number_at, index_at, named};

    /// No summaries, with room for `many`.
    pub(crate) fn with_room(
        alloc: Global,
        seeded: Seeded,
        many: usize,
    ) -> Result<Summaries, NoMemory>
        ensures { IfOk result (λ m. (q : List ℕ) → state_at m q ≡ None) }
    {
        Ok(Summaries {
            states: IndexMap::with_capacity_and_hasher(alloc, many, seeded)?,
            hints: Hints::new(),
        })
    }

    /// The number, if it is the number of this summary.
    fn hinted(&self, number: usize, id: &Text) -> Option<usize>
        ensures { IfSome result (λ number. index_at self.now id.now ≡ Some number) }
    {
        let (own, _) = self.states.as_slice().get_index(number)?;
        if *own == *id {
            return Some(number);
        }
        None
    }

    /// The number of a summary.
    pub(crate) fn index(&self, id: &Text) -> Option<usize>
        ensures { result ≡ index_at self.now id.now }
    {
        self.states.get_index_of(id)
    }

    /// Where a summary probably is: if there are few, at the identifier's hint, and otherwise at `next`.
    #[inline(always)]
    fn hint(&self, id: &Text, next: usize) -> usize {
        if self.states.len() > SUMMARY_GROUPS {
            next
        } else {
            self.hints.get(summary_group(id))
        }
    }

    /// The number of a summary. Of many summaries, the one at `next`, which may be any number, is tried first.
    pub(crate) fn index_near(&self, id: &Text, next: usize) -> Option<usize>
        ensures { result ≡ index_at self.now id.now }
    {
        if let Some(number) = self.hinted(self.hint(id, next), id) {
            return Some(number);
        }
        self.index(id)
    }

    /// The number after that of a summary; 0 after the last one.
    pub(crate) fn next(&self, number: usize) -> usize {
        let next = number.wrapping_add(1);
        if next < self.states.len() { next } else { 0 }
    }

    /// The sums of the usages that name a summary.
    pub(crate) fn sums(&self, id: &Text) -> Option<&Sums>
        ensures { option_map (λ sums. sums.now) result ≡ sums_at self.now id.now }
    {
        match self.states.get(id) {
            Some(state) => Some(&state.sums),
            None => None,
        }
    }

    /// The number of the key of the summary with this number.
    pub(crate) fn key(&self, number: usize) -> u32
        requires { number < index_map_len self.now.states }
        ensures { (id : List ℕ) → index_at self.now id ≡ Some number
            → number_at self.now id ≡ Some result }
    {
        self.states[number].key
    }

    /// Adds a summary before any usage, unless its identifier is there. Its key has the number `key`. The states of the
    /// others are unchanged.
    pub(crate) fn add(&mut self, alloc: Global, summary: &Summary, key: u32) -> Result<(), NoMemory>
        ensures { OnOk result ((q : List ℕ)
            → state_at self.new q ≡ option_or (state_at self.old q)
            (option_map (λ s. nothing_found key) (named q summary.now))) }
    {
        if self.states.contains_key(&summary.id) {
            return Ok(());
        }
        let sums = Sums::new();
        let place = self.states.len();
        let _none = self
            .states
            .insert(summary.id.copy(alloc)?, SummaryState { key, sums })?;
        self.hints.set(summary_group(&summary.id), place);
        Ok(())
    }

    /// Adds a usage to the summary that it names, which has this number, and to no other.
    pub(crate) fn count(&mut self, number: usize, usage: &Usage)
        requires there { index_at self.old usage.now.summary_id ≡ Some number }
        requires fits { ForSome (state_at self.old usage.now.summary_id) (StateFits 1) }
        ensures range { IsInRange usage.now }
        ensures index { (q : List ℕ) → index_at self.new q ≡ index_at self.old q }
        ensures states { (q : List ℕ) → state_at self.new q ≡ option_map
            (state_with q (usage.now ∷ [])) (state_at self.old q) }
    {
        let (_, state) = self.states.pair_mut(number);
        state.sums.add(usage);
    }
}

/// Adds a usage to the summary that it names, and to no other.
#[tactic(auto, using(crate::proofs::StateLemmas::uncounted))]
fn count_one(summaries: &mut Summaries, usage: &Usage)
    requires { (id : List ℕ) → ForSome (state_at summaries.old id) (StateFits 1) }
    ensures range { IsInRange usage.now }
    ensures summaries { (id : List ℕ) → state_at summaries.new id ≡ option_map
        (state_with id (usage.now ∷ [])) (state_at summaries.old id) }
{
    check_range(usage);
    if let Some(number) = summaries.index(&usage.summary_id) {
        summaries.count(number, usage);
    }
}

/// Adds usages to the summaries that they name, and to no others.
pub(crate) fn count_usages(summaries: &mut Summaries, usages: &[Usage])
    requires { (id : List ℕ) → ForSome (state_at summaries.old id) (StateFits (length usages.now)) }
    ensures range { AllByRecursion IsInRange usages.now }
    ensures summaries { (id : List ℕ) → state_at summaries.new id ≡ option_map
        (state_with id usages.now) (state_at summaries.old id) }
{
    for usage in usages {
        count_one(summaries, usage);
    }
}
