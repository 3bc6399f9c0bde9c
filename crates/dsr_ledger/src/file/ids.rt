//! The identifiers of a file's blocks.
ghost use Rattle.std.specs.Prelude.{◌≡◌, ◌<◌, ◌^◌, ◌||◌, ℕ, List, ◌∷◌, [], ◌++◌, Option, Some, IfSome, OnOk, true, false, map, nat_eq, if◌then◌else◌};
ghost use Rattle.std.specs.List.{fold, list_any};
ghost use Rattle.std.specs.Str.{bytes_eq};
ghost use Rattle.dsr_ledger.specs.inner.IdRanks.{number_of_id, rank_of, with_byte};
ghost use Rattle.dsr_ledger.specs.inner.Numbered.{Rise, place_in};

use crate::index::Seeded;
use dsr_cells::{NoMemory, Text, read_number};
use indexmap::IndexSet;
use std::alloc::Global;

/// The identifiers of a file's blocks. In most files they are decimal numbers, each the one after that before it: these are
/// one range. Others are a list while they rise, and the first that does not begins a set.
#[derive(Drop)]
pub(crate) struct Ids {
    /// The numbers from this one on, up to `end`, are identifiers.
    first: u64,
    /// The number after the last one.
    end: u64,
    /// The others before the first of `rest`, each of a higher rank than the one before it.
    run: Vec<Text>,
    /// None of these has a higher rank.
    top: u64,
    /// All others.
    rest: IndexSet<Text, Seeded>,
    ghost rise: { (n : ℕ) → top < n → Rise (map rank_of run.items ++ n ∷ []) },
}

/// The number that an identifier is: 1 to 12 digits, without leading zeros.
pub(crate) fn number_of(id: &Text) -> Option<u64>
    ensures number { result ≡ number_of_id id.now }
    ensures bound { IfSome result (λ n. n < 10 ^ 12) }
{
    let text = id.as_str();
    if text.len() > 1 && text.as_bytes()[0] == b'0' {
        return None;
    }
    read_number(text)
}

/// The big-endian number with these bytes appended, modulo 2^64.
fn number_with(before: u64, bytes: &[u8]) -> u64
    ensures { result ≡ fold with_byte before bytes.now }
{
    let mut number = before;
    for byte in bytes {
        number = number.wrapping_mul(256).wrapping_add(u64::from(*byte));
    }
    number
}

/// The big-endian number of these bytes, modulo 2^64. The first four are read at once.
fn number_of_bytes(bytes: &[u8]) -> u64
    ensures { result ≡ fold with_byte 0 bytes.now }
{
    match bytes {
        [a, b, c, d, rest @ ..] => {
            let first = u32::from_be_bytes([*a, *b, *c, *d]);
            number_with(u64::from(first), rest)
        }
        _ => number_with(0, bytes),
    }
}

#[tactic(auto, unfolding(crate::specs::inner::IdRanks::rank_of))]
/// The rank of an identifier: `number`, which is its number, or else the big-endian number of its last eight bytes.
fn rank(id: &Text, number: Option<u64>) -> u64
    requires { number ≡ number_of_id id.now }
    ensures { result ≡ rank_of id.now }
{
    match number {
        Some(number) => number,
        None => {
            let bytes = id.as_str().as_bytes();
            number_of_bytes(&bytes[bytes.len().saturating_sub(8)..])
        }
    }
}

/// The place of the identifier of a rank in a run.
fn search(run: &[Text], ranked: u64) -> Option<usize>
    requires { Rise (map rank_of run.now) }
    ensures { result ≡ place_in (map rank_of run.now) ranked }
{
    run.binary_search_by_key(&ranked, |id| rank(id, number_of(id)))
        .ok()
}

impl Ids {
    ghost use Rattle.dsr_ledger.specs.inner.Ids.{is_between, is_in, HasRoom};

    /// No identifiers.
    pub(crate) fn new(alloc: Global, seeded: Seeded) -> Ids
        ensures { (q : List ℕ) → is_in result q ≡ false }
    {
        Ids {
            first: 0,
            end: 0,
            run: Vec::new(alloc),
            top: 0,
            rest: IndexSet::with_hasher(alloc, seeded),
        }
    }

    /// Whether a number is one of the numbers.
    fn has_number(&self, number: Option<u64>) -> bool
        ensures { result ≡ is_between self.now number }
    {
        match number {
            Some(number) => self.first <= number && number < self.end,
            None => false,
        }
    }

    /// Whether an identifier is in the run. `number` is its number.
    fn is_in_run(&self, id: &Text, number: Option<u64>) -> bool
        requires { number ≡ number_of_id id.now }
        ensures { result ≡ list_any (bytes_eq id.now) self.now.run.items }
    {
        if self.run.is_empty() {
            return false;
        }
        let rank = rank(id, number);
        if rank > self.top {
            return false;
        }
        match search(self.run.as_slice(), rank) {
            Some(place) => self.run[place] == *id,
            None => false,
        }
    }

    /// Whether an identifier is in the set. `number` is its number.
    pub(crate) fn has(&self, id: &Text, number: Option<u64>) -> bool
        requires { number ≡ number_of_id id.now }
        ensures { result ≡ is_in self.now id.now }
    {
        self.has_number(number)
            || self.is_in_run(id, number)
            || (!self.rest.is_empty() && self.rest.contains(id))
    }

    /// Reserves memory for one more identifier.
    pub(crate) fn reserve(&mut self) -> Result<(), NoMemory>
        ensures same { (q : List ℕ) → is_in self.new q ≡ is_in self.old q }
        ensures room { OnOk result (HasRoom self.new) }
    {
        self.run.reserve(1)?;
        self.rest.reserve(1)?;
        Ok(())
    }

    /// Adds a number if it is the one after the last, or there are none. Returns whether it does.
    fn add_number(&mut self, number: Option<u64>) -> bool
        requires { IfSome number (λ n. n < 10 ^ 12) }
        ensures run { self.new.run ≡ self.old.run }
        ensures rest { self.new.rest ≡ self.old.rest }
        ensures more { result ≡ true → (n : ℕ) × (number ≡ Some n)
            × ((m : ℕ) → is_between self.new (Some m) ≡ (nat_eq n m || is_between self.old (Some m))) }
        ensures same { result ≡ false → (m : Option ℕ) → is_between self.new m ≡ is_between self.old m }
    {
        let Some(number) = number else {
            return false;
        };
        if self.first >= self.end {
            self.first = number;
        } else if number != self.end {
            return false;
        }
        self.end = number + 1;
        true
    }

    /// Adds an identifier. `number` is its number. This allocates nothing.
    pub(crate) fn add(&mut self, id: Text, number: Option<u64>)
        requires number { number ≡ number_of_id id }
        requires bound { IfSome number (λ n. n < 10 ^ 12) }
        requires room { HasRoom self.old }
        ensures { (q : List ℕ) → is_in self.new q ≡ (if bytes_eq id q then true else is_in self.old q) }
    {
        if self.add_number(number) {
            drop(id);
            return;
        }
        let rank = rank(&id, number);
        if self.rest.is_empty() && rank > self.top {
            self.run.push_reserved(id);
            self.top = rank;
        } else {
            drop(self.rest.insert(id));
        }
    }
}
