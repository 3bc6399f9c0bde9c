//! How the items of a list are found: an index by their numbers, hints, and hashers with a seed.
ghost use Rattle.std.specs.Prelude.{◌≡◌, ℕ, [], ◌∷◌, ◌++◌, None, true, OnOk, OnErr, IfOk, map, nat_eq, take, drop};
ghost use Rattle.std.specs.List.{position};
ghost use Rattle.dsr_ledger.specs.inner.Numbered.{place_in, AreApart, Rise, AreIndexed};

use dsr_cells::NoMemory;
use indexmap::IndexSet;
use std::alloc::Global;
use std::hash::{BuildHasher, FoldHasher, Hasher};

/// This many first items of a list are found by a linear search.
const FEW: usize = 16;

/// An item that is found by its number.
pub(crate) trait Numbered {
    ghost number_of: { Self → ℕ };

    /// Its number.
    fn number(&self) -> u32
        ensures { result ≡ number_of self.now };
}

impl Numbered for u32 {
    ghost number_of = { λ n. n };

    fn number(&self) -> u32 {
        *self
    }
}

/// The places of items with distinct numbers. While the numbers after the first few ascend there is no set:
/// an item is found by a linear search of the first few and a binary search of the others. The first
/// number that does not ascend makes a set of the numbers of all items, in their order.
#[derive(Drop)]
pub(crate) struct Index {
    numbers: Option<Box<IndexSet<u32, Seeded>>>,
}

/// The place of a number among the first few items.
fn first_place<T: Numbered>(items: &[T], number: u32) -> Option<usize>
    ensures { result ≡ position (λ item. nat_eq number (T.number_of item)) (take 16 items.now) }
{
    items
        .iter()
        .take(FEW)
        .position(|item| number == item.number())
}

/// The items after the first few.
fn behind<T>(items: &[T]) -> &[T]
    ensures { result.now ≡ drop 16 items.now }
{
    &items[FEW.min(items.len())..]
}

/// The place of a number among items whose numbers ascend.
fn search_rising<T: Numbered>(items: &[T], number: u32) -> Option<usize>
    requires { Rise (map T.number_of items.now) }
    ensures { result ≡ place_in (map T.number_of items.now) number }
{
    items
        .binary_search_by_key(&number, |item| item.number())
        .ok()
}

/// Whether a number is above those of all items, whose numbers ascend.
fn is_above<T: Numbered>(items: &[T], number: u32) -> bool
    ensures { result ≡ true → Rise (map T.number_of items.now)
        → Rise (map T.number_of items.now ++ number ∷ []) }
{
    match items.last() {
        Some(last) => last.number() < number,
        None => true,
    }
}

/// The set of the numbers of items, in their order, and of one more number.
#[cold]
#[inline(never)]
fn boxed<T: Numbered>(
    alloc: Global,
    seeded: Seeded,
    items: &[T],
    number: u32,
) -> Result<Box<IndexSet<u32, Seeded>>, NoMemory>
    requires apart { AreApart (map T.number_of items.now) }
    requires absent { place_in (map T.number_of items.now) number ≡ None }
    ensures { IfOk result (λ numbers.
        numbers.value.keys ≡ map T.number_of items.now ++ number ∷ []) }
{
    let mut numbers = IndexSet::with_hasher(alloc, seeded);
    for item in items {
        numbers.insert(item.number())?;
    }
    numbers.insert(number)?;
    Ok(Box::new(alloc, numbers)?)
}

/// The place of a number among items that have no set.
fn search_all<T: Numbered>(items: &[T], number: u32) -> Option<usize>
    requires { Rise (drop 16 (map T.number_of items.now)) }
    ensures { result ≡ place_in (map T.number_of items.now) number }
{
    if let Some(place) = first_place(items, number) {
        return Some(place);
    }
    let place = search_rising(behind(items), number)?;
    Some(place + FEW)
}

impl Index {
    /// No items.
    pub(crate) fn new() -> Index
        ensures { AreIndexed [] result }
    {
        Index { numbers: None }
    }

    /// The place of a number in a list. Callers mostly find the place by a hint, so this is not inlined.
    #[inline(never)]
    pub(crate) fn search<T: Numbered>(&self, items: &[T], number: u32) -> Option<usize>
        requires { AreIndexed (map T.number_of items.now) self.now }
        ensures { result ≡ place_in (map T.number_of items.now) number }
    {
        match &self.numbers {
            Some(numbers) => numbers.get_index_of(&number),
            None => search_all(items, number),
        }
    }

    /// The place of a number in a list. The item at `hint` is tried first.
    pub(crate) fn find<T: Numbered>(&self, items: &[T], number: u32, hint: usize) -> Option<usize>
        requires apart { AreApart (map T.number_of items.now) }
        requires indexed { AreIndexed (map T.number_of items.now) self.now }
        ensures { result ≡ place_in (map T.number_of items.now) number }
    {
        if let Some(item) = items.get(hint) {
            if item.number() == number {
                return Some(hint);
            }
        }
        self.search(items, number)
    }

    /// Adds the number of the item that comes after those of a list, none of which has it.
    pub(crate) fn add<T: Numbered>(
        &mut self,
        alloc: Global,
        seeded: Seeded,
        items: &[T],
        number: u32,
    ) -> Result<(), NoMemory>
        requires apart { AreApart (map T.number_of items.now) }
        requires indexed { AreIndexed (map T.number_of items.now) self.old }
        requires absent { place_in (map T.number_of items.now) number ≡ None }
        ensures ok { OnOk result (AreIndexed (map T.number_of items.now ++ number ∷ []) self.new) }
        ensures err { OnErr result (AreIndexed (map T.number_of items.now) self.new) }
    {
        if let Some(numbers) = &mut self.numbers {
            numbers.insert(number)?;
            return Ok(());
        }
        if items.len() < FEW || is_above(behind(items), number) {
            return Ok(());
        }
        self.numbers = Some(boxed(alloc, seeded, items, number)?);
        Ok(())
    }
}

/// For each of `N` groups of items, the place of the item of the group that was added last, modulo 256. A hint may be
/// wrong: it is checked where it is used, and the right one saves a search.
#[derive(Clone, Copy)]
pub(crate) struct Hints<const N: usize> {
    places: [u8; N],
}

impl<const N: usize> Hints<N> {
    /// Every hint is 0.
    pub(crate) fn new() -> Hints<N> {
        Hints { places: [0; N] }
    }

    /// The hint of a group.
    #[inline(always)]
    pub(crate) fn get(&self, group: usize) -> usize {
        match self.places.get(group) {
            Some(place) => *place as usize,
            None => 0,
        }
    }

    /// Notes that an item of a group is at this place.
    pub(crate) fn set(&mut self, group: usize, place: usize) {
        if let Some(hint) = self.places.get_mut(group) {
            *hint = (place % 256) as u8;
        }
    }
}

/// Builds hashers from a seed, so that whoever chooses the keys cannot make them collide.
#[derive(Clone, Copy)]
pub(crate) struct Seeded {
    first: FoldHasher,
}

impl Seeded {
    /// Hashers with this seed.
    pub(crate) fn with_seed(seed: u64) -> Seeded {
        let mut first = FoldHasher::default();
        first.write_u64(seed);
        Seeded { first }
    }
}

impl BuildHasher for Seeded {
    type Hasher = FoldHasher;

    ghost build_hasher = { λ s. s.first };

    fn build_hasher(&self) -> FoldHasher {
        self.first
    }
}

/// The number in 32 bits. One past 32 bits is reported as `NoMemory`.
pub(crate) fn to_u32(number: usize) -> Result<u32, NoMemory>
    ensures { IfOk result (λ same. same ≡ number) }
{
    match u32::try_from(number) {
        Ok(same) => Ok(same),
        Err(_) => Err(NoMemory),
    }
}
