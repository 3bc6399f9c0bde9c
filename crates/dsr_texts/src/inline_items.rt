//! The list type of blocks: its first items are stored in the list itself, and its memory is reused.
ghost use Rattle.std.specs.Prelude.{◌≡◌, ◌<◌, ◌-◌, [], ◌∷◌, ◌++◌, length, take, slice_get, slice_index_or, MatchResult};
ghost use Rattle.std.specs.Borrow.{sem};
ghost use Rattle.std.specs.Option.{option_map};

use crate::text::NoMemory;
use smallvec::SmallVec;
use std::alloc::Global;
use std::default::MadeWith;
use std::marker::Model;

/// A list that grows at its end, and keeps its memory and its allocator. Its first `N` items are stored in
/// the list itself; if there are more, all are on the heap.
///
/// Contracts see it as the list of its items. The memory after them may hold stale items, which are
/// not part of the list and are overwritten by the items that are added.
pub struct InlineItems<T, const N: usize> {
    len: usize,
    items: SmallVec<T, N>,
}

/// Written out, so that dropping one is a call: a derived drop is proved anew wherever it happens.
impl<T: Drop, const N: usize> Drop for InlineItems<T, N> {
    fn drop(self) {
        let InlineItems { len: _, items: _ } = self;
    }
}

impl<T, const N: usize> Model for InlineItems<T, N> {
    ghost use Rattle.std.specs.Prelude.{◌≤◌, List, length, take};

    ghost Value = { List T };

    ghost view = { λ list. take list.len list.items.items };

    ghost invariant = { λ list. list.len ≤ length list.items.items };
}

impl<T, const N: usize> InlineItems<T, N> {
    ghost use Rattle.dsr_texts.specs.inner.Lends.{lends_last};

    /// The number of items.
    #[inline(always)]
    pub fn len(&self) -> usize
        ensures { result ≡ length self.now }
    {
        self.as_slice().len()
    }

    /// The items, in order.
    #[inline(always)]
    pub fn as_slice(&self) -> &[T]
        ensures { result.now ≡ self.now }
    {
        &self.items.as_slice()[..self.len]
    }

    /// The item at index `i`, from 0; None past the end.
    #[inline(always)]
    pub fn get(&self, i: usize) -> Option<&T>
        ensures { option_map (λ x. x.now) result ≡ slice_get self.now i }
    {
        self.as_slice().get(i)
    }

    /// Empties the list. Nothing is dropped, and no memory is freed.
    #[inline(always)]
    pub fn restart(&mut self)
        ensures { self.new ≡ [] }
    {
        self.len = 0;
    }

    /// Removes the last item of the list. It becomes a stale one; nothing is dropped. Condition: the list is not empty.
    pub fn shorten(&mut self)
        requires { 0 < length self.old }
        ensures { self.new ≡ take (length self.old - 1) self.old }
    {
        self.len -= 1;
    }

    /// The last item, for writing.
    #[inline(always)]
    fn last_mut(&mut self) -> &mut T
        requires { 0 < length self.old }
        ensures* writes_back { sem 𝓛 (lends_last T.row N.row self.entry result) }
        ensures value { result.now ≡ slice_index_or self.old (length self.old - 1) result.now }
    {
        let last = self.len - 1;
        match self.items.get_mut(last) {
            Some(item) => item,
            None => unreachable!(),
        }
    }
}

impl<T: MadeWith<Global> + Drop, const N: usize> InlineItems<T, N> {
    ghost use Rattle.dsr_texts.specs.inner.Lends.{lends_next};
    ghost use Rattle.dsr_texts.specs.inner.Views.{IsOneMore};

    /// The empty list. Nothing is allocated before item `N + 1`.
    pub fn new(alloc: Global) -> InlineItems<T, N>
        ensures { result ≡ [] }
    {
        InlineItems {
            len: 0,
            items: SmallVec::new(alloc),
        }
    }

    /// Appends an item.
    ///
    /// # Errors
    ///
    /// If memory is refused, the item is returned and the list is unchanged.
    pub fn push(&mut self, item: T) -> Result<(), T>
        ensures pushed { MatchResult result (λ _. self.new ≡ self.old ++ item ∷ [])
            (λ back. (back ≡ item) × (self.new ≡ self.old)) }
    {
        if self.len < self.items.len() {
            self.items.as_mut_slice()[self.len] = item;
            self.len += 1;
        } else {
            self.items.push(item).map_err(|refused| refused.value)?;
            self.len = self.items.len();
        }
        Ok(())
    }

    /// Appends an item of any value, in new memory.
    #[inline(never)]
    fn append(&mut self) -> Result<(), NoMemory>
        ensures { MatchResult result (λ _. IsOneMore self.old self.new) (λ _. self.new ≡ self.old) }
    {
        let fresh = T::made_with(*self.items.allocator());
        match self.push(fresh) {
            Ok(()) => Ok(()),
            Err(_) => Err(NoMemory),
        }
    }

    /// Makes the list longer by one item of any value. If memory is refused, the list is unchanged.
    #[inline(always)]
    fn lengthen(&mut self) -> Result<(), NoMemory>
        ensures { MatchResult result (λ _. IsOneMore self.old self.new) (λ _. self.new ≡ self.old) }
    {
        if self.len < self.items.len() {
            self.len += 1;
            return Ok(());
        }
        self.append()
    }

    /// Appends an item of any value, for the caller to overwrite. When the borrow ends, the list is the
    /// old one with that item appended.
    ///
    /// # Errors
    ///
    /// `NoMemory`: out of memory; the list is unchanged.
    #[inline(always)]
    pub fn next(&mut self) -> Result<&mut T, NoMemory>
        ensures* writes_back { sem 𝓛 (lends_next T.row N.row self.entry result) }
    {
        self.lengthen()?;
        Ok(self.last_mut())
    }
}

/// A list inside a new item is empty at first.
impl<T: MadeWith<Global> + Drop, const N: usize> MadeWith<Global> for InlineItems<T, N> {
    ghost is_made_with = { λ list. list ≡ [] };

    fn made_with(alloc: Global) -> InlineItems<T, N> {
        InlineItems::new(alloc)
    }
}
