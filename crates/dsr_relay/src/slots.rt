//! The slots of a batch: the array of at most 32 events that goes through a relay as one message.
//!
//! It takes 26 kB, so it is not made on the stack and moved: its memory is reserved as a vector with room for one array, and
//! the array is made in there when the batch is filled for the first time. Until then the memory is not resident.
ghost use Rattle.std.specs.Prelude.{◌≡◌, ◌<◌, ◌^◌, [], length, true, false, slice_set, slice_index_or, IfOk};
ghost use Rattle.dsr_events.specs.meaning.Orderly.{Placed};
ghost use Rattle.dsr_events.specs.layer.Orderly.{block_event};

use arrayvec::ArrayVec;
use dsr_cells::NoMemory;
use dsr_events::{Block, Event, EventPart};
use std::alloc::Global;
use std::marker::Model;
use std::mem;

/// The maximum number of events in a batch.
pub(crate) const MOST_EVENTS: usize = 32;

/// The slots of a batch. Contracts see the events in them: none until the array is made, and 32 from then on.
pub(crate) struct Slots {
    /// The array, which is full, or nothing until it is made.
    arrays: Vec<ArrayVec<Event, MOST_EVENTS>>,
}

/// Not inlined, since the array is moved to the stack where it is dropped.
impl Drop for Slots {
    #[inline(never)]
    fn drop(self) {
        let Slots { arrays: _ } = self;
    }
}

impl Model for Slots {
    ghost use Rattle.std.specs.Prelude.{List};
    ghost use Rattle.dsr_events.specs.meaning.Orderly.{Placed};
    ghost use Rattle.dsr_relay.specs.inner.Arrays.{events_in, IsFull};

    ghost Value = { List Placed };

    ghost view = { λ s. events_in s.arrays.items };

    ghost invariant = { λ s. IsFull s.arrays.items };
}

/// A stale event, whose block has no memory of its own.
fn stale_event(alloc: Global) -> Event {
    Event {
        place: 0,
        part: EventPart::Block(Block::empty(alloc)),
    }
}

/// Overwrites a stale event with that of a block, if it is the event of a block too, and returns whether it did. The two
/// blocks are swapped. Otherwise nothing changes.
#[inline(always)]
fn write_block(slot: &mut Event, place: u64, block: &mut Block) -> bool
    requires { place < 2 ^ 37 }
    ensures written { result ≡ true → slot.new ≡ block_event place block.old }
    ensures kept { result ≡ false → (slot.new ≡ slot.old) × (block.new ≡ block.old) }
{
    match &mut slot.part {
        EventPart::Block(stale) => mem::swap(stale, block),
        _ => return false,
    }
    slot.place = place;
    true
}

/// Frees the events of an array, and fills it with the events of empty blocks.
fn fill(array: &mut ArrayVec<Event, MOST_EVENTS>, alloc: Global)
    ensures { length array.new.items ≡ 32 }
{
    array.clear();
    for _ in 0..MOST_EVENTS {
        array.push(stale_event(alloc));
    }
}

impl Slots {
    /// No slots, and no memory for them.
    pub(crate) fn none(alloc: Global) -> Slots
        ensures { result ≡ [] }
    {
        Slots {
            arrays: Vec::new(alloc),
        }
    }

    /// No slots yet, but memory for them.
    ///
    /// # Errors
    ///
    /// `NoMemory`: out of memory.
    pub(crate) fn reserved(alloc: Global) -> Result<Slots, NoMemory>
        ensures { IfOk result (λ s. s ≡ []) }
    {
        Ok(Slots {
            arrays: Vec::with_capacity(alloc, 1)?,
        })
    }

    /// Whether there is memory for the slots.
    pub(crate) fn has_memory(&self) -> bool {
        self.arrays.capacity() > 0
    }

    /// The number of slots.
    #[inline(always)]
    pub(crate) fn len(&self) -> usize
        ensures { result ≡ length self.now }
    {
        if self.arrays.is_empty() {
            0
        } else {
            MOST_EVENTS
        }
    }

    /// The events in the slots.
    #[inline(always)]
    pub(crate) fn events(&self) -> &[Event]
        ensures { result.now ≡ self.now }
    {
        match self.arrays.first() {
            Some(array) => array.as_slice(),
            None => &[],
        }
    }

    /// Makes the slots in the reserved memory, or frees the events in them. Each then has the event of an empty block.
    #[cold]
    #[inline(never)]
    pub(crate) fn renew(&mut self, alloc: Global) {
        if self.arrays.len() < self.arrays.capacity() {
            self.arrays.push_reserved(ArrayVec::new());
        }
        if let Some(array) = self.arrays.first_mut() {
            fill(array, alloc);
        }
    }

    /// Puts an event into a slot, and frees the one there.
    #[inline(always)]
    pub(crate) fn put(&mut self, at: usize, event: Event)
        requires { at < length self.old }
        ensures { self.new ≡ slice_set self.old at event }
    {
        let stale = mem::replace(&mut self.arrays[0][at], event);
        drop(stale);
    }

    /// Puts the event of a block into a slot, if the one there is that of a block too, and returns whether it did. The two
    /// blocks are swapped. Otherwise nothing changes.
    #[inline(always)]
    pub(crate) fn put_block(&mut self, at: usize, place: u64, block: &mut Block) -> bool
        requires small { place < 2 ^ 37 }
        requires within { at < length self.old }
        ensures written { result ≡ true → self.new ≡ slice_set self.old at (block_event place block.old) }
        ensures kept { result ≡ false → (self.new ≡ self.old) × (block.new ≡ block.old) }
    {
        write_block(&mut self.arrays[0][at], place, block)
    }

    /// Takes an event out of its slot, and leaves a placeholder there.
    #[inline(always)]
    pub(crate) fn take(&mut self, at: usize) -> Event
        requires { at < length self.old }
        ensures value { result ≡ slice_index_or self.old at result }
        ensures after { (blank : Placed) × (self.new ≡ slice_set self.old at blank) }
    {
        mem::take(&mut self.arrays[0][at])
    }
}
