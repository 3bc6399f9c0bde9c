//! Batches: the events that go through a relay as one message.
//!
//! The memory of a batch, an array of 32 slots, is reused: the feed fills it, and the tap gives it back. An event
//! overwrites the stale one in its slot, so that nothing is allocated for it. A block is exchanged for a stale one,
//! and the reader writes the next one into its memory. So that there is a stale one from the beginning, each slot has
//! the event of an empty block before a batch is filled for the first time.
ghost use Rattle.std.specs.Prelude.{◌≡◌, ◌<◌, ◌^◌, ◌∷◌, ◌++◌, [], ℕ, List, true, false, MatchOption, MatchResult, IfOk};
ghost use Rattle.dsr_events.specs.meaning.Blocks.{BlockParts};
ghost use Rattle.dsr_events.specs.meaning.Orderly.{Placed};
ghost use Rattle.dsr_events.specs.layer.Orderly.{block_event};

use crate::slots::Slots;
use dsr_cells::NoMemory;
use dsr_events::{Block, Event, EventPart};
use std::alloc::Global;
use std::default::MadeWith;
use std::marker::Model;
use std::mem;

/// The stale events in a batch's memory are freed once more than this many bytes were counted for them.
const MOST_STALE: usize = 256 * 1024;

/// The bytes counted for each round besides those noted: those of one read, which may not be noted yet.
const MOST_UNNOTED: usize = 4096;

/// The events of one message of a relay, and their memory. Contracts see those that were not taken out.
pub struct Batch {
    /// The events and, from index `count`, stale ones: of earlier rounds, or of empty blocks.
    slots: Slots,
    /// The number of events, including those that were taken out.
    count: usize,
    /// The number of events that were taken out from the front. Each left a placeholder.
    out: usize,
    /// The bytes of the file that were noted while the batch was filled.
    bytes: usize,
    /// The bytes counted for earlier rounds, since the slots last had the events of empty blocks.
    stale: usize,
}

/// Written out, so that dropping one is a call: a derived drop is proved anew wherever it happens.
impl Drop for Batch {
    fn drop(self) {
        let Batch {
            slots: _,
            count: _,
            out: _,
            bytes: _,
            stale: _,
        } = self;
    }
}

impl Model for Batch {
    ghost use Rattle.std.specs.Prelude.{◌≤◌, List, length, take, drop};
    ghost use Rattle.dsr_events.specs.meaning.Orderly.{Placed};

    ghost Value = { List Placed };

    ghost view = { λ b. drop b.out (take b.count b.slots) };

    ghost invariant = { λ b. (b.out ≤ b.count) × (b.count ≤ length b.slots) };
}

/// What a group of batches has in its unused places.
impl MadeWith<Global> for Batch {
    fn made_with(alloc: Global) -> Batch {
        Batch::none(alloc)
    }
}

impl Batch {
    /// An empty batch without memory.
    pub(crate) fn none(alloc: Global) -> Batch
        ensures { result ≡ [] }
    {
        Batch {
            slots: Slots::none(alloc),
            count: 0,
            out: 0,
            bytes: 0,
            stale: 0,
        }
    }

    /// An empty batch with memory for 32 events.
    ///
    /// # Errors
    ///
    /// `NoMemory`: out of memory.
    pub(crate) fn with_room(alloc: Global) -> Result<Batch, NoMemory>
        ensures { IfOk result (λ b. b ≡ []) }
    {
        Ok(Batch {
            slots: Slots::reserved(alloc)?,
            count: 0,
            out: 0,
            bytes: 0,
            stale: 0,
        })
    }

    /// Whether the batch has memory for events.
    pub(crate) fn has_room(&self) -> bool {
        self.slots.has_memory()
    }

    /// The events, in order.
    pub fn events(&self) -> &[Event]
        ensures { result.now ≡ self.now }
    {
        &self.slots.events()[..self.count][self.out..]
    }

    /// Notes that this many bytes of the file were read.
    pub(crate) fn note_bytes(&mut self, bytes: usize)
        ensures { self.new ≡ self.old }
    {
        self.bytes = self.bytes.saturating_add(bytes);
    }

    /// The number of bytes of the file noted since the batch was restarted.
    pub(crate) fn bytes(&self) -> usize {
        self.bytes
    }

    /// Appends an event, over the stale one in its slot. If there is no slot for it, the event is returned.
    pub(crate) fn push(&mut self, event: Event) -> Result<(), Event>
        ensures { MatchResult result (λ _. self.new ≡ self.old ++ event ∷ [])
            (λ back. (back ≡ event) × (self.new ≡ self.old)) }
    {
        if self.count >= self.slots.len() {
            return Err(event);
        }
        self.slots.put(self.count, event);
        self.count += 1;
        Ok(())
    }

    /// Appends the event of a block with this place, if its slot has a stale block, and returns whether it did. The two
    /// blocks are swapped. Otherwise nothing changes.
    #[inline(always)]
    pub(crate) fn push_block(&mut self, place: u64, block: &mut Block) -> bool
        requires { place < 2 ^ 37 }
        ensures added { result ≡ true → self.new ≡ self.old ++ block_event place block.old ∷ [] }
        ensures kept { result ≡ false → (self.new ≡ self.old) × (block.new ≡ block.old) }
    {
        if self.count >= self.slots.len() {
            return false;
        }
        if !self.slots.put_block(self.count, place, block) {
            return false;
        }
        self.count += 1;
        true
    }

    /// Takes out the first event; None if there is none.
    pub(crate) fn take_first(&mut self) -> Option<Event>
        ensures { MatchOption result ((self.old ≡ []) × (self.new ≡ []))
            (λ e. self.old ≡ e ∷ self.new) }
    {
        if self.out == self.count {
            return None;
        }
        let event = self.slots.take(self.out);
        self.out += 1;
        Some(event)
    }

    /// Takes out the last event; None if there is none.
    pub(crate) fn take_last(&mut self) -> Option<Event>
        ensures { MatchOption result ((self.old ≡ []) × (self.new ≡ []))
            (λ e. self.old ≡ self.new ++ e ∷ []) }
    {
        if self.out == self.count {
            return None;
        }
        self.count -= 1;
        Some(self.slots.take(self.count))
    }

    /// Takes out the last event, which is that of a block, and makes it the value of `block`.
    #[cold]
    #[inline(never)]
    pub(crate) fn take_last_block(&mut self, block: &mut Block)
        ensures { (events : List Placed) (place : ℕ) (last : BlockParts)
            → self.old ≡ events ++ block_event place last ∷ []
            → (self.new ≡ events) × (block.new ≡ last) }
    {
        if let Some(mut event) = self.take_last() {
            if let EventPart::Block(last) = &mut event.part {
                mem::swap(block, last);
            }
            drop(event);
        }
    }

    /// Makes the events stale, to be overwritten. Stale events are freed once they may take too much memory.
    pub(crate) fn restart(&mut self, alloc: Global)
        ensures { self.new ≡ [] }
    {
        self.stale = self
            .stale
            .saturating_add(self.bytes)
            .saturating_add(MOST_UNNOTED);
        self.bytes = 0;
        self.count = 0;
        self.out = 0;
        if self.stale > MOST_STALE || self.slots.len() == 0 {
            self.stale = 0;
            self.slots.renew(alloc);
        }
    }
}
