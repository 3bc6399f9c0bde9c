//! What a line closes, in a place that is lent from the sink's caller down to the stage.
ghost use Rattle.std.specs.Prelude.{◌≡◌, ◌++◌, ◌∷◌, ◌<◌, ◌^◌, [], true, false, IfOk, IfErr, OnOk, OnErr, IfSome, Some, None, is_some};
ghost use Rattle.std.specs.Option.{option_to_list};
ghost use Rattle.dsr_events.specs.declared.kinds.Kind.TheVariants as kinds;
ghost use Rattle.dsr_events.specs.layer.Blocks.{OpensBlock};
ghost use Rattle.dsr_records.specs.inner.Rows.{record_seen};
ghost use Rattle.dsr_records.specs.layer.Values.{has_texts, kind_of_record};
ghost use Rattle.dsr_file.specs.layer.Runs.{IsSomeRun};
ghost use Rattle.dsr_file.specs.inner.Stages.{block_count, event_at};

use crate::sink::Sink;
use dsr_cells::NoMemory;
use dsr_events::{BoxedBlock, Event, EventPart};
use dsr_records::{Block, CheckedLine};
use std::alloc::Global;
use std::marker::Model;
use std::mem;

/// What a line closes, if it closes something, with a block to be overwritten by the next one. Contracts see what is
/// closed. Blocks are boxed, so that they are exchanged by their addresses.
#[derive(Drop)]
pub(crate) struct Closed {
    alloc: Global,
    /// The block that was closed, if one was.
    block: Option<BoxedBlock>,
    /// What was closed, if that is not in `block`; None if `block` is Some.
    other: Option<EventPart>,
    /// A block to be overwritten, if there is one.
    spare: Option<BoxedBlock>,
}

/// A block in new memory, to be overwritten.
#[cold]
#[inline(never)]
fn new_block(alloc: Global) -> Result<BoxedBlock, NoMemory> {
    BoxedBlock::empty(alloc)
}

impl Model for Closed {
    ghost use Rattle.std.specs.Prelude.{Option};
    ghost use Rattle.dsr_events.specs.declared.event.EventPart.{EventPart};
    ghost use Rattle.dsr_file.specs.inner.Stages.{part_closed, IsOne};

    ghost Value = { Option EventPart };

    ghost view = { part_closed };

    ghost invariant = { IsOne };
}

impl Closed {
    /// Nothing.
    pub(crate) fn new(alloc: Global) -> Closed
        ensures { result ≡ None }
    {
        Closed {
            alloc,
            block: None,
            other: None,
            spare: None,
        }
    }

    /// Whether something was closed.
    #[inline(always)]
    pub(crate) fn is_some(&self) -> bool
        ensures { result ≡ is_some self.now }
    {
        self.block.is_some() || self.other.is_some()
    }

    /// The number of blocks that were closed: 0 or 1.
    #[inline(always)]
    pub(crate) fn block_count(&self) -> u64
        ensures { result ≡ block_count self.now }
    {
        if self.block.is_some() {
            return 1;
        }
        match &self.other {
            Some(EventPart::Block(_)) => 1,
            _ => 0,
        }
    }

    /// Sets what was closed to this part. What it was before is dropped.
    pub(crate) fn set(&mut self, part: EventPart)
        ensures { self.new ≡ Some part }
    {
        drop(self.block.take());
        drop(self.other.replace(part));
    }

    /// Sets what was closed to this block.
    pub(crate) fn set_block(&mut self, block: BoxedBlock)
        requires { self.old ≡ None }
        ensures { self.new ≡ Some (EventPart.Block block) }
    {
        self.block = Some(block);
    }

    /// A block to be overwritten, of any value: the spare one, or a new one.
    #[inline(always)]
    fn take_spare(&mut self) -> Result<BoxedBlock, NoMemory>
        ensures { self.new ≡ self.old }
    {
        match self.spare.take() {
            Some(block) => Ok(block),
            None => new_block(self.alloc),
        }
    }

    /// Takes out what was closed.
    pub(crate) fn take(&mut self) -> Option<EventPart>
        ensures value { result ≡ self.old }
        ensures none { self.new ≡ None }
    {
        let Some(mut boxed) = self.block.take() else {
            return self.other.take();
        };
        let block = boxed.replace(Block::empty(self.alloc));
        self.spare = Some(boxed);
        Some(EventPart::Block(block))
    }

    /// Takes out what was closed, as the event with this place.
    pub(crate) fn take_event(&mut self, place: u64) -> Option<Event>
        requires { place < 2 ^ 37 }
        ensures event { result ≡ event_at place self.old }
        ensures none { self.new ≡ None }
    {
        let part = self.take()?;
        Some(Event { place, part })
    }

    /// Writes the block of a resource line over the spare one. It takes the place of the open block, which is closed.
    #[inline(always)]
    pub(crate) fn open_next(
        &mut self,
        line: &CheckedLine<'_>,
        current: &mut BoxedBlock,
    ) -> Result<(), NoMemory>
        requires resource { kind_of_record (record_seen line.now) ≡ kinds.Resource }
        requires none { self.old ≡ None }
        ensures opens { OnOk result (OpensBlock (record_seen line.now) current.new) }
        ensures closed { OnOk result (self.new ≡ Some (EventPart.Block current.old)) }
        ensures memory { OnErr result (has_texts (record_seen line.now) ≡ true) }
        ensures refused { OnErr result ((self.new ≡ None) × (current.new ≡ current.old)) }
    {
        let mut next = self.take_spare()?;
        line.open_block(self.alloc, next.get_mut())?;
        self.block = Some(mem::replace(current, next));
        Ok(())
    }

    /// Writes the block of a resource line over the spare one, and returns it.
    pub(crate) fn open_first(&mut self, line: &CheckedLine<'_>) -> Result<BoxedBlock, NoMemory>
        requires resource { kind_of_record (record_seen line.now) ≡ kinds.Resource }
        requires none { self.old ≡ None }
        ensures opens { IfOk result (λ block. OpensBlock (record_seen line.now) block) }
        ensures memory { OnErr result (has_texts (record_seen line.now) ≡ true) }
        ensures none { self.new ≡ None }
    {
        let mut next = self.take_spare()?;
        line.open_block(self.alloc, next.get_mut())?;
        Ok(next)
    }

    /// Puts a closed block into a sink, as the event with this place, by an exchange with a stale block of the sink.
    /// Returns whether it did; otherwise nothing changes.
    #[inline(always)]
    pub(crate) fn exchange_into<S: Sink>(&mut self, place: u64, sink: &mut S) -> bool
        requires small { place < 2 ^ 37 }
        requires run { IfSome (event_at place self.old)
            (λ e. IsSomeRun (S.list sink.old ++ e ∷ [])) }
        ensures added { result ≡ true
            → S.list sink.new ≡ S.list sink.old ++ option_to_list (event_at place self.old) }
        ensures none { result ≡ true → self.new ≡ None }
        ensures kept { result ≡ false
            → (self.new ≡ self.old) × (S.list sink.new ≡ S.list sink.old) }
        ensures name { S.name sink.new ≡ S.name sink.old }
    {
        let Some(block) = &mut self.block else {
            return false;
        };
        if !sink.put_block(place, block.get_mut()) {
            return false;
        }
        self.spare = self.block.take();
        true
    }

    /// Puts what was closed into a sink, as the event with this place, by moving it. Returns an event that the sink refuses.
    /// Not inlined, since most blocks are exchanged.
    #[cold]
    #[inline(never)]
    pub(crate) fn put_into<S: Sink>(&mut self, place: u64, sink: &mut S) -> Result<(), Event>
        requires small { place < 2 ^ 37 }
        requires run { IfSome (event_at place self.old)
            (λ e. IsSomeRun (S.list sink.old ++ e ∷ [])) }
        ensures added { OnOk result
            (S.list sink.new ≡ S.list sink.old ++ option_to_list (event_at place self.old)) }
        ensures refused { IfErr result (λ back.
            (event_at place self.old ≡ Some back) × (S.list sink.new ≡ S.list sink.old)) }
        ensures none { self.new ≡ None }
        ensures name { S.name sink.new ≡ S.name sink.old }
    {
        match self.take_event(place) {
            Some(event) => sink.put(event),
            None => Ok(()),
        }
    }
}
