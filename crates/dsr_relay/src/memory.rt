//! The memory of batches, a pool of fixed size: the feed fills it, and the tap gives it back once its events are no
//! longer needed. All of it is allocated when a relay is made, so a send and a return allocate nothing, and the feed's
//! thread frees the events of returned batches. After Ended it also frees the memory that it has left, so that the one
//! thread of all taps need not.
//!
//! Batches come back several at a time, as one message: the feed is woken once for all of them. From a capacity of 16 on
//! there are as many as the channel has room for, so the feed waits for memory alone, and never for room in the channel.
ghost use Rattle.std.specs.Prelude.{◌≡◌, [], ◌+◌, ◌<◌, ◌≤◌, false, length, vec_len, vec_capacity, IfOk, IfSome, IfNone, OnOk, OnSome};
ghost use Rattle.arrayvec.specs.ArrayVec.{array_vec_len};
ghost use Rattle.dsr_relay.specs.layer.Pool.{batches_of};

use crate::batch::Batch;
use crate::way::{Getter, Giver, Group, MOST_TOGETHER, Refusal, way};
use arrayvec::ArrayVec;
use dsr_cells::NoMemory;
use std::alloc::Global;
use std::mem;
use std::sync::Wait;

/// From this capacity on there are no more batches than the channel has room for.
const ENOUGH: u32 = 16;

/// The end of the pool that takes memory, to fill it.
#[derive(Drop)]
pub(crate) struct Supply {
    alloc: Global,
    /// The memory that was never filled, or came back.
    unused: Vec<Batch>,
    getter: Getter,
    ghost room: { 8 ≤ vec_capacity unused },
}

/// The end of the pool that gives memory back.
#[derive(Drop)]
pub(crate) struct Returns {
    alloc: Global,
    giver: Giver,
    /// Batches that are not given back yet.
    kept: Group,
    /// This many are given back together: 1 to 8, and fewer than there are. So the feed never waits for memory while the tap
    /// waits for a message (`laws::never_lacks_memory`).
    together: usize,
    ghost few: { (array_vec_len kept < together) × (together ≤ 8) },
}

/// Memory for this many batches, and room for as many as come back together.
fn rooms(alloc: Global, batches: usize) -> Result<Vec<Batch>, NoMemory>
    requires { batches ≤ 1024 }
    ensures all { IfOk result (λ rooms. length rooms.items ≡ batches) }
    ensures room { IfOk result (λ rooms. batches + 8 ≤ vec_capacity rooms) }
{
    let mut rooms = Vec::with_capacity(alloc, batches + MOST_TOGETHER)?;
    for _ in 0..batches {
        rooms.push(Batch::with_room(alloc)?)?;
    }
    Ok(rooms)
}

/// The number of batches of a relay whose channel has room for `capacity` of them. A small one has two more, of which one
/// is filled and one emptied.
fn batches_of(capacity: u32) -> usize
    requires { capacity ≤ 1024 }
    ensures { result ≡ batches_of capacity }
{
    if capacity < ENOUGH {
        capacity as usize + 2
    } else {
        capacity as usize
    }
}

/// The memory of a relay whose channel has room for `capacity` batches.
///
/// # Errors
///
/// `NoMemory`: out of memory.
pub(crate) fn memory(alloc: Global, capacity: u32) -> Result<(Supply, Returns), NoMemory>
    requires { capacity ≤ 1024 }
    ensures unused { IfOk result (λ r. length r.0.unused.items ≡ batches_of capacity) }
    ensures together { IfOk result (λ r. (0 < r.1.together)
        × (r.1.together < length r.0.unused.items)) }
{
    let batches = batches_of(capacity);
    let together = (capacity as usize / 2).min(MOST_TOGETHER).max(1);
    let unused = rooms(alloc, batches)?;
    let (giver, getter) = way(alloc, batches / together + 1)?;
    let supply = Supply {
        alloc,
        unused,
        getter,
    };
    let returns = Returns {
        alloc,
        giver,
        kept: ArrayVec::new_in(alloc),
        together,
    };
    Ok((supply, returns))
}

impl Supply {
    /// Memory to be filled: that of a batch that came back, or memory that was never filled. If there is none, the call
    /// waits until batches come back; it is None if the tap is gone. What came back and was not used before is kept.
    fn find<R: Wait>(&mut self, rt: &R) -> Option<Batch>
        ensures one { OnSome result (length self.new.unused.items + 1 + self.old.getter
            ≡ length self.old.unused.items + self.new.getter) }
        ensures none { IfNone result ((length self.old.unused.items ≡ 0)
            × (self.new.getter ≡ self.old.getter)) }
    {
        self.get(rt, false);
        if self.unused.is_empty() {
            self.get(rt, true);
        }
        self.unused.pop()
    }

    /// Keeps a group of batches that came back, if there is room for all that one may have. If there is none, the call waits
    /// for one if `waits` is true.
    fn get<R: Wait>(&mut self, rt: &R, waits: bool)
        ensures all { length self.new.unused.items + self.old.getter
            ≡ length self.old.unused.items + self.new.getter }
        ensures more { self.old.getter ≤ self.new.getter }
    {
        if self.unused.capacity() - self.unused.len() < MOST_TOGETHER {
            return;
        }
        if let Some(group) = self.getter.get(rt, waits) {
            keep(&mut self.unused, group);
        }
    }

    /// An empty batch to be filled; None if the tap is gone. If its memory is that of a batch that came back, the old events
    /// are now stale.
    pub(crate) fn take<R: Wait>(&mut self, rt: &R) -> Option<Batch>
        ensures one { OnSome result (length self.new.unused.items + 1 + self.old.getter
            ≡ length self.old.unused.items + self.new.getter) }
        ensures none { IfNone result ((length self.old.unused.items ≡ 0)
            × (self.new.getter ≡ self.old.getter)) }
        ensures empty { IfSome result (λ batch. batch ≡ []) }
    {
        let mut batch = self.find(rt)?;
        batch.restart(self.alloc);
        Some(batch)
    }

    /// Frees the memory that waits to be filled, if Ended was sent and so nothing more is.
    #[inline(always)]
    pub(crate) fn free_at_end<R: Wait>(&mut self, rt: &R, has_ended: bool)
        ensures { has_ended ≡ false → self.new ≡ self.old }
    {
        if has_ended {
            self.free(rt);
        }
    }

    /// Frees the memory that waits to be filled.
    #[cold]
    #[inline(never)]
    fn free<R: Wait>(&mut self, rt: &R) {
        self.unused.clear();
        for _ in 0..self.unused.capacity() {
            if self.getter.get(rt, false).is_none() {
                return;
            }
        }
    }

    /// A batch without memory.
    pub(crate) fn none(&self) -> Batch
        ensures { result ≡ [] }
    {
        Batch::none(self.alloc)
    }
}

/// Moves the batches of a group, for which there is room.
fn keep(unused: &mut Vec<Batch>, mut group: Group)
    requires { vec_len unused.old + 8 ≤ vec_capacity unused.old }
    ensures all { length unused.new.items ≡ length unused.old.items + array_vec_len group }
    ensures room { vec_capacity unused.new ≡ vec_capacity unused.old }
{
    for _ in 0..group.len() {
        let Some(batch) = group.pop() else {
            unreachable!()
        };
        unused.push_reserved(batch);
    }
}

impl Returns {
    /// Gives the memory of a batch back, once there are several.
    ///
    /// # Errors
    ///
    /// [`Refusal`]: the feed is gone, and it was freed with those that were kept.
    pub(crate) fn give<R: Wait>(&mut self, rt: &R, batch: Batch) -> Result<(), Refusal>
        ensures { OnOk result (array_vec_len self.new.kept + self.new.giver
            ≡ array_vec_len self.old.kept + self.old.giver + 1) }
    {
        if self.kept.len() + 1 < self.together {
            self.kept.push(batch);
            Ok(())
        } else {
            self.give_all(rt, batch)
        }
    }

    /// Gives the kept batches and this one back, as one message.
    ///
    /// # Errors
    ///
    /// [`Refusal`]: the feed is gone, and they were freed.
    #[cold]
    #[inline(never)]
    fn give_all<R: Wait>(&mut self, rt: &R, last: Batch) -> Result<(), Refusal>
        ensures { OnOk result (array_vec_len self.new.kept + self.new.giver
            ≡ array_vec_len self.old.kept + self.old.giver + 1) }
    {
        let mut group = mem::replace(&mut self.kept, ArrayVec::new_in(self.alloc));
        group.push(last);
        self.giver.give(rt, group)
    }

    /// A batch without memory.
    pub(crate) fn none(&self) -> Batch
        ensures { result ≡ [] }
    {
        Batch::none(self.alloc)
    }
}
