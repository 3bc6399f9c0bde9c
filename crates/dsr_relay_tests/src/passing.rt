//! A file that goes through a relay from one thread to another.
ghost use Rattle.std.specs.Prelude.{◌≡◌, ◌<◌, []};

use crate::sending::send_file;
use crate::taking::{take_batches, take_file};
use dsr_relay::{Feed, Tap};
use std::alloc::Global;
use std::snapshot::Snapshot;
use std::sync::Wait;
use std::thread;
use std::thread::{Promise, Threads};

/// The feed that a thread gives back is of the relay of the feed that it was given.
#[derive(Drop)]
struct SameRelay(Snapshot<Feed>);

impl Promise<Feed> for SameRelay {
    ghost kept_by = { λ p feed. feed.name ≡ p.0.value.name };
}

/// What became of a file that was sent through a relay.
#[derive(Clone, Copy, PartialEq, Eq)]
pub enum Passed {
    /// All of its events were taken, up to its end, and were right: this many.
    Whole(u64),
    /// Not all of them were.
    Broken,
    /// Memory was refused for the thread.
    NoThread,
}

/// Sends a file of `blocks` blocks from a thread, and takes it by batches or event by event. Returns what became of it.
pub fn pass_file<H: Threads + Wait + Copy + Send + 'static>(
    rt: &H,
    alloc: Global,
    ends: (Feed, Tap),
    blocks: u64,
    by_batches: bool,
) -> Passed
    requires name { ends.1.name ≡ ends.0.name }
    requires new { ends.0.sent ≡ [] }
    requires few { blocks < 50000 }
{
    let own_rt = *rt;
    let (feed, mut tap) = ends;
    let promise = SameRelay(Snapshot::of(&feed));
    let sending = move || send_file(&own_rt, alloc, feed, blocks);
    let Ok(sender) = thread::spawn_with(rt, promise, sending) else {
        drop(tap);
        return Passed::NoThread;
    };
    let right = if by_batches {
        take_batches(rt, &mut tap)
    } else {
        take_file(rt, &mut tap)
    };
    if !tap.ended() {
        drop(tap);
        drop(sender.join(rt));
        return Passed::Broken;
    }
    let settled = tap.take_in(sender.join(rt));
    if settled.taken == right && settled.left == 0 {
        Passed::Whole(right)
    } else {
        Passed::Broken
    }
}
