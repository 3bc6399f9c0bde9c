//! Files that go from one thread to another, a tap that moves to a thread, and a feed that waits for memory.
ghost use Rattle.std.specs.Prelude.{◌≡◌, ◌<◌, []};

use crate::passing::{Passed, pass_file};
use crate::sending::{relay, send_and_leave, send_blocks};
use crate::taking::takes_opened;
use dsr_relay::{Batch, Feed, Tap};
use std::alloc::Global;
use std::sync::Wait;
use std::test::Fail;
use std::thread;
use std::thread::Threads;

/// Passes a file of `blocks` blocks through a relay of this capacity.
fn pass_through<H: Threads + Wait + Copy + Send + 'static>(
    rt: &H,
    alloc: Global,
    capacity: u32,
    blocks: u64,
    by_batches: bool,
) -> Result<Passed, Fail>
    requires { blocks < 50000 }
{
    let ends = relay(alloc, capacity)?;
    Ok(pass_file(rt, alloc, ends, blocks, by_batches))
}

#[test]
fn blocks_through_one_place(rt: HostRuntime) -> Result<(), Fail> {
    let none = pass_through(&rt, rt.alloc(), 1, 0, false)?;
    let many = pass_through(&rt, rt.alloc(), 1, 20_000, false)?;
    let by_batches = pass_through(&rt, rt.alloc(), 1, 2000, true)?;
    assert!(rt;
        none == Passed::Whole(2)
            && many == Passed::Whole(20_002)
            && by_batches == Passed::Whole(2002)
    );
    Ok(())
}

/// Batches are given back alone, or up to eight together.
#[test]
fn blocks_through_many_places(rt: HostRuntime) -> Result<(), Fail> {
    for capacity in [2, 7, 8, 12, 16, 17, 40, 1024] {
        let one_by_one = pass_through(&rt, rt.alloc(), capacity, 3000, false)?;
        let by_batches = pass_through(&rt, rt.alloc(), capacity, 3000, true)?;
        assert!(rt; one_by_one == Passed::Whole(3002) && by_batches == one_by_one);
    }
    Ok(())
}

/// Takes one event of a new relay, and returns whether it is the opening.
fn take_first<R: Wait>(rt: &R, mut tap: Tap) -> bool
    requires { tap.taken ≡ [] }
{
    let is_opened = takes_opened(rt, &mut tap);
    drop(tap);
    is_opened
}

#[test]
fn a_tap_moves_to_a_thread(rt: HostRuntime) -> Result<(), Fail> {
    let (feed, tap) = relay(rt.alloc(), 1)?;
    let taker = thread::spawn(&rt, move || take_first(&rt, tap))?;
    let is_sent = send_and_leave(&rt, rt.alloc(), feed);
    assert!(rt; taker.join(&rt) && is_sent);
    Ok(())
}

/// Sends blocks, and returns whether all were taken.
fn sends_blocks<R: Wait>(rt: &R, alloc: Global, mut feed: Feed) -> bool
    requires { feed.sent ≡ [] }
{
    let is_sent = send_blocks(rt, alloc, &mut feed, 3000);
    drop(feed);
    is_sent
}

/// Takes a batch and keeps it, so that its memory does not come back. Returns whether there was one.
fn keeps_batch<R: Wait>(rt: &R, tap: &mut Tap, kept: &mut Vec<Batch>) -> bool {
    if tap.ended() {
        return false;
    }
    match tap.take_batch(rt) {
        Ok(batch) => kept.push(batch).is_ok(),
        Err(_) => false,
    }
}

/// A relay of one message has memory for three batches, which are kept. So the feed waits for memory until the tap is dropped.
#[test]
fn a_feed_that_waits_for_memory_ends_with_its_tap(rt: HostRuntime) -> Result<(), Fail> {
    let alloc: Global = rt.alloc();
    let (feed, mut tap) = relay(alloc, 1)?;
    let mut kept = Vec::new(alloc);
    let sender = thread::spawn(&rt, move || sends_blocks(&rt, alloc, feed))?;
    let are_kept = keeps_batch(&rt, &mut tap, &mut kept)
        && keeps_batch(&rt, &mut tap, &mut kept)
        && keeps_batch(&rt, &mut tap, &mut kept);
    drop(tap);
    assert!(rt; !sender.join(&rt) && are_kept);
    Ok(())
}
