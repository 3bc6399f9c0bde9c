//! Batches that one thread sends and takes.
ghost use Rattle.std.specs.Prelude.{◌≡◌, ◌+◌, ◌*◌, ◌<◌, ◌≤◌, [], true, false, length};
ghost use Rattle.dsr_events.specs.meaning.Orderly.{has_ended};

use crate::events::SHORT_TITLE;
use crate::sending::{flushes, relay, send_block, send_blocks, send_opened};
use crate::taking::takes_ready;
use dsr_relay::{Feed, Tap};
use std::alloc::Global;
use std::sync::Wait;
use std::test::Fail;

/// Sends forty events, and takes what is there before that, then twice, and then after a flush. Returns how many events each
/// of these gave.
fn ready_events<R: Wait>(
    rt: &R,
    alloc: Global,
    feed: &mut Feed,
    tap: &mut Tap,
) -> Option<[usize; 4]>
    requires { feed.old.sent ≡ [] }
{
    let before = takes_ready(rt, tap)?;
    if !send_blocks(rt, alloc, feed, 39) {
        return None;
    }
    let sent = takes_ready(rt, tap)?;
    let again = takes_ready(rt, tap)?;
    if !flushes(rt, feed) {
        return None;
    }
    Some([before, sent, again, takes_ready(rt, tap)?])
}

#[test]
fn what_is_there_is_taken(rt: HostRuntime) -> Result<(), Fail> {
    let (mut feed, mut tap) = relay(rt.alloc(), 2)?;
    let events = ready_events(&rt, rt.alloc(), &mut feed, &mut tap);
    drop(feed);
    drop(tap);
    assert_eq!(rt; events, Some([0, 32, 0, 8]));
    Ok(())
}

/// Sends so many blocks, and takes the messages once all are sent. Returns whether each of these has 32 events.
fn fills_and_empties<R: Wait>(
    rt: &R,
    alloc: Global,
    feed: &mut Feed,
    tap: &mut Tap,
    blocks: u32,
    messages: u32,
) -> bool
    requires blocks { blocks < 40000 }
    requires going { has_ended feed.old.sent ≡ false }
    requires few { (0 < length feed.old.sent) × (length feed.old.sent < 60000) }
    ensures going { has_ended feed.new.sent ≡ false }
    ensures few { length feed.new.sent ≤ length feed.old.sent + blocks }
    ensures some { result ≡ true → 0 < length feed.new.sent }
{
    for _n in 0..blocks {
        if !send_block(rt, alloc, feed, SHORT_TITLE) {
            return false;
        }
    }
    for _ in 0..messages {
        if takes_ready(rt, tap) != Some(32) {
            return false;
        }
    }
    true
}

/// Fills a new relay of this capacity without a take, empties it, and fills a half of it twice more. Returns whether all of
/// that is so.
fn is_filled<R: Wait>(rt: &R, alloc: Global, feed: &mut Feed, tap: &mut Tap, capacity: u32) -> bool
    requires capacity { (0 < capacity) × (capacity ≤ 1024) }
    requires new { feed.old.sent ≡ [] }
{
    let half = capacity / 2;
    send_opened(rt, alloc, feed)
        && fills_and_empties(rt, alloc, feed, tap, 32 * capacity - 1, capacity)
        && fills_and_empties(rt, alloc, feed, tap, 32 * half, half)
        && fills_and_empties(rt, alloc, feed, tap, 32 * half, half)
        && takes_ready(rt, tap) == Some(0)
}

/// As many messages as the capacity are sent while nothing is taken, and later the half of them twice: the memory comes back,
/// but for the few batches that wait to be given back together.
#[test]
fn a_full_channel_keeps_nobody_waiting(rt: HostRuntime) -> Result<(), Fail> {
    for capacity in [1, 2, 15, 16, 17, 1024] {
        let (mut feed, mut tap) = relay(rt.alloc(), capacity)?;
        let is_filled = is_filled(&rt, rt.alloc(), &mut feed, &mut tap, capacity);
        drop(feed);
        drop(tap);
        assert!(rt; is_filled, "capacity {capacity}");
    }
    Ok(())
}
