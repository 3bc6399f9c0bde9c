//! Relays where allocations are refused.
ghost use Rattle.std.specs.Prelude.{◌≡◌, ◌+◌, ◌<◌, ◌≤◌, [], true, false, length};
ghost use Rattle.dsr_events.specs.meaning.Orderly.{has_ended};

use crate::events::SHORT_TITLE;
use crate::passing::{Passed, pass_file};
use crate::sending::{flushes, send_block, send_opened};
use crate::taking::{takes_batch, takes_opened};
use dsr_relay::{Feed, Tap, open_relay};
use std::alloc::Global;
use std::sync::Wait;

/// Sends a block that allocates nothing, takes it and gives it back. Returns whether all of that succeeded.
fn passes_block<R: Wait>(rt: &R, alloc: Global, feed: &mut Feed, tap: &mut Tap) -> bool
    requires going { has_ended feed.old.sent ≡ false }
    requires few { (0 < length feed.old.sent) × (length feed.old.sent < 100000) }
    ensures going { has_ended feed.new.sent ≡ false }
    ensures few { length feed.new.sent ≤ length feed.old.sent + 1 }
    ensures sent { result ≡ true → length feed.new.sent ≡ length feed.old.sent + 1 }
{
    if !send_block(rt, alloc, feed, SHORT_TITLE) || !flushes(rt, feed) || tap.ended() {
        return false;
    }
    takes_batch(rt, tap) == Some(1)
}

/// Sends and takes `blocks` blocks, one after another. Returns whether all of that succeeded.
fn passes_blocks<R: Wait>(
    rt: &R,
    alloc: Global,
    feed: &mut Feed,
    tap: &mut Tap,
    blocks: u64,
) -> bool
    requires going { has_ended feed.old.sent ≡ false }
    requires some { 0 < length feed.old.sent }
    requires few { length feed.old.sent + blocks < 50000 }
{
    for _n in 0..blocks {
        if !passes_block(rt, alloc, feed, tap) {
            return false;
        }
    }
    true
}

/// Flushes and takes the opening, and then passes a hundred blocks.
fn passes_file<R: Wait>(rt: &R, alloc: Global, feed: &mut Feed, tap: &mut Tap) -> bool
    requires going { has_ended feed.old.sent ≡ false }
    requires opened { length feed.old.sent ≡ 1 }
    requires new { tap.old.taken ≡ [] }
{
    flushes(rt, feed) && takes_opened(rt, tap) && passes_blocks(rt, alloc, feed, tap, 100)
}

/// Once a relay is open nothing in it allocates: if any one allocation is refused, all that is sent is received.
#[test]
fn sends_take_no_memory(rt: HostRuntime) {
    let alloc: Global = rt.alloc();
    let Ok((mut feed, mut tap)) = open_relay(alloc, 1) else {
        return;
    };
    let is_right = if send_opened(&rt, alloc, &mut feed) && feed.sent_count() == 1 {
        passes_file(&rt, alloc, &mut feed, &mut tap)
    } else {
        true
    };
    drop(feed);
    drop(tap);
    assert!(rt; is_right);
}

/// A file goes from thread to thread. If an allocation is refused it has fewer blocks, and what was
/// sent is taken.
#[test]
fn a_file_goes_through_or_no_memory(rt: HostRuntime) {
    let alloc: Global = rt.alloc();
    if let Ok(ends) = open_relay(alloc, 1) {
        assert!(rt; pass_file(&rt, alloc, ends, 70, true) != Passed::Broken);
    }
}
