//! What a test sends: the opening of a file, its blocks and its end.
ghost use Rattle.std.specs.Prelude.{◌≡◌, ◌+◌, ◌<◌, ◌≤◌, true, false, [], length, IfOk};
ghost use Rattle.dsr_events.specs.meaning.Orderly.{has_ended, is_ended};
ghost use Rattle.dsr_events.specs.layer.Orderly.{MayStandAt};

use crate::events::{LONG_TITLE, block, ended, is_end, opening};
use dsr_events::{Event, EventPart};
use dsr_relay::{Feed, Tap, open_relay};
use std::alloc::Global;
use std::sync::Wait;
use std::test::Fail;

/// A new relay.
///
/// # Errors
///
/// A failure of the test: the capacity is not one of 1 to 1,024, or out of memory.
pub fn relay(alloc: Global, capacity: u32) -> Result<(Feed, Tap), Fail>
    ensures { IfOk result (λ r. (r.1.name ≡ r.0.name) × (r.0.sent ≡ []) × (r.0.batch ≡ [])
        × (r.1.taken ≡ []) × (r.1.held ≡ [])) }
{
    match open_relay(alloc, capacity) {
        Ok(ends) => Ok(ends),
        Err(_) => Err(Fail::new("no relay")),
    }
}

/// Sends a part with the next place, and returns whether it was taken. If the tap is gone, nothing changes.
pub fn send_part<R: Wait>(rt: &R, feed: &mut Feed, part: EventPart) -> bool
    requires going { has_ended feed.old.sent ≡ false }
    requires few { length feed.old.sent < 100000 }
    requires part { MayStandAt (length feed.old.sent) part }
    ensures name { feed.new.name ≡ feed.old.name }
    ensures sent { result ≡ true → (length feed.new.sent ≡ length feed.old.sent + 1)
        × (has_ended feed.new.sent ≡ is_ended part) }
    ensures refused { result ≡ false → feed.new ≡ feed.old }
{
    let place = feed.sent_count();
    let refused = feed.send(rt, Event { place, part }).err();
    let is_sent = refused.is_none();
    drop(refused);
    is_sent
}

/// Sends the opening, and returns whether it was taken.
pub fn send_opened<R: Wait>(rt: &R, alloc: Global, feed: &mut Feed) -> bool
    requires { feed.old.sent ≡ [] }
    ensures name { feed.new.name ≡ feed.old.name }
    ensures going { has_ended feed.new.sent ≡ false }
    ensures few { length feed.new.sent ≤ 1 }
    ensures sent { result ≡ true → length feed.new.sent ≡ 1 }
{
    match opening(alloc) {
        Some(opening) => send_part(rt, feed, EventPart::Opened(opening)),
        None => false,
    }
}

/// Sends the block of the next place with this title, and returns whether it was taken.
pub fn send_block<R: Wait>(rt: &R, alloc: Global, feed: &mut Feed, title: &str) -> bool
    requires going { has_ended feed.old.sent ≡ false }
    requires few { (0 < length feed.old.sent) × (length feed.old.sent < 100000) }
    ensures name { feed.new.name ≡ feed.old.name }
    ensures going { has_ended feed.new.sent ≡ false }
    ensures few { length feed.new.sent ≤ length feed.old.sent + 1 }
    ensures sent { result ≡ true → length feed.new.sent ≡ length feed.old.sent + 1 }
{
    match block(alloc, feed.sent_count(), title) {
        Ok(block) => send_part(rt, feed, EventPart::Block(block)),
        Err(_) => false,
    }
}

/// Sends Opened, then blocks, and returns whether all were taken.
pub fn send_blocks<R: Wait>(rt: &R, alloc: Global, feed: &mut Feed, blocks: u64) -> bool
    requires empty { feed.old.sent ≡ [] }
    requires few { blocks < 50000 }
    ensures name { feed.new.name ≡ feed.old.name }
    ensures going { has_ended feed.new.sent ≡ false }
    ensures few { length feed.new.sent ≤ blocks + 1 }
    ensures sent { result ≡ true → length feed.new.sent ≡ blocks + 1 }
{
    if !send_opened(rt, alloc, feed) {
        return false;
    }
    for _n in 0..blocks {
        if !send_block(rt, alloc, feed, LONG_TITLE) {
            return false;
        }
    }
    true
}

/// Sends Ended, and returns whether it was taken. If the tap is gone, nothing changes.
pub fn send_ended<R: Wait>(rt: &R, feed: &mut Feed) -> bool
    requires going { has_ended feed.old.sent ≡ false }
    requires few { length feed.old.sent < 100000 }
    ensures name { feed.new.name ≡ feed.old.name }
{
    send_part(rt, feed, ended())
}

/// Flushes, and returns whether the batch was sent.
pub fn flushes<R: Wait>(rt: &R, feed: &mut Feed) -> bool
    ensures sent { feed.new.sent ≡ feed.old.sent }
    ensures name { feed.new.name ≡ feed.old.name }
{
    feed.flush(rt).is_ok()
}

/// Sends the opening and drops the feed.
pub fn send_and_leave<R: Wait>(rt: &R, alloc: Global, mut feed: Feed) -> bool
    requires { feed.sent ≡ [] }
{
    let is_sent = send_opened(rt, alloc, &mut feed) && flushes(rt, &mut feed);
    drop(feed);
    is_sent
}

/// Sends a whole file of `blocks` blocks, and returns the feed. If memory is refused the file has fewer blocks, and ends all
/// the same, so that nobody waits for more.
pub fn send_file<R: Wait>(rt: &R, alloc: Global, mut feed: Feed, blocks: u64) -> Feed
    requires empty { feed.sent ≡ [] }
    requires few { blocks < 50000 }
    ensures { result.name ≡ feed.name }
{
    let _sent = send_blocks(rt, alloc, &mut feed, blocks);
    if send_ended(rt, &mut feed) {
        let _ = feed.flush(rt);
    }
    feed
}

/// Sends Ended after the tap is gone, and returns whether it was handed back.
pub fn ended_comes_back<R: Wait>(rt: &R, feed: &mut Feed, place: u64) -> bool
    requires going { has_ended feed.old.sent ≡ false }
    requires few { length feed.old.sent < 100000 }
    ensures { result ≡ true → feed.new ≡ feed.old }
{
    let next = feed.sent_count();
    let part = ended();
    match feed.send(rt, Event { place: next, part }) {
        Ok(()) => false,
        Err(event) => {
            let is_same = is_end(&event, place);
            drop(event);
            is_same
        }
    }
}
