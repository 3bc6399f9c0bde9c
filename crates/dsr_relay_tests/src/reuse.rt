//! Blocks that are exchanged for stale ones of a batch that came back.
ghost use Rattle.std.specs.Prelude.{◌≡◌, ◌+◌, ◌<◌, ◌≤◌, [], true, false, length};
ghost use Rattle.dsr_events.specs.meaning.Orderly.{has_ended};

use crate::events::{LONG_TITLE, are_right, block};
use crate::sending::{flushes, relay, send_block, send_blocks};
use crate::taking::takes_batch;
use dsr_events::Block;
use dsr_relay::{Feed, Tap};
use std::alloc::Global;
use std::sync::Wait;
use std::test::Fail;

/// Sends a block as that of the next place if the feed has an old one for it. Returns the number of the old one, 0 if that
/// is empty.
fn exchanged_for<R: Wait>(rt: &R, feed: &mut Feed, block: &mut Block) -> Option<u64>
    requires going { has_ended feed.old.sent ≡ false }
    requires few { (0 < length feed.old.sent) × (length feed.old.sent < 100000) }
    ensures name { feed.new.name ≡ feed.old.name }
    ensures going { has_ended feed.new.sent ≡ false }
    ensures few { length feed.new.sent ≤ length feed.old.sent + 1 }
    ensures some { 0 < length feed.new.sent }
{
    let place = feed.sent_count();
    if !feed.send_block(rt, place, block) {
        return None;
    }
    Some(block.id.as_str().parse::<u64>().unwrap_or(0))
}

/// The same with the block that `block` makes for that place.
fn exchanged<R: Wait>(rt: &R, alloc: Global, feed: &mut Feed) -> Option<u64>
    requires going { has_ended feed.old.sent ≡ false }
    requires few { (0 < length feed.old.sent) × (length feed.old.sent < 100000) }
    ensures name { feed.new.name ≡ feed.old.name }
    ensures going { has_ended feed.new.sent ≡ false }
    ensures few { length feed.new.sent ≤ length feed.old.sent + 1 }
    ensures some { 0 < length feed.new.sent }
{
    let mut block = block(alloc, feed.sent_count(), LONG_TITLE).ok()?;
    let number = exchanged_for(rt, feed, &mut block);
    drop(block);
    number
}

/// Takes a batch of five blocks from this place on, and returns whether all were right.
fn takes_blocks<R: Wait>(rt: &R, tap: &mut Tap, place: u64) -> bool
    requires { has_ended tap.old.taken ≡ false }
    ensures { tap.new.name ≡ tap.old.name }
{
    let Ok(batch) = tap.take_batch(rt) else {
        return false;
    };
    let right = batch.events().len() == 5 && are_right(batch.events(), place);
    tap.give_back(rt, batch);
    right
}

/// Sends a batch of an opening and three blocks, the last two of which are exchanged for empty ones, since the feed has no
/// old ones yet. Returns whether all of that is so.
fn first_blocks_are_exchanged<R: Wait>(
    rt: &R,
    alloc: Global,
    feed: &mut Feed,
    tap: &mut Tap,
) -> bool
    requires { (feed.old.sent ≡ []) × (tap.old.taken ≡ []) }
    ensures name { tap.new.name ≡ tap.old.name }
    ensures going { has_ended feed.new.sent ≡ false }
    ensures few { length feed.new.sent ≤ 4 }
    ensures some { result ≡ true → 0 < length feed.new.sent }
{
    send_blocks(rt, alloc, feed, 1)
        && exchanged(rt, alloc, feed) == Some(0)
        && exchanged(rt, alloc, feed) == Some(0)
        && flushes(rt, feed)
        && takes_batch(rt, tap) == Some(4)
}

/// Sends a batch of five blocks. The first one is not exchanged for the opening of the batch that came back; the others are
/// exchanged for its blocks, and then for an empty one. Returns whether all of that is so.
fn later_blocks_are_exchanged<R: Wait>(rt: &R, alloc: Global, feed: &mut Feed) -> bool
    requires going { has_ended feed.old.sent ≡ false }
    requires few { (0 < length feed.old.sent) × (length feed.old.sent ≤ 4) }
{
    exchanged(rt, alloc, feed).is_none()
        && send_block(rt, alloc, feed, LONG_TITLE)
        && exchanged(rt, alloc, feed) == Some(1)
        && exchanged(rt, alloc, feed) == Some(2)
        && exchanged(rt, alloc, feed) == Some(3)
        && exchanged(rt, alloc, feed) == Some(0)
        && flushes(rt, feed)
}

/// Whether a block is exchanged for an empty one in the first round of a batch and for a stale one after that, but not for
/// the opening.
fn blocks_are_exchanged<R: Wait>(rt: &R, alloc: Global, feed: &mut Feed, tap: &mut Tap) -> bool
    requires { (feed.old.sent ≡ []) × (tap.old.taken ≡ []) }
{
    first_blocks_are_exchanged(rt, alloc, feed, tap)
        && later_blocks_are_exchanged(rt, alloc, feed)
        && !tap.ended()
        && takes_blocks(rt, tap, 4)
}

#[test]
fn a_block_is_sent_for_a_stale_one(rt: HostRuntime) -> Result<(), Fail> {
    let (mut feed, mut tap) = relay(rt.alloc(), 1)?;
    let is_right = blocks_are_exchanged(&rt, rt.alloc(), &mut feed, &mut tap);
    drop(feed);
    drop(tap);
    assert!(rt; is_right);
    Ok(())
}

/// Whether the block that fills a batch is exchanged too, and sends the batch.
fn the_last_block_is_exchanged<R: Wait>(
    rt: &R,
    alloc: Global,
    feed: &mut Feed,
    tap: &mut Tap,
) -> bool
    requires { (feed.old.sent ≡ []) × (tap.old.taken ≡ []) }
{
    send_blocks(rt, alloc, feed, 30)
        && exchanged(rt, alloc, feed) == Some(0)
        && takes_batch(rt, tap) == Some(32)
}

#[test]
fn a_block_that_fills_a_batch_is_exchanged(rt: HostRuntime) -> Result<(), Fail> {
    let (mut feed, mut tap) = relay(rt.alloc(), 1)?;
    let is_right = the_last_block_is_exchanged(&rt, rt.alloc(), &mut feed, &mut tap);
    drop(feed);
    drop(tap);
    assert!(rt; is_right);
    Ok(())
}

/// Sends a batch for which many bytes were read, some of them before its first event, takes it and gives it back. Returns
/// whether its blocks were freed: the next block is exchanged for an empty one.
fn blocks_are_freed<R: Wait>(rt: &R, alloc: Global, feed: &mut Feed, tap: &mut Tap) -> bool
    requires { (feed.old.sent ≡ []) × (tap.old.taken ≡ []) }
{
    feed.note_bytes(128 * 1024);
    if !send_blocks(rt, alloc, feed, 2) {
        return false;
    }
    feed.note_bytes(128 * 1024);
    feed.batch_bytes() == 256 * 1024
        && flushes(rt, feed)
        && feed.batch_bytes() == 0
        && takes_batch(rt, tap) == Some(3)
        && send_block(rt, alloc, feed, LONG_TITLE)
        && exchanged(rt, alloc, feed) == Some(0)
}

#[test]
fn a_block_of_many_bytes_is_freed(rt: HostRuntime) -> Result<(), Fail> {
    let (mut feed, mut tap) = relay(rt.alloc(), 1)?;
    let is_right = blocks_are_freed(&rt, rt.alloc(), &mut feed, &mut tap);
    drop(feed);
    drop(tap);
    assert!(rt; is_right);
    Ok(())
}
