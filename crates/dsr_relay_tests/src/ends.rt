//! The two ends of a relay: what a call returns when the other end is gone.
ghost use Rattle.std.specs.Prelude.{◌≡◌, ◌<◌, ◌≤◌, false, length};
ghost use Rattle.dsr_events.specs.meaning.Orderly.{has_ended};

use crate::events::LONG_TITLE;
use crate::sending::{ended_comes_back, flushes, relay, send_and_leave, send_block, send_opened};
use crate::taking::{takes_opened, takes_place};
use dsr_relay::Feed;
use std::alloc::Global;
use std::sync::Wait;
use std::test::Fail;

#[test]
fn a_dropped_feed_closes(rt: HostRuntime) -> Result<(), Fail> {
    let (feed, mut tap) = relay(rt.alloc(), 1)?;
    let is_sent = send_and_leave(&rt, rt.alloc(), feed);
    let is_opened = takes_opened(&rt, &mut tap);
    let is_closed = !tap.ended() && takes_place(&rt, &mut tap).is_none();
    drop(tap);
    assert!(rt; is_sent && is_opened && is_closed);
    Ok(())
}

/// Whether a batch of a block is not sent, and an Ended comes back each time, since the tap is gone.
fn all_comes_back<R: Wait>(rt: &R, alloc: Global, feed: &mut Feed) -> bool
    requires going { has_ended feed.old.sent ≡ false }
    requires some { 0 < length feed.old.sent }
    requires few { length feed.old.sent ≤ 1 }
{
    send_block(rt, alloc, feed, LONG_TITLE)
        && !flushes(rt, feed)
        && ended_comes_back(rt, feed, 2)
        && ended_comes_back(rt, feed, 2)
        && feed.sent_count() == 2
}

#[test]
fn a_closed_tap_hands_back(rt: HostRuntime) -> Result<(), Fail> {
    let (mut feed, tap) = relay(rt.alloc(), 2)?;
    let is_sent = send_opened(&rt, rt.alloc(), &mut feed) && flushes(&rt, &mut feed);
    drop(tap);
    let comes_back = is_sent && all_comes_back(&rt, rt.alloc(), &mut feed);
    drop(feed);
    assert!(rt; comes_back);
    Ok(())
}
