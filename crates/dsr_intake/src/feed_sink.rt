//! The feed of a relay as the sink of a file's events.
ghost use Rattle.std.specs.Prelude.{◌≡◌};

use dsr_file::{Event, Sink};
use dsr_records::Block;
use dsr_relay::{Feed, Name};
use std::marker::Model;
use std::sync::Wait;

/// A batch is sent as soon as more than this many bytes of the file were read for it.
const MOST_WAITING: usize = 64 * 1024;

/// Sends the batch if many bytes were read for it, so that what waits in a relay is bounded in bytes too. If the tap is
/// gone, the batch may stay unsent.
fn send_large_batch<H: Wait>(rt: &H, feed: &mut Feed)
    ensures sent { feed.new.sent ≡ feed.old.sent }
    ensures name { feed.new.name ≡ feed.old.name }
{
    if feed.batch_bytes() > MOST_WAITING {
        let _ = feed.flush(rt);
    }
}

/// A sink that sends each event on a feed. To contracts it is the feed: its list is what was sent, its name the relay's.
#[derive(Drop)]
pub struct FeedSink<'a, H> {
    rt: &'a H,
    feed: Feed,
}

impl<'a, H> Model for FeedSink<'a, H> {
    ghost use Rattle.dsr_relay.specs.layer.Views.{FeedView};

    ghost Value = { FeedView };

    ghost view = { λ s. s.feed };
}

impl<'a, H> FeedSink<'a, H> {
    /// A sink that sends on this feed.
    pub fn new(rt: &'a H, feed: Feed) -> FeedSink<'a, H>
        ensures { result ≡ feed }
    {
        FeedSink { rt, feed }
    }

    /// Returns the feed, which has sent what was put.
    pub fn into_feed(self) -> Feed
        ensures { result ≡ self.entry }
    {
        let FeedSink { rt: _, feed } = self;
        feed
    }
}

impl<'a, H: Wait> Sink for FeedSink<'a, H> {
    type Name = Name;

    ghost list = { λ s. s.sent };

    ghost name = { λ s. s.name };

    /// Sends the event, or returns it if the tap is gone.
    #[inline(always)]
    fn put(&mut self, event: Event) -> Result<(), Event> {
        self.feed.send(self.rt, event)
    }

    /// Sends the event of a block where the feed has memory of an earlier block for it.
    #[inline(always)]
    fn put_block(&mut self, place: u64, block: &mut Block) -> bool {
        self.feed.send_block(self.rt, place, block)
    }

    /// Counts the bytes, and sends the batch once there are many.
    fn note_bytes(&mut self, bytes: usize) {
        self.feed.note_bytes(bytes);
        send_large_batch(self.rt, &mut self.feed);
    }
}
