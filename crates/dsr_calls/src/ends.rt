//! The ends of a relay, as long as they are there.
ghost use Rattle.std.specs.Prelude.{◌≡◌, ◌∷◌, ◌++◌, [], ℕ, true, false};
ghost use Rattle.dsr_events.specs.meaning.Orderly.{has_ended};
ghost use Rattle.dsr_events.specs.layer.Orderly.{IsOrderly, MayStandAt};

use dsr_events::{Event, EventPart};
use dsr_relay::{Closed, Feed, Tap};
use std::sync::Wait;

/// The sending end, and whether Ended was sent.
#[derive(Drop)]
pub struct Sender {
    pub feed: Feed,
    pub ended: bool,
    ghost going: { ended ≡ false → has_ended feed.sent ≡ false },
}

/// Whether an event of this content may have this place.
fn may_stand(place: u64, part: &EventPart) -> bool
    ensures { result ≡ true → MayStandAt place part.now }
{
    match part {
        EventPart::Opened(_) => place == 0,
        EventPart::Block(_) => place > 0,
        EventPart::Ended(_) => true,
    }
}

impl Sender {
    /// Whether the events sent and this one are in order.
    #[tactic(auto, using(dsr_events::proofs::OrderlyLaws::orderly_push))]
    fn may_send(&self, event: &Event) -> bool
        ensures going { result ≡ true → has_ended self.now.feed.sent ≡ false }
        ensures orderly { result ≡ true → IsOrderly (self.now.feed.sent ++ event.now ∷ []) }
    {
        let place = self.feed.sent_count();
        if self.ended || event.place != place {
            return false;
        }
        may_stand(place, &event.part)
    }

    /// Sends an event. It comes back if the tap is gone, and if it is not the next one.
    pub fn send<R: Wait>(&mut self, rt: &R, event: Event) -> Result<(), Event>
        ensures { self.new.feed.name ≡ self.old.feed.name }
    {
        if !self.may_send(&event) {
            return Err(event);
        }
        let ended = event.part.is_ended();
        self.feed.send(rt, event)?;
        self.ended = ended;
        Ok(())
    }

    /// Sends what waits in the batch.
    pub fn flush<R: Wait>(&mut self, rt: &R) -> Result<(), Closed>
        ensures { self.new.feed.name ≡ self.old.feed.name }
    {
        self.feed.flush(rt)
    }
}

/// Takes the next event, if Ended was not taken and the feed is not gone with nothing left.
pub fn take<R: Wait>(rt: &R, tap: &mut Tap) -> Option<Event>
    ensures { tap.new.name ≡ tap.old.name }
{
    if tap.ended() {
        return None;
    }
    tap.take(rt).ok()
}

/// The two ends of one relay.
#[derive(Drop)]
pub struct Both {
    pub sender: Sender,
    pub tap: Tap,
    ghost one_relay: { tap.name ≡ sender.feed.name },
}

/// What is there of a relay.
#[derive(Drop)]
pub enum Ends {
    /// No end.
    Neither,
    /// Both ends.
    Both(Both),
    /// The sending end.
    Sender(Sender),
    /// The receiving end.
    Tap(Tap),
}

impl Ends {
    /// Sends an event. It comes back if an end is gone, and if it is not the next one.
    pub fn send<R: Wait>(&mut self, rt: &R, event: Event) -> Result<(), Event> {
        match self {
            Ends::Both(both) => both.sender.send(rt, event),
            Ends::Sender(sender) => sender.send(rt, event),
            Ends::Neither | Ends::Tap(_) => Err(event),
        }
    }

    /// Sends what waits in the batch. Returns whether it was sent.
    pub fn flush<R: Wait>(&mut self, rt: &R) -> bool {
        match self {
            Ends::Both(both) => both.sender.flush(rt).is_ok(),
            Ends::Sender(sender) => sender.flush(rt).is_ok(),
            Ends::Neither | Ends::Tap(_) => false,
        }
    }

    /// Takes an event; None if there is none left.
    pub fn take<R: Wait>(&mut self, rt: &R) -> Option<Event> {
        match self {
            Ends::Both(both) => take(rt, &mut both.tap),
            Ends::Tap(tap) => take(rt, tap),
            Ends::Neither | Ends::Sender(_) => None,
        }
    }

    /// The feed, if it is there.
    pub fn feed(&self) -> Option<&Feed> {
        match self {
            Ends::Both(both) => Some(&both.sender.feed),
            Ends::Sender(sender) => Some(&sender.feed),
            Ends::Neither | Ends::Tap(_) => None,
        }
    }

    /// The tap, if it is there.
    pub fn tap(&self) -> Option<&Tap> {
        match self {
            Ends::Both(both) => Some(&both.tap),
            Ends::Tap(tap) => Some(tap),
            Ends::Neither | Ends::Sender(_) => None,
        }
    }

    /// The ends without the feed.
    pub fn without_feed(self) -> Ends {
        match self {
            Ends::Both(both) => {
                let Both { sender, tap } = both;
                drop(sender);
                Ends::Tap(tap)
            }
            Ends::Sender(sender) => {
                drop(sender);
                Ends::Neither
            }
            ends => ends,
        }
    }

    /// The ends without the tap.
    pub fn without_tap(self) -> Ends {
        match self {
            Ends::Both(both) => {
                let Both { sender, tap } = both;
                drop(tap);
                Ends::Sender(sender)
            }
            Ends::Tap(tap) => {
                drop(tap);
                Ends::Neither
            }
            ends => ends,
        }
    }

    /// Joins both ends. Returns how many events were taken, and how many are left.
    pub fn join(self) -> Option<(u64, u64)> {
        match self {
            Ends::Both(both) => {
                let Both { sender, tap } = both;
                let Sender { feed, ended: _ } = sender;
                let settled = tap.take_in(feed);
                Some((settled.taken, settled.left))
            }
            ends => {
                drop(ends);
                None
            }
        }
    }
}
