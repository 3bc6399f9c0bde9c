//! The receiving end of a relay.
ghost use Rattle.std.specs.Prelude.{◌≡◌, ◌+◌, ◌*◌, ◌<◌, ◌≤◌, true, false, [], ◌∷◌, ◌++◌, length, IfSome, IfNone, IfOk, OnErr};
ghost use Rattle.dsr_events.specs.meaning.Orderly.{has_ended};
ghost use Rattle.dsr_events.specs.layer.Orderly.{IsOrderly};

use crate::batch::Batch;
use crate::channel::{Closed, take_next};
use crate::feed::Feed;
use crate::memory::Returns;
use crate::rule::{InOrder, Log, Meet, Rest};
use crate::settled::Settled;
use crossbeam_channel::{Pass, RuledReceiver};
use dsr_events::Event;
use std::marker::Model;
use std::mem;
use std::snapshot::Snapshot;
use std::sync::Wait;

/// The receiving end of a relay. Contracts see its name, the events taken, and the held rest of the last message.
pub struct Tap {
    pub(crate) receiver: RuledReceiver<Batch, Log, InOrder>,
    pub(crate) pass: Pass<Batch, Log>,
    pub(crate) held: Batch,
    pub(crate) count: u64,
    pub(crate) ended: bool,
    pub(crate) returns: Returns,
}

/// Written out, so that dropping one is a call: a derived drop is proved anew wherever it happens.
impl Drop for Tap {
    fn drop(self) {
        let Tap {
            receiver: _,
            pass: _,
            held: _,
            count: _,
            ended: _,
            returns: _,
        } = self;
    }
}

impl Model for Tap {
    ghost use Rattle.dsr_relay.specs.layer.Views.{TapView};
    ghost use Rattle.dsr_relay.specs.inner.Taps.{tap_view, IsTap};

    ghost Value = { TapView };

    ghost view = { tap_view };

    ghost invariant = { IsTap };
}

impl Tap {
    /// Takes the next event. If there is none yet, the call waits. Condition: Ended was not taken.
    ///
    /// # Errors
    ///
    /// `Closed`: the feed is gone and nothing is left; nothing changes.
    pub fn take<R: Wait>(&mut self, rt: &R) -> Result<Event, Closed>
        requires { has_ended self.old.taken ≡ false }
        ensures taken { IfOk result (λ e. self.new ≡ record self.old {
          taken = self.old.taken ++ e ∷ [];
          held = self.new.held;
        }) }
        ensures place { IfOk result (λ e. e.place ≡ length self.old.taken) }
        ensures held { IfOk result (λ e. 0 < length self.old.held
            → self.old.held ≡ e ∷ self.new.held) }
        ensures closed { OnErr result ((self.new ≡ self.old) × (self.old.held ≡ [])) }
        ensures orderly { IsOrderly self.new.taken }
    {
        match self.take_held() {
            Some(event) => Ok(event),
            None => {
                self.let_go(rt);
                self.take_first(rt)
            }
        }
    }

    /// Takes the next held event of the last message.
    fn take_held(&mut self) -> Option<Event>
        requires { has_ended self.old.taken ≡ false }
        ensures taken { IfSome result (λ e. self.new ≡ record self.old {
          taken = self.old.taken ++ e ∷ [];
          held = self.new.held;
        }) }
        ensures place { IfSome result (λ e. e.place ≡ length self.old.taken) }
        ensures held { IfSome result (λ e. self.old.held ≡ e ∷ self.new.held) }
        ensures none { IfNone result ((self.new ≡ self.old) × (self.old.held ≡ [])) }
        ensures orderly { IsOrderly self.new.taken }
    {
        let event = self.held.take_first()?;
        self.count = event.place + 1;
        self.ended = event.part.is_ended();
        Some(event)
    }

    /// Receives a message and takes its first event.
    fn take_first<R: Wait>(&mut self, rt: &R) -> Result<Event, Closed>
        requires going { has_ended self.old.taken ≡ false }
        requires none_held { self.old.held ≡ [] }
        ensures taken { IfOk result (λ e. self.new ≡ record self.old {
          taken = self.old.taken ++ e ∷ [];
          held = self.new.held;
        }) }
        ensures place { IfOk result (λ e. e.place ≡ length self.old.taken) }
        ensures closed { OnErr result (self.new ≡ self.old) }
        ensures orderly { IsOrderly self.new.taken }
    {
        let Some(batch) = take_next(rt, &self.receiver, &mut self.pass, true) else {
            return Err(Closed);
        };
        self.held = batch;
        let Some(event) = self.held.take_first() else {
            unreachable!()
        };
        self.count = event.place + 1;
        self.ended = event.part.is_ended();
        Ok(event)
    }

    /// Gives back the memory of the last message, all of whose events were taken, if it was not given back yet.
    #[inline(always)]
    fn let_go<R: Wait>(&mut self, rt: &R)
        requires { self.old.held ≡ [] }
        ensures { self.new ≡ self.old }
    {
        if self.held.has_room() {
            self.let_memory_go(rt);
        }
    }

    /// Gives back the memory of the last message, all of whose events were taken.
    #[inline(never)]
    fn let_memory_go<R: Wait>(&mut self, rt: &R)
        requires { self.old.held ≡ [] }
        ensures { self.new ≡ self.old }
    {
        let none = self.returns.none();
        let used = mem::replace(&mut self.held, none);
        let _ = self.returns.give(rt, used);
    }

    /// Takes the held events of the last message, or else the next message. If there is none yet, the call waits.
    /// A batch should be given back before the next one is taken, since the feed has no other memory.
    /// Condition: Ended was not taken.
    ///
    /// # Errors
    ///
    /// `Closed`: the feed is gone and nothing is left; nothing changes.
    pub fn take_batch<R: Wait>(&mut self, rt: &R) -> Result<Batch, Closed>
        requires { has_ended self.old.taken ≡ false }
        ensures taken { IfOk result (λ b. self.new ≡ record self.old {
          taken = self.old.taken ++ b;
          held = [];
        }) }
        ensures held { IfOk result (λ b. 0 < length self.old.held → b ≡ self.old.held) }
        ensures some { IfOk result (λ b. 0 < length b) }
        ensures few { IfOk result (λ b. length b ≤ 32) }
        ensures closed { OnErr result ((self.new ≡ self.old) × (self.old.held ≡ [])) }
        ensures orderly { IsOrderly self.new.taken }
    {
        if self.held.events().is_empty() {
            self.let_go(rt);
            self.take_message(rt, true).ok_or(Closed)
        } else {
            Ok(self.take_rest())
        }
    }

    /// Takes the held events of the last message, or else the next message; None if there is none, yet or at all.
    /// Condition: Ended was not taken.
    pub fn take_ready<R: Wait>(&mut self, rt: &R) -> Option<Batch>
        requires { has_ended self.old.taken ≡ false }
        ensures taken { IfSome result (λ b. self.new ≡ record self.old {
          taken = self.old.taken ++ b;
          held = [];
        }) }
        ensures held { IfSome result (λ b. 0 < length self.old.held → b ≡ self.old.held) }
        ensures some { IfSome result (λ b. 0 < length b) }
        ensures few { IfSome result (λ b. length b ≤ 32) }
        ensures none { IfNone result ((self.new ≡ self.old) × (self.old.held ≡ [])) }
        ensures orderly { IsOrderly self.new.taken }
    {
        if self.held.events().is_empty() {
            self.let_go(rt);
            self.take_message(rt, false)
        } else {
            Some(self.take_rest())
        }
    }

    /// Takes the held events of the last message.
    fn take_rest(&mut self) -> Batch
        requires going { has_ended self.old.taken ≡ false }
        requires some { 0 < length self.old.held }
        ensures taken { self.new ≡ record self.old { taken = self.old.taken ++ result; held = [] } }
        ensures held { result ≡ self.old.held }
        ensures orderly { IsOrderly self.new.taken }
    {
        let none = self.returns.none();
        let batch = mem::replace(&mut self.held, none);
        let Some((last, _)) = batch.events().split_last() else {
            unreachable!()
        };
        self.count = last.place + 1;
        self.ended = last.part.is_ended();
        batch
    }

    /// Receives a message and takes all its events. If there is none, the call waits for one if `waits` is true.
    fn take_message<R: Wait>(&mut self, rt: &R, waits: bool) -> Option<Batch>
        requires going { has_ended self.old.taken ≡ false }
        requires none_held { self.old.held ≡ [] }
        ensures taken { IfSome result (λ b. self.new ≡ record self.old {
          taken = self.old.taken ++ b;
          held = [];
        }) }
        ensures some { IfSome result (λ b. 0 < length b) }
        ensures few { IfSome result (λ b. length b ≤ 32) }
        ensures none { IfNone result (self.new ≡ self.old) }
        ensures orderly { IsOrderly self.new.taken }
    {
        let batch = take_next(rt, &self.receiver, &mut self.pass, waits)?;
        let Some((last, _)) = batch.events().split_last() else {
            unreachable!()
        };
        self.count = last.place + 1;
        self.ended = last.part.is_ended();
        Some(batch)
    }

    /// Gives back a batch that was taken and is no longer needed: the feed's thread frees its events and reuses its
    /// memory. For contracts the tap is unchanged.
    pub fn give_back<R: Wait>(&mut self, rt: &R, batch: Batch)
        ensures { self.new ≡ self.old }
    {
        if batch.has_room() {
            let _ = self.returns.give(rt, batch);
        } else {
            drop(batch);
        }
    }

    /// Whether Ended was taken.
    pub fn ended(&self) -> bool
        ensures { result ≡ has_ended self.now.taken }
    {
        self.ended
    }

    /// The number of events of the last message that were not taken yet.
    pub fn held(&self) -> u32
        ensures held { result ≡ length self.now.held }
        ensures few { result ≤ 31 }
    {
        self.held.events().len() as u32
    }

    /// Joins the two ends of one relay, and returns what was taken and what is left of what was sent: at most 32 events for
    /// each message of the capacity, and 62 more. It never waits.
    pub fn take_in(self, feed: Feed) -> Settled
        requires { self.name ≡ feed.name }
        ensures taken { result.taken ≡ self.taken }
        ensures sent { result.taken ++ result.left ≡ feed.sent }
        ensures orderly { IsOrderly feed.sent }
        ensures ended { has_ended self.taken ≡ true → result.left ≡ [] }
        ensures few { length result.left ≤ 32 * feed.name.capacity + 62 }
    {
        let of_tap = Snapshot::of(&self);
        let of_feed = Snapshot::of(&feed);
        let Tap {
            receiver: _,
            pass: theirs,
            held: _,
            count: taken,
            ended: _,
            returns: _,
        } = self;
        let Feed {
            sender,
            mut pass,
            batch: _,
            count,
            supply: _,
        } = feed;
        sender.absorb::<Meet>(&mut pass, theirs);
        sender.learn_as::<Rest>(&mut pass);
        Settled {
            taken,
            left: count - taken,
            tap: of_tap,
            feed: of_feed,
        }
    }
}
