//! What the two ends of a relay know, and the rule that relates it to the messages in the channel.
ghost use Rattle.std.specs.Prelude.{ℕ};

use crate::batch::Batch;
use crossbeam_channel::protocol::{Join, Lesson, Outcome, Protocol, Split};
use std::collections::LinkedList;
use std::marker::{Brand, PhantomData};

/// What an end knows, as the view of its pass. No value of it is made.
pub enum Log {
    /// The relay is not yet split into its two ends.
    Fresh,
    /// The feed: the messages sent, and the capacity of the channel.
    Sends(LinkedList<Batch>, u64),
    /// The tap: the messages received.
    Takes(LinkedList<Batch>),
    /// Both ends after they were joined: the messages sent, those received, and the capacity of the channel.
    Both(LinkedList<Batch>, LinkedList<Batch>, u64),
    /// An end that was joined into the other.
    Spent,
}

/// The capacity of a relay, in messages.
pub trait Capacity {
    ghost capacity: { ℕ };
}

/// The 0 is not used: a call at `Brand` picks the capacity in its proof.
impl Capacity for Brand {
    ghost capacity = { 0 };
}

/// The messages received, followed by those in the channel, are those sent, and their events are an orderly list.
pub struct InOrder;

impl Protocol<Batch, Log> for InOrder {
    ghost use Rattle.dsr_relay.specs.declared.rule.Log.TheVariants.{Fresh};
    ghost use Rattle.dsr_relay.specs.layer.Rule.{Relayed};

    ghost holds = { Relayed };

    ghost first = { Fresh };
}

/// Splits the pass of a fresh relay into the feed's and the tap's.
pub struct Cut<C> {
    of: PhantomData<C>,
}

impl<C: Capacity> Split<Log> for Cut<C> {
    ghost use Rattle.std.specs.Prelude.{[]};
    ghost use Rattle.dsr_relay.specs.declared.rule.Log.TheVariants.{Sends, Takes};

    ghost left = { λ v. Sends [] C.capacity };

    ghost right = { λ v. Takes [] };
}

/// Joins the tap's pass into the feed's.
pub struct Meet;

impl Join<Log> for Meet {
    ghost use Rattle.dsr_relay.specs.declared.rule.Log.TheVariants.{Spent};
    ghost use Rattle.dsr_relay.specs.layer.Rule.{both_of};

    ghost both = { both_of };

    ghost spent = { Spent };
}

/// A message is sent: it is appended to the feed's list.
pub struct Sent;

impl Outcome<Batch, Log> for Sent {
    ghost use Rattle.dsr_relay.specs.layer.Rule.{Goes};

    ghost then = { Goes };
}

/// A send learns nothing about the messages in the channel.
impl Lesson<Batch, Log> for Sent {
    ghost use Rattle.std.specs.Prelude.{⊤};

    ghost fact = { λ v items. ⊤ };
}

/// A message is received: it is appended to the tap's list.
pub struct Received;

impl Outcome<Batch, Log> for Received {
    ghost use Rattle.dsr_relay.specs.layer.Rule.{Comes};

    ghost then = { Comes };
}

/// A receive learns nothing about the messages still in the channel.
impl Lesson<Batch, Log> for Received {
    ghost use Rattle.std.specs.Prelude.{⊤};

    ghost fact = { λ v items. ⊤ };
}

/// The messages in the channel when the ends are joined: those sent and not received.
pub struct Rest;

impl Lesson<Batch, Log> for Rest {
    ghost use Rattle.dsr_relay.specs.layer.Rule.{IsLeft};

    ghost fact = { IsLeft };
}
