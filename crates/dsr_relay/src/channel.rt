//! The two kinds of step on the channel: a message is put at its back, or taken from its front.
ghost use Rattle.std.specs.Prelude.{◌≡◌, [], ◌∷◌, ◌++◌, OnOk, OnErr, IfSome, IfNone, OnSome};
ghost use Rattle.crossbeam_channel.specs.Ends.{sends_on, receives_on, ruled_capacity};
ghost use Rattle.crossbeam_channel.specs.Claims.{view, IsSeatAt};
ghost use Rattle.dsr_events.specs.layer.Orderly.{IsOrderly};
ghost use Rattle.dsr_relay.specs.layer.Rule.{events_of, IsMessage, AreMessages, out_of, received_of};
ghost use Rattle.dsr_relay.specs.declared.rule.Log.TheVariants.{Sends, Takes};

use crate::batch::Batch;
use crate::rule::{InOrder, Log, Received, Sent};
use crossbeam_channel::{Pass, RuledReceiver, RuledSender};
use std::mem;
use std::sync::Wait;

/// The other end of the relay is gone.
#[derive(Clone, Copy, PartialEq, Eq)]
pub struct Closed;

/// Puts the batch as a message at the back of the channel, and begins the next one. On an error nothing changes.
///
/// # Errors
///
/// `Closed`: the other end is gone.
pub fn send_out<R: Wait>(
    rt: &R,
    sender: &RuledSender<Batch, Log, InOrder>,
    pass: &mut Pass<Batch, Log>,
    batch: &mut Batch,
    next: Batch,
) -> Result<(), Closed>
    requires next { next ≡ [] }
    requires seat { IsSeatAt (sends_on sender.now) pass.old }
    requires knows { view pass.old
        ≡ Sends (out_of (view pass.old)) (ruled_capacity (sends_on sender.now)) }
    requires size { IsMessage batch.old }
    requires orderly { IsOrderly (events_of (out_of (view pass.old)) ++ batch.old) }
    ensures seat { IsSeatAt (sends_on sender.now) pass.new }
    ensures sent { OnOk result ((view pass.new
        ≡ Sends (out_of (view pass.old) ++ batch.old ∷ []) (ruled_capacity (sends_on sender.now)))
        × (batch.new ≡ [])) }
    ensures closed { OnErr result ((view pass.new ≡ view pass.old) × (batch.new ≡ batch.old)) }
{
    let message = mem::replace(batch, next);
    match sender.send_as::<Sent, R>(rt, pass, message) {
        Ok(()) => Ok(()),
        Err(refused) => {
            *batch = refused.into_inner();
            Err(Closed)
        }
    }
}

/// Takes the message at the front of the channel. If there is none, the call waits for one if `waits` is true, and is None
/// otherwise, or once the feed is gone.
pub fn take_next<R: Wait>(
    rt: &R,
    receiver: &RuledReceiver<Batch, Log, InOrder>,
    pass: &mut Pass<Batch, Log>,
    waits: bool,
) -> Option<Batch>
    requires seat { IsSeatAt (receives_on receiver.now) pass.old }
    requires knows { view pass.old ≡ Takes (received_of (view pass.old)) }
    ensures seat { IsSeatAt (receives_on receiver.now) pass.new }
    ensures none { IfNone result (view pass.new ≡ view pass.old) }
    ensures taken { IfSome result (λ m. view pass.new
        ≡ Takes (received_of (view pass.old) ++ m ∷ [])) }
    ensures orderly { OnSome result (IsOrderly (events_of (received_of (view pass.new)))
        × AreMessages (received_of (view pass.new))) }
{
    if waits {
        receiver.recv_as::<Received, R>(rt, pass).ok()
    } else {
        receiver.try_recv_as::<Received, R>(rt, pass).ok()
    }
}
