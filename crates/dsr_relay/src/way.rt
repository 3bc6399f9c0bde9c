//! The way by which the memory of batches comes back: a channel under a rule that counts them. What was given back is what
//! came back and what is on the way, so no body that drops some of them counts right.
ghost use Rattle.std.specs.Prelude.{◌≡◌, ◌+◌, ◌<◌, IfSome, IfNone, OnOk, OnErr, IfOk};
ghost use Rattle.arrayvec.specs.ArrayVec.{array_vec_len};

use crate::batch::Batch;
use arrayvec::ArrayVec;
use crossbeam_channel::protocol::{Lesson, Outcome, Protocol, Split};
use crossbeam_channel::{Pass, RuledReceiver, RuledSender, bounded_with};
use dsr_cells::NoMemory;
use std::alloc::Global;
use std::marker::{Brand, Model, PhantomData};
use std::sync::Wait;

/// At most this many batches are given back together.
pub(crate) const MOST_TOGETHER: usize = 8;

/// Batches that are given back together, as one message.
pub type Group = ArrayVec<Batch, MOST_TOGETHER, Global>;

/// What an end knows, as the view of its pass. No value of it is made.
pub enum Count {
    /// The way is not yet split into its two ends.
    Fresh,
    /// The number of batches that were given back.
    Gave(u64),
    /// The number of batches that came back.
    Got(u64),
}

/// The batches that came back and those in the channel are as many as were given back.
pub struct Counted;

impl Protocol<Group, Count> for Counted {
    ghost use Rattle.dsr_relay.specs.declared.way.Count.TheVariants.{Fresh};
    ghost use Rattle.dsr_relay.specs.layer.Way.{AreCounted};

    ghost holds = { AreCounted };

    ghost first = { Fresh };
}

/// Splits the pass of a fresh way into those of its ends.
pub struct Part;

impl Split<Count> for Part {
    ghost use Rattle.dsr_relay.specs.declared.way.Count.TheVariants.{Gave, Got};

    ghost left = { λ v. Gave 0 };

    ghost right = { λ v. Got 0 };
}

/// Batches are given back: they are added to the count.
pub struct Given;

impl Outcome<Group, Count> for Given {
    ghost use Rattle.dsr_relay.specs.layer.Way.{Gives};

    ghost then = { Gives };
}

impl Lesson<Group, Count> for Given {
    ghost use Rattle.std.specs.Prelude.{⊤};

    ghost fact = { λ v items. ⊤ };
}

/// Batches came back: they are added to the count.
pub struct Gotten;

impl Outcome<Group, Count> for Gotten {
    ghost use Rattle.dsr_relay.specs.layer.Way.{Gets};

    ghost then = { Gets };
}

impl Lesson<Group, Count> for Gotten {
    ghost use Rattle.std.specs.Prelude.{⊤};

    ghost fact = { λ v items. ⊤ };
}

/// The end that gives batches back. Contracts see how many it gave.
#[derive(Drop)]
pub(crate) struct Giver {
    sender: RuledSender<Group, Count, Counted>,
    pass: Pass<Group, Count>,
}

impl Model for Giver {
    ghost use Rattle.std.specs.Prelude.{ℕ};
    ghost use Rattle.dsr_relay.specs.inner.Ways.{given_by, IsGiver};

    ghost Value = { ℕ };

    ghost view = { given_by };

    ghost invariant = { IsGiver };
}

/// The end at which batches come back. Contracts see how many did.
#[derive(Drop)]
pub(crate) struct Getter {
    receiver: RuledReceiver<Group, Count, Counted>,
    pass: Pass<Group, Count>,
}

impl Model for Getter {
    ghost use Rattle.std.specs.Prelude.{ℕ};
    ghost use Rattle.dsr_relay.specs.inner.Ways.{got_by, IsGetter};

    ghost Value = { ℕ };

    ghost view = { got_by };

    ghost invariant = { IsGetter };
}

/// The channel did not take a group, which was freed. Only [`Giver::give`] makes a value of it.
#[derive(Drop)]
pub(crate) struct Refusal {
    of: PhantomData<()>,
}

/// A way for at most so many groups at a time.
///
/// # Errors
///
/// `NoMemory`: out of memory.
pub(crate) fn way(alloc: Global, groups: usize) -> Result<(Giver, Getter), NoMemory>
    requires { 0 < groups }
    ensures { IfOk result (λ r. (r.0 ≡ 0) × (r.1 ≡ 0)) }
{
    let Ok((sender, receiver, mut pass)) = bounded_with::<Group, Count, Counted, Global>(
        alloc, groups,
    ) else {
        return Err(NoMemory);
    };
    let theirs = sender.another::<Part>(&mut pass);
    let giver = Giver { sender, pass };
    let getter = Getter {
        receiver,
        pass: theirs,
    };
    Ok((giver, getter))
}

impl Giver {
    /// Gives batches back.
    ///
    /// # Errors
    ///
    /// [`Refusal`]: the channel did not take them, since the other end is gone or since there were more than it has room for.
    pub(crate) fn give<R: Wait>(&mut self, rt: &R, group: Group) -> Result<(), Refusal>
        ensures given { OnOk result (self.new ≡ self.old + array_vec_len group) }
        ensures refused { OnErr result (self.new ≡ self.old) }
    {
        match self
            .sender
            .try_send_as::<Given, R>(rt, &mut self.pass, group)
        {
            Ok(()) => Ok(()),
            Err(_) => Err(Refusal { of: PhantomData }),
        }
    }
}

impl Getter {
    /// Takes batches that came back. If there are none, the call waits for some if `waits` is true, and is None otherwise, or
    /// once the other end is gone.
    pub(crate) fn get<R: Wait>(&mut self, rt: &R, waits: bool) -> Option<Group>
        ensures got { IfSome result (λ group. self.new ≡ self.old + array_vec_len group) }
        ensures none { IfNone result (self.new ≡ self.old) }
    {
        if waits {
            self.receiver.recv_as::<Gotten, R>(rt, &mut self.pass).ok()
        } else {
            self.receiver
                .try_recv_as::<Gotten, R>(rt, &mut self.pass)
                .ok()
        }
    }
}
