//! The result of joining the two ends of a relay.
use crate::feed::Feed;
use crate::tap::Tap;
use std::marker::Model;
use std::snapshot::Snapshot;

/// The number of events taken, and the number of those left. Contracts see the two lists, of which these are the
/// lengths.
#[derive(Drop)]
pub struct Settled {
    /// The number of events taken.
    pub taken: u64,
    /// The number of events that were sent and not taken.
    pub left: u64,
    pub(crate) tap: Snapshot<Tap>,
    pub(crate) feed: Snapshot<Feed>,
}

impl Model for Settled {
    ghost use Rattle.dsr_relay.specs.layer.Views.{SettledView};
    ghost use Rattle.dsr_relay.specs.inner.Settles.{settled_view, IsSettled};

    ghost Value = { SettledView };

    ghost view = { settled_view };

    ghost invariant = { IsSettled };
}
