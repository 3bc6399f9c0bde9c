//! The events of a file.
ghost use Rattle.std.specs.Prelude.{◌≡◌};
ghost use Rattle.dsr_events.specs.meaning.Orderly.{is_ended};

use crate::block::Block;
use crate::fault::Outcome;
use crate::record::{Head, Summary};
use dsr_texts::Items;
use std::marker::Model;

/// The summaries of a file. Contracts see it as their list.
pub type Summaries = Items<Summary>;

/// The head of a file and its summaries, whose identifiers are all different.
pub struct Opening {
    /// The record HEAD.
    pub head: Head,
    /// The summaries, in the order of the file.
    pub summaries: Summaries,
}

/// Written out, so that dropping one is a call: a derived drop is proved anew wherever it happens.
impl Drop for Opening {
    fn drop(self) {
        let Opening {
            head: _,
            summaries: _,
        } = self;
    }
}

impl Model for Opening {
    ghost use Rattle.dsr_events.specs.meaning.Openings.{OpeningParts, HasDistinctIds};

    ghost Value = { OpeningParts };

    ghost view = { λ o. record { head = o.head; summaries = o.summaries } };

    ghost invariant = { λ o. HasDistinctIds o.summaries };
}

/// The content of an event.
#[derive(Drop)]
pub enum EventPart {
    /// The head and the summaries were read.
    Opened(Opening),
    /// A block was closed by the resource or FOOT after it.
    Block(Block),
    /// The file has ended.
    Ended(Outcome),
}

impl EventPart {
    /// Whether the file ends with this event.
    pub fn is_ended(&self) -> bool
        ensures { result ≡ is_ended self.now }
    {
        matches!(self, EventPart::Ended(_))
    }
}

/// An event and its place in the file's list of events.
#[derive(Drop)]
pub struct Event {
    /// The number of events before it: 0 to 2^37 - 1.
    pub place: u64,
    /// Its content.
    pub part: EventPart,
}

impl Model for Event {
    ghost use Rattle.std.specs.Prelude.{◌^◌, ◌<◌};
    ghost use Rattle.dsr_events.specs.meaning.Orderly.{Placed};

    ghost Value = { Placed };

    ghost view = { λ e. record { place = e.place; part = e.part } };

    ghost invariant = { λ e. e.place < 2 ^ 37 };
}

/// A placeholder for an event that was taken out of a list.
impl Default for Event {
    ghost use Rattle.std.specs.Prelude.{◌≡◌};
    ghost use Rattle.dsr_events.specs.declared.event.EventPart.TheVariants as part;
    ghost use Rattle.dsr_events.specs.declared.fault.Outcome.TheVariants as outcome;

    ghost is_default = { λ e. e ≡ record { place = 0; part = part.Ended outcome.Whole } };

    fn default() -> Event {
        Event {
            place: 0,
            part: EventPart::Ended(Outcome::Whole),
        }
    }
}
