//! A list of events.
ghost use Rattle.std.specs.Prelude.{◌≡◌, ◌++◌, ◌∷◌, [], length, slice_get, MatchOption, MatchResult};
ghost use Rattle.std.specs.Option.{option_map};

use crate::event::Event;
use std::alloc::Global;
use std::collections::VecDeque;
use std::marker::Model;

/// A list of events. Contracts see it as their list.
#[derive(Drop)]
pub struct EventList {
    events: VecDeque<Event>,
}

impl Model for EventList {
    ghost use Rattle.std.specs.Prelude.{List};
    ghost use Rattle.dsr_events.specs.meaning.Orderly.{Placed};

    ghost Value = { List Placed };

    ghost view = { λ l. l.events.items };
}

impl EventList {
    /// The empty list.
    pub fn new(alloc: Global) -> EventList
        ensures { result ≡ [] }
    {
        EventList {
            events: VecDeque::new(alloc),
        }
    }

    /// Appends an event.
    ///
    /// # Errors
    ///
    /// If memory is refused, the event is returned and the list is unchanged.
    pub fn push(&mut self, event: Event) -> Result<(), Event>
        ensures { MatchResult result (λ _. self.new ≡ self.old ++ event ∷ [])
            (λ back. (back ≡ event) × (self.new ≡ self.old)) }
    {
        self.events
            .push_back(event)
            .map_err(|refused| refused.value)
    }

    /// The number of events.
    pub fn len(&self) -> usize
        ensures { result ≡ length self.now }
    {
        self.events.len()
    }

    /// The event at index `i`, from 0; None past the end.
    pub fn get(&self, i: usize) -> Option<&Event>
        ensures { option_map (λ e. e.now) result ≡ slice_get self.now i }
    {
        self.events.get(i)
    }

    /// Takes the first event; None if the list is empty.
    pub fn next(&mut self) -> Option<Event>
        ensures { MatchOption result ((self.old ≡ []) × (self.new ≡ []))
            (λ event. self.old ≡ event ∷ self.new) }
    {
        self.events.pop_front()
    }
}
