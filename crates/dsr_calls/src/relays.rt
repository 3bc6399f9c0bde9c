//! The calls of a relay, on one thread: no example waits for an event that does not come, or for room that is not made.
use crate::answers::{say, say_option};
use crate::argument::numbered;
use crate::ends::{Both, Ends, Sender};
use crate::events::{events_of, print_event, show_event};
use dsr_events::{Ending, Event, EventList};
use dsr_records::Layout;
use dsr_relay::{RelayError, open_relay};
use std::alloc::Global;
use std::io::{self, Print};
use std::mem;
use std::sync::Wait;

/// The ends of a relay, and the events that were not sent yet.
#[derive(Drop)]
pub struct Relays {
    alloc: Global,
    ends: Ends,
    events: EventList,
    /// The event that came back last, which is sent next.
    back: Option<Event>,
}

/// The two ends of a new relay, or the name of the error.
fn open(alloc: Global, capacity: u32) -> Result<Ends, &'static str> {
    match open_relay(alloc, capacity) {
        Ok((feed, tap)) => Ok(Ends::Both(Both {
            sender: Sender { feed, ended: false },
            tap,
        })),
        Err(RelayError::Capacity) => Err("Capacity"),
        Err(RelayError::Memory) => Err("Memory"),
    }
}

impl Relays {
    /// No relay.
    pub fn new(alloc: Global) -> Relays {
        Relays {
            alloc,
            ends: Ends::Neither,
            events: EventList::new(alloc),
            back: None,
        }
    }

    /// Makes a relay for the events of a text, and prints `Ok` or the error.
    fn open<P: Print>(
        &mut self,
        rt: &P,
        layout: &Layout,
        word: &str,
        capacity: u32,
        text: &[u8],
    ) -> io::Result<()> {
        self.back = None;
        let events = events_of(self.alloc, layout, text, Ending::Whole);
        self.events = events.unwrap_or(EventList::new(self.alloc));
        match open(self.alloc, capacity) {
            Ok(ends) => {
                self.ends = ends;
                say(rt, word, "Ok")
            }
            Err(name) => say(rt, word, name),
        }
    }

    /// Sends the next event. Returns whether it was sent; if not, it is the next one again.
    fn send_next<R: Wait>(&mut self, rt: &R) -> bool {
        let event = match self.back.take() {
            Some(event) => event,
            None => match self.events.next() {
                Some(event) => event,
                None => return false,
            },
        };
        self.back = self.ends.send(rt, event).err();
        self.back.is_none()
    }

    /// Sends the next events, and prints how many were sent, and the one that came back.
    fn send<R: Print + Wait>(&mut self, rt: &R, word: &str, count: u32) -> io::Result<()> {
        let mut sent = 0u32;
        for _ in 0..count {
            if !self.send_next(rt) {
                break;
            }
            sent = sent.saturating_add(1);
        }
        say(rt, word, sent)?;
        match &self.back {
            Some(event) => show_event(rt, word, event),
            None => Ok(()),
        }
    }

    /// Takes the next event, and prints it.
    fn take<R: Print + Wait>(&mut self, rt: &R, word: &str) -> io::Result<()> {
        match self.ends.take(rt) {
            Some(event) => print_event(rt, word, event),
            None => say(rt, word, "none"),
        }
    }

    /// Joins the two ends, and prints what was taken and what is left.
    fn join<P: Print>(&mut self, rt: &P, word: &str) -> io::Result<()> {
        match mem::replace(&mut self.ends, Ends::Neither).join() {
            Some((taken, left)) => println!(rt; "{word}: taken {taken}, left {left}"),
            None => say(rt, word, "none"),
        }
    }

    /// Drops an end, or makes a call that only asks. Returns whether there is such a call.
    fn ask<P: Print>(&mut self, rt: &P, word: &str) -> io::Result<bool> {
        match word {
            "drop_feed" => {
                self.ends = mem::replace(&mut self.ends, Ends::Neither).without_feed();
            }
            "drop_tap" => self.ends = mem::replace(&mut self.ends, Ends::Neither).without_tap(),
            "Feed::sent_count" => {
                say_option(rt, word, self.ends.feed().map(|feed| feed.sent_count()))?;
            }
            "Tap::held" => say_option(rt, word, self.ends.tap().map(|tap| tap.held()))?,
            "Tap::ended" => say_option(rt, word, self.ends.tap().map(|tap| tap.ended()))?,
            _ => return Ok(false),
        }
        Ok(true)
    }

    /// Makes a call. Returns whether there is such a call.
    pub fn answer<R: Print + Wait>(
        &mut self,
        rt: &R,
        layout: &Layout,
        word: &str,
        argument: &str,
        text: &[u8],
    ) -> io::Result<bool> {
        let number = numbered(argument).0;
        match word {
            "open_relay" => self.open(rt, layout, word, number, text)?,
            "Feed::send" => self.send(rt, word, number)?,
            "Feed::flush" => {
                let answer = if self.ends.flush(rt) { "Ok" } else { "Closed" };
                say(rt, word, answer)?;
            }
            "Tap::take" => self.take(rt, word)?,
            "Tap::take_in" => self.join(rt, word)?,
            _ => return self.ask(rt, word),
        }
        Ok(true)
    }
}
