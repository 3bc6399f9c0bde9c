//! Printing events, and all events of the text of the session.
use crate::answers::{ending_named, say};
use dsr_events::{Ending, Event, EventList, EventPart, Outcome};
use dsr_file::whole_events;
use dsr_records::Layout;
use std::alloc::Global;
use std::io::{self, Print};

/// The most bytes that a text may have.
const MOST: usize = 1 << 36;

/// Prints how a file ended.
fn show_outcome<P: Print>(rt: &P, outcome: Outcome) -> io::Result<()> {
    match outcome {
        Outcome::Whole => println!(rt; "Ended Whole"),
        Outcome::Fault { line, fault } => match fault.column() {
            Some(column) => {
                println!(rt; "Ended Fault {line} {} {}", fault.name(), column.name())
            }
            None => println!(rt; "Ended Fault {line} {}", fault.name()),
        },
    }
}

/// Prints an event with its place.
pub fn show_event<P: Print>(rt: &P, word: &str, event: &Event) -> io::Result<()> {
    print!(rt; "{word}: {} ", event.place)?;
    match &event.part {
        EventPart::Opened(opening) => {
            let id = opening.head.message_id.as_str();
            println!(rt; "Opened \"{id}\" summaries={}", opening.summaries.len())
        }
        EventPart::Block(block) => {
            let (id, works, usages) = (block.id.as_str(), block.works.len(), block.usages.len());
            println!(rt; "Block \"{id}\" works={works} usages={usages}")
        }
        EventPart::Ended(outcome) => show_outcome(rt, *outcome),
    }
}

/// Prints an event that is no longer needed.
pub fn print_event<P: Print>(rt: &P, word: &str, event: Event) -> io::Result<()> {
    let printed = show_event(rt, word, &event);
    drop(event);
    printed
}

/// Prints all events of a list.
fn print_events<P: Print>(rt: &P, word: &str, events: &EventList) -> io::Result<()> {
    for i in 0..events.len() {
        if let Some(event) = events.get(i) {
            show_event(rt, word, event)?;
        }
    }
    Ok(())
}

/// The events of a text; none if it is too long or memory is refused.
pub fn events_of(alloc: Global, layout: &Layout, text: &[u8], ending: Ending) -> Option<EventList> {
    if text.len() > MOST {
        return None;
    }
    whole_events(alloc, layout, text, ending).ok()
}

/// Makes a call. Returns whether there is such a call.
pub fn answer<P: Print>(
    rt: &P,
    alloc: Global,
    layout: &Layout,
    word: &str,
    ending: &str,
    text: &[u8],
) -> io::Result<bool> {
    if word != "whole_events" {
        return Ok(false);
    }
    match events_of(alloc, layout, text, ending_named(ending)) {
        Some(events) => {
            let printed = print_events(rt, word, &events);
            drop(events);
            printed?;
        }
        None => say(rt, word, "out of memory")?,
    }
    Ok(true)
}
