//! Calls that take memory, each once: None if it is refused, else whether the value is right.
use dsr_cells::{
    Day, Share, Shares, Text, Texts, read_texts_into, unescape, write_amount, write_day,
};
use dsr_events::BoxedBlock;
use dsr_file::{Ending, Event, EventList, whole_events};
use dsr_records::{Block, Layout, ReadRecordError, read_record};
use std::alloc::Global;

/// A text that is too long to be kept in place.
const LONG: &str = "a title of more than thirty bytes";

fn unescaped(alloc: Global) -> Option<bool> {
    Some(unescape(alloc, "\\|").ok()?.as_str() == "|")
}

fn copied(alloc: Global) -> Option<bool> {
    let text = Text::copy_of(alloc, LONG).ok()?;
    Some(text.copy(alloc).ok()?.as_str() == LONG)
}

/// More shares than a list stores in place.
fn pushed(alloc: Global) -> Option<bool> {
    let mut shares = Shares::new(alloc);
    for _ in 0..9 {
        shares.push(Share::default()).ok()?;
    }
    Some(shares.len() == 9)
}

/// Writes texts over others.
fn write_over(alloc: Global, texts: &mut Texts) -> Option<bool> {
    read_texts_into(alloc, "a|b", texts).ok()?;
    read_texts_into(alloc, "c|a title of more than thirty bytes|d|e", texts).ok()?;
    Some(texts.len() == 4 && texts.get(1)?.as_str() == LONG)
}

fn written_over(alloc: Global) -> Option<bool> {
    let mut texts = Texts::new(alloc);
    let is_right = write_over(alloc, &mut texts);
    drop(texts);
    is_right
}

fn written(alloc: Global) -> Option<bool> {
    let mut out = Vec::new(alloc);
    write_amount(5, &mut out).ok()?;
    write_day(Day::read("2024-02-29")?, &mut out).ok()?;
    Some(out.as_slice() == b"0.00000000052024-02-29".as_slice())
}

/// A line of each kind of record that has texts.
const LINES: [&str; 5] = [
    "HEAD\tR1\t1\t1\t2024-01-01\t2024-01-31\tS\tL",
    "SY01\tS1\tGB\tOnDemandStream\tGBP\t30\t1.5",
    "AS01\t1\tGBABC2400001\ta title of more than thirty bytes",
    "MW01\t1\tW1\tSong\tP1|P2\t50|25",
    "SU01\t1\tS1\t10\t0.5",
];

/// Whether a line without a fault is read.
fn is_read(alloc: Global, line: &str) -> Option<bool> {
    match read_record(alloc, &Layout::standard(), line) {
        Ok(record) => {
            drop(record);
            Some(true)
        }
        Err(ReadRecordError::Memory) => None,
        Err(ReadRecordError::Fault(_)) => Some(false),
    }
}

fn recorded(alloc: Global) -> Option<bool> {
    for line in LINES {
        if !is_read(alloc, line)? {
            return Some(false);
        }
    }
    Some(true)
}

/// Exchanges the block of a box.
fn exchanged(alloc: Global) -> Option<bool> {
    let mut boxed = BoxedBlock::empty(alloc).ok()?;
    let old = boxed.replace(Block::empty(alloc));
    let is_right = old.len() == 1 && boxed.get().len() == 1;
    drop(old);
    drop(boxed);
    Some(is_right)
}

fn listed(alloc: Global) -> Option<bool> {
    let mut events = EventList::new(alloc);
    let refused = events.push(Event::default()).err();
    let is_pushed = refused.is_none();
    drop(refused);
    let is_right = events.len() == 1;
    drop(events);
    is_pushed.then_some(is_right)
}

/// The events of a file of one block.
fn read(alloc: Global) -> Option<bool> {
    let text =
        b"HEAD\tR1\t1\t1\t2024-01-01\t2024-01-31\nAS01\t1\nSU01\t1\tS1\t1\t1\nFOOT\t4\t0\t1\n";
    match whole_events(alloc, &Layout::standard(), text, Ending::Whole) {
        Ok(events) => {
            let is_right = events.len() == 3;
            drop(events);
            Some(is_right)
        }
        Err(_) => None,
    }
}

/// What each of these functions returns.
fn answers(alloc: Global) -> [Option<bool>; 9] {
    [
        unescaped(alloc),
        copied(alloc),
        pushed(alloc),
        written_over(alloc),
        written(alloc),
        recorded(alloc),
        exchanged(alloc),
        listed(alloc),
        read(alloc),
    ]
}

#[test]
fn each_call_finds_its_memory(rt: HostRuntime) {
    for (i, answer) in answers(rt.alloc()).iter().enumerate() {
        assert!(rt; *answer == Some(true), "call {i}");
    }
}

#[test]
fn no_call_is_wrong_without_memory(rt: HostRuntime) {
    for (i, answer) in answers(rt.alloc()).iter().enumerate() {
        assert!(rt; *answer != Some(false), "call {i}");
    }
}
