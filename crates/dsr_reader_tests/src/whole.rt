//! All events of a file at once. checks/refusals refuses each allocation in turn.
use dsr_cells::NoMemory;
use dsr_file::{Ending, Event, EventList, EventPart, Outcome, whole_events};
use dsr_records::{Block, Layout};
use std::alloc::Global;

/// A file of a summary and two blocks, the first of which has a work.
const FILE: &str = "HEAD\tR1\t1\t1\t2024-01-01\t2024-01-31\tS\tL
SY01\tS1\tGB\tOnDemandStream\tGBP\t30\t1.5
AS01\t1\tGBABC2400001\tA title of more than thirty bytes\tBand
MW01\t1\tW1\tSong\tP1|P2\t50|25
SU01\t1\tS1\t10\t0.5
AS01\t2\tGBABC2400002\tOther\tBand
SU01\t2\tS1\t20\t1
FOOT\t8\t1\t2
";

/// Whether a block has this identifier, so many works and one usage.
fn is_block(block: &Block, id: &str, works: usize) -> bool {
    block.id.as_str() == id && block.works.len() == works && block.usages.len() == 1
}

/// Whether this is the event of the file with this place.
fn is_right(event: &Event, place: u64) -> bool {
    event.place == place
        && match &event.part {
            EventPart::Opened(opening) => place == 0 && opening.summaries.len() == 1,
            EventPart::Block(block) if place == 1 => is_block(block, "1", 1),
            EventPart::Block(block) => place == 2 && is_block(block, "2", 0),
            EventPart::Ended(outcome) => place == 3 && *outcome == Outcome::Whole,
        }
}

/// Whether these are the events of the file.
fn are_right(events: &EventList) -> bool {
    for place in 0..4u64 {
        match events.get(place as usize) {
            Some(event) if is_right(event, place) => {}
            _ => return false,
        }
    }
    events.len() == 4
}

/// Whether the events of the file are right, or memory is refused for them.
fn asked(alloc: Global) -> Result<bool, NoMemory> {
    let events = whole_events(alloc, &Layout::standard(), FILE.as_bytes(), Ending::Whole)?;
    let answer = are_right(&events);
    drop(events);
    Ok(answer)
}

/// The events are right, also if they are asked for again since memory was refused.
#[test]
fn the_events_of_a_file_or_no_memory(rt: HostRuntime) {
    let alloc = rt.alloc();
    let answer = match asked(alloc) {
        Ok(is_right) => Ok(is_right),
        Err(NoMemory) => asked(alloc),
    };
    assert!(rt; answer == Ok(true));
}
