//! The events that go through a relay, and how a test recognises them.
ghost use Rattle.std.specs.Prelude.{◌≡◌, ℕ};
ghost use Rattle.dsr_events.specs.layer.Orderly.{MayStandAt};

use dsr_cells::{Day, NoMemory, Text};
use dsr_events::{Block, Event, EventPart, Head, Opening, Outcome, Summaries};
use std::alloc::Global;

/// A title that a block stores in place.
pub const SHORT_TITLE: &str = "Song";

/// A title that a block has on the heap.
pub const LONG_TITLE: &str = "A song whose title is on the heap";

/// The last digit of a number.
fn digit(n: u64) -> u8 {
    b'0' + (n % 10) as u8
}

/// A number below 100,000 in five digits.
fn digits(n: u64) -> [u8; 5] {
    [
        digit(n / 10_000),
        digit(n / 1000),
        digit(n / 100),
        digit(n / 10),
        digit(n),
    ]
}

/// The opening of a file without summaries. It allocates nothing.
pub fn opening(alloc: Global) -> Option<Opening> {
    let day = Day::read("2024-01-01")?;
    let message_id = Text::copy_of(alloc, "R1").ok()?;
    Some(Opening {
        head: Head {
            message_id,
            file_number: 1,
            number_of_files: 1,
            first_day: day,
            last_day: day,
            sender: Text::default(),
            recipient: Text::default(),
        },
        summaries: Summaries::new(alloc),
    })
}

/// A block with this number and this title. If the title is short, it allocates nothing.
///
/// # Errors
///
/// `NoMemory`: out of memory for the title.
pub fn block(alloc: Global, n: u64, title: &str) -> Result<Block, NoMemory> {
    let mut block = Block::empty(alloc);
    let number = digits(n);
    block
        .id
        .assign(alloc, str::from_utf8(&number).unwrap_or(""))?;
    block.resource.titles.next()?.assign(alloc, title)?;
    Ok(block)
}

/// The end of a whole file.
pub fn ended() -> EventPart
    ensures { (place : ℕ) → MayStandAt place result }
{
    EventPart::Ended(Outcome::Whole)
}

/// What an event of a file of blocks is.
#[derive(Clone, Copy, PartialEq, Eq)]
pub enum Seen {
    /// The opening, which has place 0.
    Opening,
    /// The block with a long title whose number is its place.
    Block,
    /// The end of a whole file.
    End,
    /// Anything else.
    Other,
}

/// Whether this is the block number `n` with a long title.
fn is_block(block: &Block, n: u64) -> bool {
    match block.resource.titles.get(0) {
        Some(title) => { block.id.as_str().parse::<u64>() == Ok(n) && title.as_str() == LONG_TITLE }
        None => false,
    }
}

/// What the event is.
pub fn as_seen(event: &Event) -> Seen {
    match &event.part {
        EventPart::Opened(_) if event.place == 0 => Seen::Opening,
        EventPart::Block(block) if is_block(block, event.place) => Seen::Block,
        EventPart::Ended(Outcome::Whole) => Seen::End,
        _ => Seen::Other,
    }
}

/// Whether the event is the end of a whole file, at this place.
pub fn is_end(event: &Event, place: u64) -> bool {
    event.place == place && as_seen(event) == Seen::End
}

/// Whether these are the events of a file of blocks from a place on.
pub fn are_right(events: &[Event], first: u64) -> bool {
    for (i, event) in events.iter().enumerate() {
        let place = first.wrapping_add(i as u64);
        if event.place != place || as_seen(event) == Seen::Other {
            return false;
        }
    }
    true
}
