//! The reader of a report file: it takes bytes in pieces of any size, and gives events one by one.
//!
//! How a file is read:
//!
//! 1. `cutter` cuts the bytes into lines, at the line feeds that dsr_texts finds. A line after the
//!    first that is whole in the piece is not copied.
//! 2. `grammar` takes each line: it has `dsr_records` check it, looks up its place in the table in
//!    `stage`, and keeps the counts that FOOT is compared with.
//! 3. `stage` keeps what is open after the records so far: the head with its summaries, or a block.
//!    A work or a usage is appended to the open block, and a resource is written over an old block.
//!    What a line closes goes into a place that is lent to the stage (`closed`), with that old block.
//! 4. [`FileReader`] (`reader`) takes the lines of each piece and the last line. It gives the events of
//!    dsr_events, each with its place, and the [`Outcome`] last: Whole, or the first fault with its line. `phase`
//!    has how far it has come.
//! 5. [`read_file`] (`reading`) reads a [`Source`] of dsr_io, which counts its reads, to its end or to
//!    the limit on reads, and puts the events into a [`Sink`] (`sink`), by the loop in `feeding`. A closed
//!    block is exchanged for an old one of the sink ([`Sink::put_block`]), so that it is not moved and
//!    the next one seldom needs new memory.
//! 6. [`whole_events`] (`whole`) gives all events of a text at once, in an [`EventList`] of dsr_events.
//!
//! **Example**, compiled and proved in `crates/dsr_reader_tests/src/examples/file.rt`;
//! `crates/example_reader` is a small program that does the same with a real file:
//!
//! ```
//! /// The name of a kind of event.
//! fn name_of(part: &EventPart) -> &'static str {
//!     match part {
//!         EventPart::Opened(_) => "opening",
//!         EventPart::Block(_) => "block",
//!         EventPart::Ended(_) => "end",
//!     }
//! }
//!
//! /// What a call of the reader gave.
//! fn kind_of(event: Option<Event>) -> &'static str {
//!     let kind = match &event {
//!         Some(event) => name_of(&event.part),
//!         None => "nothing",
//!     };
//!     drop(event);
//!     kind
//! }
//!
//! /// The opening of a file comes once its FOOT is whole, and then its end.
//! fn a_file_in_two_pieces(rt: HostRuntime) -> Result<(), Fail> {
//!     let mut file = FileReader::new(rt.alloc(), &Layout::standard())?;
//!     let (_, event) = file.take(b"HEAD\tR1\t1\t1\t2024-01-01\t2024-01-31\tS\tL\nFO");
//!     let first = kind_of(event);
//!     let (_, event) = file.take(b"OT\t2\t0\t0\n");
//!     let second = kind_of(event);
//!     let third = kind_of(file.finish(Ending::Whole));
//!     drop(file);
//!     assert_eq!(rt; [first, second, third], ["nothing", "opening", "end"]);
//!     Ok(())
//! }
//! ```
//!
//! **The promise.** However the bytes are cut into pieces, the events are those of the text: its
//! opening, each closed block once and in order, and its outcome. The events of the
//! bytes so far stay right whatever follows ([`laws`]). `read_file` makes no more reads than its
//! limit, and none after the end, a failed read or a fault. A source that keeps something of the bytes
//! that it gave, such as their digest, keeps that of exactly the bytes that were read.
//!
//! **Where to begin.** `specs/meaning/Faults.antt` has the places of the records and the faults of a
//! line, `specs/meaning/Texts.antt` the events of a text; `src/reader.rt` and `src/reading.rt` have the
//! calls.
#![tactic(auto)]

mod closed;
mod cutter;
mod feeding;
mod grammar;
pub mod laws;
mod phase;
mod reader;
mod reading;
mod sink;
mod stage;
mod whole;

pub use dsr_events::{Ending, Event, EventList, EventPart, FileFault, Opening, Outcome, Summaries};
pub use dsr_io::{Failed, FromRead, Source};
pub use reader::FileReader;
pub use reading::{ReadFileError, read_file};
pub use sink::Sink;
pub use whole::whole_events;
