//! What a report file has: its records, the blocks that they make up, and the events of the file, which are its opening, its
//! closed blocks and how it ends.
//!
//! 1. `kinds`: the kinds of record ([`Kind`]), and their columns with the names of these ([`Column`]). `record`: the
//!    records ([`Record`]). A new [`Resource`], [`Work`] or [`Usage`] is empty and takes no memory.
//! 2. `block`: a [`Block`] is a resource with its works and usages, in the order of their lines. The fields are public, so
//!    that dsr_records can write records where they lie. `boxed`: a [`BoxedBlock`] is a block on the heap, moved by its
//!    address.
//! 3. [`Event`] (`event`) is an [`EventPart`] with its place in the file's list of events. The first is the [`Opening`],
//!    the head with the [`Summaries`]. After that each closed block is one event. The last is the [`Outcome`].
//! 4. [`Outcome`] (`fault`) is Whole, or the first [`FileFault`] with its line. [`Ending`] says how the bytes ended.
//! 5. [`EventList`] (`event_list`) is a list of events.
//!
//! The lines are read as records by dsr_records, which passes the records on. The reader makes events (dsr_file), the relays
//! pass them on (dsr_relay), and the books take what is in them (dsr_ledger), so none of these three needs another.
//!
//! **Example**, compiled and proved in `crates/dsr_reader_tests/src/examples/events.rt`; one of a boxed block is in
//! `crates/dsr_reader_tests/src/memory.rt`:
//!
//! ```
//! /// A bad cell has the name of its fault and its column, and ends the file.
//! fn a_bad_cell_ends_the_file(rt: HostRuntime) -> Result<(), Fail> {
//!     let fault = FileFault::BadCell(Column::Amount);
//!     assert_eq!(rt; fault.name(), "BadCell");
//!     assert!(rt; fault.column() == Some(Column::Amount));
//!     let end = EventPart::Ended(Outcome::Fault { line: 7, fault });
//!     let is_end = end.is_ended();
//!     drop(end);
//!     assert!(rt; is_end);
//!     Ok(())
//! }
//! ```
//!
//! **The promise.** A block has at most 64 records and keeps their order, on the heap too. A work has one share for
//! each party. An opening has no two summaries with the same identifier, and an event's place is below 2^37. What
//! an orderly list of events is stands in `specs/layer/Orderly.antt`: event i has place i, Opened may only be the first, a
//! block may not be the first, and only the last may be Ended.
//!
//! **Where to begin.** `specs/meaning/Blocks.antt` has what contracts see of a block, `specs/meaning/Works.antt` what they see
//! of a work, and `src/block.rt` the block; then `specs/layer/Orderly.antt` and `src/event.rt`.
#![tactic(auto)]

mod block;
mod boxed;
mod event;
mod event_list;
mod fault;
mod kinds;
mod record;

pub use block::{Block, UsageList, WorkList};
pub use boxed::BoxedBlock;
pub use event::{Event, EventPart, Opening, Summaries};
pub use event_list::EventList;
pub use fault::{Ending, FileFault, Outcome};
pub use kinds::{Column, Kind};
pub use record::{Foot, Head, Record, Resource, Summary, Usage, Work};
