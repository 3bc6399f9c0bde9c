//! Reading the files of a report concurrently, and writing its statement.
//!
//! A run goes through these stages:
//!
//! 1. `options`: the options, and what is refused before anything is read.
//! 2. `gather`: opens a relay for each file and starts a thread for it.
//! 3. `threads`: each thread reads its file, and `feed_sink` sends its events into the relay.
//! 4. `collector`: takes the events of all relays, in rounds a message of each that has one,
//!    books them, and closes the books. `patience`: how long it looks for messages before it
//!    naps, and when it waits.
//! 5. `gather` again: joins the threads, and returns the readers and the closed books. `intake`
//!    makes their report; the statement of a run is put from lines that borrow their texts from them.
//! 6. dsr_statement takes the memory for writing the statement, writes it to an outlet in pieces, and says whether it has
//!    remarks.
//! 7. `stages`: all of them together.
//!
//! **Example**, compiled and proved in `crates/dsr_tests/src/runs.rt`. `Script` is a reader that gives a text, `Page`
//! an outlet that keeps what it takes; a program has files and standard output instead:
//!
//! ```
//! /// Whether a run on these readers has this status and writes this statement, flushed once.
//! pub fn gives<H: Threads + Wait + RandomSource + Clock + Copy + Send + 'static>(
//!     rt: &H,
//!     alloc: Global,
//!     readers: Vec<Script>,
//!     options: Options,
//!     status: Status,
//!     statement: &[u8],
//! ) -> bool
//!     requires { All (λ r. r.failed ≡ false) readers.items }
//! {
//!     let mut readers = readers;
//!     let mut page = Page::new(alloc);
//!     let answer = run(rt, alloc, &mut readers, options, &mut page);
//!     answer == Ok(status) && page.bytes() == statement && page.is_flushed_once()
//! }
//! ```
//!
//! **The promise.** If `run` returns Ok, exactly the statement of the texts that its readers gave was written and then
//! flushed, and the status is that report's. If there is no report, nothing was written; if a write or the flush fails,
//! exactly the reported number of first bytes was written. A reader that keeps something of the bytes that it gave, such
//! as their digest, keeps that of exactly the bytes that were read.
//!
//! **Where to begin.** `specs/meaning`, here and in dsr_statement, has the definitions on which the promise of `run`
//! rests, and `specs/inner` relates the code to them. `errors` has each error with its text.
#![tactic(auto)]

mod collector;
mod errors;
mod feed_sink;
mod gather;
mod options;
mod patience;
mod stages;
mod threads;

pub use collector::collect;
pub use dsr_io::{Outlet, ToWrite, write_all};
pub use dsr_statement::{Status, statement, status};
pub use errors::{CollectError, IntakeError, RunError};
pub use feed_sink::FeedSink;
pub use gather::intake;
pub use options::Options;
pub use stages::run;
