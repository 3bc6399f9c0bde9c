//! The texts of a report: found in the bytes of a file, tested, and kept past their line.
//!
//! 1. `bytes` finds the first line feed, which ends a line, and tests that bytes are UTF-8 (RFC 3629).
//! 2. `text` keeps a text: up to 22 bytes in place (`short`), longer ones on the heap. A text
//!    takes 24 bytes, and can be written over, which reuses its memory.
//! 3. `inline_items` is the list type of blocks, and of the parties of a report's line: its first items
//!    are in place, and its memory is reused. `items` is that of openings and reports.
//!
//! dsr_cells passes `Text`, `Texts` and `NoMemory` on.
//!
//! **Examples**, compiled and proved in `crates/dsr_reader_tests/src/examples/texts.rt`:
//!
//! ```
//! /// The end of a line, and whether bytes are a text.
//! fn lines_and_texts(rt: HostRuntime) -> Result<(), Fail> {
//!     assert_eq!(rt; line_end(b"S1\nS2\n"), 2);
//!     assert_eq!(rt; text_of(b"S1"), Some("S1"));
//!     // The first byte of a character of two bytes, without the second.
//!     assert!(rt; text_of(b"\xc3").is_none());
//!     Ok(())
//! }
//!
//! /// A text is written over another, and a list over the items that it had.
//! fn a_text_and_a_list_written_over(rt: HostRuntime) -> Result<(), Fail> {
//!     let mut title = Text::copy_of(rt.alloc(), "A Title")?;
//!     title.assign(rt.alloc(), "Another Title")?;
//!     assert_eq!(rt; title.as_str(), "Another Title");
//!     let mut titles = Texts::new(rt.alloc());
//!     if titles.push(title).is_err() {
//!         return Err(Fail::new("out of memory"));
//!     }
//!     titles.restart();
//!     assert_eq!(rt; titles.len(), 0);
//!     Ok(())
//! }
//! ```
//!
//! **The promise.** What is found in bytes equals a definition over them, for all bytes, and takes no memory.
//! Contracts see a text as its bytes and a list as its items, in order: what is stored is what was given. Texts are
//! equal, ordered and hashed by their bytes. Only calls that return `NoMemory`, and `push` of the two list types, take
//! memory. If it is refused, they change nothing.
//!
//! **Where to begin.** `src/items.rt`, then `src/text.rt`; `src/bytes.rt` for what is found.
#![tactic(auto)]

mod bytes;
mod inline_items;
mod items;
mod short;
mod text;

pub use bytes::{line_end, text_of};
pub use inline_items::InlineItems;
pub use items::Items;
pub use text::{NoMemory, Text, Texts};
