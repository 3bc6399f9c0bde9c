//! Where bytes are read from, and where they are written to.
//!
//! 1. `source`: a [`Source`] gives the bytes of a file. It remembers whether a read has failed, and counts its reads by a
//!    [`ReadCount`] (`read_count`), so that contracts can say how many were made. [`FromRead`] makes a source of a
//!    `std::io::Read`.
//! 2. `outlet`: an [`Outlet`] takes bytes. It remembers whether a write or a flush has failed, and counts its bytes and
//!    flushes. [`write_all`] writes all bytes, or says how many were written.
//! 3. `to_write`: [`ToWrite`] makes an outlet of a `std::io::Write`.
//!
//! dsr_file passes on what reads, and dsr_intake what writes.
//!
//! **Example**, compiled and proved in `crates/dsr_reader_tests/src/reads.rt`; `Page` in `crates/dsr_tests/src/page.rt` is
//! an outlet:
//!
//! ```
//! /// A source that gives one byte a read.
//! #[derive(Drop)]
//! struct ByBytes<'t> {
//!     rest: &'t [u8],
//!     reads: usize,
//!     count: ReadCount,
//! }
//!
//! impl<'t> Source for ByBytes<'t> {
//!     ghost told = { λ s. record { remaining = None; failed = false; reads = s.count } };
//!
//!     fn read(&mut self, piece: &mut [u8]) -> Result<usize, Failed> {
//!         self.reads = self.reads.wrapping_add(1);
//!         let count = piece.len().min(self.rest.len()).min(1);
//!         self.count.add(count);
//!         let (front, rest) = self.rest.split_at(count);
//!         piece[..count].copy_from_slice(front);
//!         self.rest = rest;
//!         Ok(count)
//!     }
//!
//!     fn failed(&self) -> bool {
//!         false
//!     }
//! }
//! ```
//!
//! **The promise.** What a source or an outlet says of itself is true, whatever implements it: each read and each write
//! changes its state as the contract says, or fails and is remembered as failed. `FromRead` and `ToWrite` report the bytes
//! of the reader and the writer that they were made of. No call takes memory.
//!
//! **Where to begin.** `src/source.rt` and `src/outlet.rt` have the two traits. `specs/meaning/Told.antt` and
//! `specs/meaning/Written.antt` have the states that their contracts refer to.
#![tactic(auto)]

mod outlet;
mod read_count;
mod source;
mod to_write;

pub use outlet::{Outlet, write_all};
pub use read_count::ReadCount;
pub use source::{Failed, FromRead, Source};
pub use to_write::ToWrite;
