//! Laws that join the crates below: functions that do nothing, whose contracts are the laws.
//!
//! 1. `laws`, at first: the report of any texts that a run may read is readable, if one has an opening, so its statement, sealed
//!    or not, is read again as its lines.
//! 2. `laws`, then: what a run wrote, if it answered Ok, is such a statement.
//!
//! **The promise.** What `run` wrote is no text that the reader of statements refuses, but for one without a report, which it
//! refuses at its first line; and what it reads are the lines of the report of exactly the texts that the readers gave.
//!
//! **Where to begin.** `specs/layer/Again.antt` has what the laws say. `proofs/Records.antt` has what the record of a line has,
//! `Files.antt` what the file of a text has, `Readable.antt` that the report of such files is readable.
#![tactic(auto)]

pub mod laws;
