//! The seal of a statement: the lines behind it, which say of which bytes it is, and that it is whole.
//!
//! 1. `digest`: a [`Digest`] is how many bytes there are, and their SHA-256 as a text.
//! 2. `digesting`: a [`Digesting`] is a source that passes on what another one gives, and makes the digest of it.
//! 3. `counted`: a [`Counted`] is an outlet that passes on to another one what it takes, and counts its bytes and lines.
//! 4. `write`: [`write_seal`] writes the seal behind a statement.
//!
//! **Example**, compiled and proved in `crates/dsr_seal/src/tests.rt`:
//!
//! ```
//! /// Writes a statement of one file, and its seal behind it. The error is how many bytes of both were written.
//! fn write_sealed<O: Outlet>(out: O, statement: &[u8], file: &[u8]) -> (O, Result<(), u64>)
//!     requires { (O.told out).taken ≡ 0 }
//! {
//!     let mut out = Counted::new(out);
//!     let mut is_written = write_all(&mut out, statement).is_ok();
//!     if is_written {
//!         let lines = out.lines();
//!         is_written = write_seal(
//!             &mut out,
//!             None,
//!             &[Digest::of(file)],
//!             lines,
//!             Status::Remarks,
//!         ).is_ok();
//!     }
//!     let answer = if is_written { Ok(()) } else { Err(out.taken()) };
//!     (out.into_outlet(), answer)
//! }
//! ```
//!
//! **The promise.** The digest of a source is that of exactly the bytes that it gave: a read that fails or gives none adds
//! nothing. What goes through a source or an outlet of this crate stays as it is, and so does what they tell. The lines are
//! those of what the outlet took. What `write_seal` writes and then flushes is exactly the seal of these digests, this number of
//! lines and this status; if a write or the flush fails, exactly the reported number of its first bytes was written. No call
//! takes memory, and each read is hashed at once, in the thread that makes it.
//!
//! **Where to begin.** `specs/meaning/Digests.antt` has the digest, and `Counts.antt` what is counted; `Seals.antt` of
//! dsr_statement has the lines of a seal. `src/digesting.rt` and `src/write.rt` have the two main parts.
#![tactic(auto)]

mod counted;
mod digest;
mod digesting;
mod write;

pub use counted::Counted;
pub use digest::Digest;
pub use digesting::Digesting;
pub use write::write_seal;

#[cfg(test)]
mod tests;
