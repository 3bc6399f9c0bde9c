//! The words and the files of a program in memory, for tests: a [`World`](dsr_command::World) that tells its bytes, and in which
//! a chosen call fails.
//!
//! 1. [`MemoryWorld`] (`world`): words, standard input and [`MemoryFile`]s (`file`). It is a `World`, a `ReportWorld` and a
//!    `StatementWorld` of dsr_command.
//! 2. [`MemorySource`] (`source`) gives the bytes of a file, a few a read. [`MemoryOutlet`] (`outlet`) is a new file, or an
//!    output: it keeps what it takes. [`Quiet`] (`quiet`) tells no progress.
//! 3. [`Fault`] (`fault`) is the call that fails. [`Task`] (`task`) is what a program is to do, with the world before its run, and
//!    [`Ended`] what the run leaves: whether it is what is due where a call fails.
//!
//! **Example**, compiled and proved in `crates/dsr/src/in_memory.rt`:
//!
//! ```
//!     let out = world.output();
//!     let mut told = MemoryOutlet::new(alloc, u64::MAX, true);
//!     let (out, status) = serve(rt, alloc, &mut world, out, &mut told);
//! ```
//!
//! **The promise.** It tells what it has, its words and the bytes behind its names, and each of its calls does what the contracts of
//! the traits say of a world that tells. So these contracts can be met, and what the programs' contracts say of such a world says
//! something. No call waits.
//!
//! **Where to begin.** `specs/Disks.antt` says what it has, and `src/world.rt` has its calls.
#![tactic(auto)]

mod fault;
mod file;
mod outlet;
mod quiet;
mod source;
mod task;
mod world;

pub use fault::Fault;
pub use file::MemoryFile;
pub use outlet::MemoryOutlet;
pub use quiet::Quiet;
pub use source::MemorySource;
pub use task::{Ended, Task};
pub use world::{MemoryPermit, MemoryWorld};
