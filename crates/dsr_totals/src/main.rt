//! The second program: it reads statements and prints what they add up to.
//!
//! 1. `program` runs its stages: it reads the command line (`arguments`, which gives a `command`), reads the names in lists
//!    (`lists`) and opens the statements (`opening`), and creates the output.
//! 2. `totaling` passes the sources to `add_up` of dsr_sums, writes the text to standard output or to the new file, and puts this
//!    in its place. `faults` has the line for a statement that is refused, and for totals that are out of range.
//! 3. `main` gives `serve` the words and files of the system (`Host` of dsr_command) and its outputs, and ends with the exit
//!    status that it returns.
//! 4. `in_memory` has the tests: whole runs over words and files in memory (dsr_memory), with each of their calls failing in turn.
//!
//! What both programs do stands in dsr_command. No crate depends on this one: another program calls `add_up` of dsr_sums.
#![tactic(auto)]

mod arguments;
mod command;
mod faults;
#[cfg(test)]
mod in_memory;
mod lists;
mod opening;
mod program;
mod totaling;

use dsr_command::Host;
use dsr_io::ToWrite;
use program::serve;
use std::process::ExitCode;

fn main(rt: HostRuntime) -> ExitCode {
    let (mut out, mut fault) = (ToWrite::new(rt.stdout()), ToWrite::new(rt.stderr()));
    ExitCode::from(serve(&rt, rt.alloc(), &mut Host::new(rt), &mut out, &mut fault))
}
