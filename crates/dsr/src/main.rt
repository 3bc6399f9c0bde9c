//! The program: it reads the files of a sales report and prints their statement.
//!
//! 1. `program` runs its stages: it reads the command line, reads the layout, opens the files and creates the output
//!    (dsr_command).
//! 2. `running` passes the sources to `run` of dsr_intake, which writes the statement to standard output or to the new file,
//!    puts this in its place, and writes the line of an error. `sealing` does the same over sources that make digests of what
//!    they give (dsr_seal), and writes the seal behind the statement.
//! 3. `main` gives `serve` the words and files of the system (`Host` of dsr_command) and its outputs, and ends with the exit
//!    status that it returns.
//! 4. `in_memory` has the tests: whole runs over words and files in memory (dsr_memory), with each of their calls failing in turn.
//!
//! No crate depends on this one: another program calls `run` of dsr_intake, or reads a file by `FileReader` as
//! `crates/example_reader` does.
#![tactic(auto)]

#[cfg(test)]
mod in_memory;
mod program;
mod running;
mod sealing;

use dsr_command::Host;
use dsr_intake::ToWrite;
use program::serve;
use std::process::ExitCode;

fn main(rt: HostRuntime) -> ExitCode {
    let (out, mut fault) = (ToWrite::new(rt.stdout()), ToWrite::new(rt.stderr()));
    ExitCode::from(serve(&rt, rt.alloc(), &mut Host::new(rt), out, &mut fault).1)
}
