//! What the programs do around a run: their command line, their files, and what they say of them.
//!
//! 1. [`World`] (`world`): what a program asks of its surroundings, that is its words, names and files. [`FileSource`]
//!    (`file_source`) is a file that is read, [`NewOutlet`] (`new_outlet`) a new one that is written. [`ReportWorld`]
//!    (`report_world`) has a layout's file and progress, and [`StatementWorld`] (`statement_world`) neither. [`Host`] (`host`)
//!    is the world of the system; no other code touches its files: `host/source.rt` reads them, and `host/new.rt` makes new
//!    ones. `identity` says which file a name is, and [`Link`] (`link`) where one leads that is a link.
//! 2. [`asked`] (`arguments`): what the command line asks for ([`Asked`], in `command`), or why there is no run. The texts of
//!    the help and the version are here. [`no_words`] and [`turn_down`] (`answers`) are all that is done where there is no run,
//!    and [`print_text`] (`print`) prints a text.
//! 3. [`read_options`] (`layout_file`): the options of the run, with the layout that its file gives, the leave to open the
//!    report's files, and, if a seal is asked for, the digest of the layout ([`Sealing`], in `sealing`).
//! 4. [`open_inputs`] (`inputs`): a source for each file, or standard input, whose name is `-` and which can be read only once.
//!    Where progress was asked for [`teller_of`] has what tells it, and [`watch`] (`watched`) counts with it what the sources
//!    give; [`Progress`] (`progress`) writes the counts, and at the end how fast the files were read.
//! 5. [`create_beside`] (`new_file`): a new file for `--output`, beside the file to which the links of a name lead. [`settle`]
//!    (`replacement`) puts it in the place of that file after an Ok, and else removes it.
//! 6. [`write_fault`] and [`exit_status`] (`faults`): the line that says why a run failed, and the exit status.
//! 7. [`refuse`], [`not_opened`], [`layout_refused`], [`cannot_read`], [`no_new_file`] and [`no_memory`] (`refusals`): what ends
//!    the program before a file of the report is read.
//!
//! **Example**: how the program calls them, in `crates/dsr/src/program.rt`.
//!
//! ```
//!     match read_options(alloc, world, asked) {
//!         Ok(options) => read_files(rt, alloc, world, asked, options, out, fault),
//!         Err(error) => (out, layout_refused(layout_name(asked), error, fault)),
//!     }
//! ```
//!
//! **The promise.** A command line is read as clap's definition of its rules says. In a world that tells its files, the sources
//! give the bytes behind the names, in their order, and a layout is that of all bytes of its file. A new file takes another
//! one's place only after an Ok. The lines and the exit statuses are those of `specs/Faults.antt`, `specs/NewFiles.antt` and
//! `specs/Outputs.antt`; a line is written whole, or the outlet has failed in it. If memory is refused, each call says so.
//!
//! **Where to begin.** `specs/World.antt` and `specs/Faults.antt`; then `src/world.rt`.
#![tactic(auto)]

mod answers;
mod arguments;
mod command;
mod faults;
mod file_source;
mod host;
mod identity;
mod inputs;
mod layout_file;
mod link;
mod new_file;
mod new_outlet;
mod print;
mod progress;
mod refusals;
mod replacement;
mod report_world;
mod sealing;
mod statement_world;
mod watched;
mod world;

pub use answers::{no_words, turn_down};
pub use arguments::{
    asked, fault_of_error, flag_option, is_set, output_option, read_file_name, read_names,
};
pub use command::{Asked, CommandFault, Names};
pub use faults::{DSR, REFUSED, UNFINISHED, exit_status, write_failed, write_fault, write_line};
pub use file_source::FileSource;
pub use host::Host;
pub use identity::{FileIdentity, Place};
pub use inputs::{OpenError, is_input_twice, open_inputs, unopened};
pub use layout_file::{LayoutReadError, RunOptions, read_options};
pub use link::Link;
pub use new_file::{NewFileError, create_beside};
pub use new_outlet::NewOutlet;
pub use print::{print_text, write_parts};
pub use progress::Progress;
pub use refusals::{
    cannot_read, cannot_replace, layout_refused, no_memory, no_new_file, not_opened, refuse,
};
pub use replacement::settle;
pub use report_world::ReportWorld;
pub use sealing::Sealing;
pub use statement_world::StatementWorld;
pub use watched::{Telling, Watched, teller_of, watch};
pub use world::{OpenFault, WordsFault, World};
