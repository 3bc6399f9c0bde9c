//! What both programs do before they read a file: without words, or with words that ask for a text or are refused.
ghost use Rattle.std.specs.Prelude.{◌≡◌};
ghost use Rattle.dsr_command.specs.Faults.{IsTold, line_of};
ghost use Rattle.dsr_command.specs.Outputs.{IsShown, IsTurnedDown, no_words_line, no_words_status, outputs};

use crate::command::CommandFault;
use crate::faults::{REFUSED, UNFINISHED, write_failed};
use crate::print::print_text;
use crate::refusals::{no_memory, refuse};
use crate::world::WordsFault;
use dsr_cells::Text;
use dsr_intake::Outlet;

/// Writes why there are no words, and returns the exit status.
pub fn no_words<F: Outlet>(program: &str, error: WordsFault, fault: &mut F) -> u8
    ensures status { result ≡ no_words_status error }
    ensures told { IsTold (F.told fault.old) (F.told fault.new) (no_words_line program.now error) }
{
    match error {
        WordsFault::NotUtf8 => refuse(program, "an argument is not UTF-8", fault),
        WordsFault::Memory => no_memory(program, fault),
    }
}

/// Prints the text that words ask for, or writes why they are refused, and returns the exit status.
pub fn turn_down<O: Outlet, F: Outlet>(
    program: &str,
    error: &CommandFault,
    out: &mut O,
    fault: &mut F,
) -> u8
    ensures { IsTurnedDown program.now error.now (outputs (O.told out.old) (F.told fault.old))
        (outputs (O.told out.new) (F.told fault.new)) result }
{
    match error {
        CommandFault::Help(text) => show(program, text, out, fault),
        CommandFault::Refused(text) => refused(text, fault),
        CommandFault::Memory => no_memory(program, fault),
    }
}

/// Prints a text that was asked for, and returns the exit status.
fn show<O: Outlet, F: Outlet>(program: &str, text: &Text, out: &mut O, fault: &mut F) -> u8
    ensures { IsShown program.now text.now (outputs (O.told out.old) (F.told fault.old))
        (outputs (O.told out.new) (F.told fault.new)) result }
{
    match print_text(text.as_str().as_bytes(), out) {
        Ok(()) => 0,
        Err(written) => {
            write_failed(program, written as u64, fault);
            UNFINISHED
        }
    }
}

/// Writes why words are refused, and returns the exit status.
fn refused<F: Outlet>(text: &Text, fault: &mut F) -> u8
    ensures status { result ≡ 2 }
    ensures told { IsTold (F.told fault.old) (F.told fault.new) text.now }
{
    let _ = print_text(text.as_str().as_bytes(), fault);
    REFUSED
}
