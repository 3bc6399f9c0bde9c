//! Printing a text that the command line asks for, and lines.
ghost use Rattle.std.specs.Prelude.{◌≤◌, MatchResult, length, take};
ghost use Rattle.dsr_io.specs.meaning.Written.{IsFlushed, IsCut};
ghost use Rattle.dsr_command.specs.Faults.{IsWritten, joined};

use dsr_file::Failed;
use dsr_intake::{Outlet, write_all};

/// Writes the whole text and flushes.
///
/// # Errors
///
/// How many bytes of the text were written, if a write or the flush fails.
pub fn print_text<W: Outlet>(text: &[u8], out: &mut W) -> Result<(), usize>
    ensures { MatchResult result
        (λ _. IsFlushed text.now (W.told out.old) (W.told out.new))
        (λ n. (n ≤ length text.now) × IsCut (take n text.now) (W.told out.old) (W.told out.new)) }
{
    write_all(out, text)?;
    match out.flush() {
        Ok(()) => Ok(()),
        Err(Failed) => Err(text.len()),
    }
}

/// Writes the parts one after another and flushes, and returns whether the outlet took all of them.
pub fn write_parts<W: Outlet>(parts: &[&str], out: &mut W) -> bool
    ensures { IsWritten result (W.told out.old) (W.told out.new) (joined parts.now) }
{
    for part in parts {
        match write_all(out, part.as_bytes()) {
            Ok(()) => {}
            Err(_count) => return false,
        }
    }
    match out.flush() {
        Ok(()) => true,
        Err(Failed) => false,
    }
}
