//! The totals, and where they go.
ghost use Rattle.std.specs.Prelude.{◌≡◌, false, List, All, Some};
ghost use Rattle.dsr_command.specs.Faults.{IsTold};
ghost use Rattle.dsr_command.specs.Outputs.{outputs};
ghost use Rattle.dsr_command.specs.Programs.{WroteInto, WroteOut};
ghost use Rattle.dsr_command.specs.World.{WhereTold, stands_for};
ghost use Rattle.dsr_totals.specs.Refusals.{dsr_totals};
ghost use Rattle.dsr_totals.specs.Totaling.{IsAnswerTold, WroteTotals, error_line, error_status, given_count, name_at, name_in, other_name, refused_name, refused_other};

use crate::command::Asked;
use crate::faults::{DSR_TOTALS, no_totals};
use dsr_cells::Text;
use dsr_command::{
    Names, StatementWorld, UNFINISHED, cannot_replace, print_text, settle, write_failed,
};
use dsr_io::{Failed, Outlet, Source};
use dsr_statement::StatementFault;
use dsr_sums::{TotalsError, add_up};
use std::alloc::Global;
use std::random::RandomSource;

/// The seed if there are no random bytes.
const FIXED_SEED: u64 = 0x9E37_79B9_7F4A_7C15;

/// A random seed, so that nobody can choose names whose hashes collide. No totals depend on it.
pub(crate) fn random_seed<H: RandomSource>(rt: &H) -> u64 {
    let mut bytes = [0u8; 8];
    match rt.fill_bytes(&mut bytes) {
        Ok(()) => u64::from_le_bytes(bytes),
        Err(_) => FIXED_SEED,
    }
}

/// How many of the inputs are of given statements.
fn given_count(asked: &Asked) -> usize
    ensures { result ≡ given_count asked.now.given }
{
    let given = asked.given.len();
    if given == 0 { 1 } else { given }
}

/// The name at this place: `-` if there is none.
fn name_in(names: &Names, place: usize) -> &str
    ensures { result.now ≡ name_in names.now place }
{
    match names.get(place) {
        Some(name) => name.as_str(),
        None => "-",
    }
}

/// The name of the statement at this place among all: `-` for standard input.
fn name_at(asked: &Asked, place: usize) -> &str
    ensures { result.now ≡ name_at asked.now place }
{
    let given = given_count(asked);
    if place < given {
        name_in(&asked.given, place)
    } else {
        name_in(&asked.paid, place - given)
    }
}

/// The name of the statement that is refused, if one is.
fn refused_name(asked: &Asked, error: TotalsError) -> &str
    ensures { result.now ≡ refused_name asked.now error }
{
    match error {
        TotalsError::Refused(place, _, _) => name_at(asked, place),
        _ => "-",
    }
}

/// The name of the earlier statement that a fault names, if it names one.
fn other_name(asked: &Asked, fault: StatementFault) -> &str
    ensures { result.now ≡ other_name asked.now fault }
{
    match fault {
        StatementFault::SameMessage(place) | StatementFault::Twice(place) => name_at(asked, place),
        _ => "",
    }
}

/// The same of the fault of the statement that is refused, if one is.
fn refused_other(asked: &Asked, error: TotalsError) -> &str
    ensures { result.now ≡ refused_other asked.now error }
{
    match error {
        TotalsError::Refused(_, _, fault) => other_name(asked, fault),
        _ => "",
    }
}

/// Why there are no totals, or they are not written.
#[derive(Debug, Clone, Copy, PartialEq, Eq)]
pub(crate) enum WriteError {
    /// There are none.
    NoTotals(TotalsError),
    /// A write failed after this many bytes.
    Write(u64),
}

/// Reads the statements and writes their totals.
fn write_totals<R: Source + Drop, H: RandomSource, O: Outlet>(
    rt: &H,
    alloc: Global,
    asked: &Asked,
    inputs: Vec<R>,
    out: &mut O,
) -> Result<(), WriteError>
    requires sources { All (λ r. (R.told r).failed ≡ false) inputs.items }
    ensures { (left : List R) × WroteTotals R.told asked.now inputs.items left
        (O.told out.old) (O.told out.new) result }
{
    let mut inputs = inputs;
    let text = match add_up(
        alloc,
        random_seed(rt),
        &mut inputs,
        given_count(asked),
        asked.rules,
    ) {
        Ok(text) => text,
        Err(error) => return Err(WriteError::NoTotals(error)),
    };
    match print_text(&text, out) {
        Ok(()) => Ok(()),
        Err(written) => Err(WriteError::Write(written as u64)),
    }
}

/// Writes the line of an error, and returns the exit status.
fn tell<F: Outlet>(error: WriteError, asked: &Asked, fault: &mut F) -> u8
    ensures status { result ≡ error_status error }
    ensures told { IsTold (F.told fault.old) (F.told fault.new) (error_line asked.now error) }
{
    match error {
        WriteError::NoTotals(error) => no_totals(
            error,
            refused_name(asked, error),
            refused_other(asked, error),
            fault,
        ),
        WriteError::Write(written) => {
            write_failed(DSR_TOTALS, written, fault);
            UNFINISHED
        }
    }
}

/// The exit status. The line of an error is written to `fault`.
fn status_of<F: Outlet>(answer: &Result<(), WriteError>, asked: &Asked, fault: &mut F) -> u8
    ensures { IsAnswerTold asked.now answer.now (F.told fault.old) (F.told fault.new) result }
{
    match answer {
        Ok(()) => 0,
        Err(error) => tell(*error, asked, fault),
    }
}

/// Reads the statements and prints their totals. Returns the exit status.
pub(crate) fn print_totals<R: Source + Drop, H: RandomSource, O: Outlet, F: Outlet>(
    rt: &H,
    alloc: Global,
    asked: &Asked,
    inputs: Vec<R>,
    out: &mut O,
    fault: &mut F,
) -> u8
    requires sources { All (λ r. (R.told r).failed ≡ false) inputs.items }
    ensures { WroteOut (WroteTotals R.told asked.now) (IsAnswerTold asked.now) inputs.items
        (outputs (O.told out.old) (F.told fault.old)) (outputs (O.told out.new) (F.told fault.new))
        result }
{
    status_of(&write_totals(rt, alloc, asked, inputs, out), asked, fault)
}

/// Reads the statements and writes their totals to a new file, which is put in the place that this name stands for only if they
/// are whole. Returns the exit status.
pub(crate) fn replace_by_totals<H: RandomSource, W: StatementWorld, F: Outlet>(
    rt: &H,
    alloc: Global,
    world: &mut W,
    asked: &Asked,
    inputs: Vec<W::Reader>,
    name: &Text,
    place: &Text,
    new: W::New,
    fault: &mut F,
) -> u8
    requires sources { All (λ r. (W.Reader.told r).failed ≡ false) inputs.items }
    ensures { WhereTold (W.disk world.old) (λ d. stands_for d name.now ≡ Some place.now
        → WroteInto W.New.told dsr_totals
        (WroteTotals W.Reader.told asked.now) (IsAnswerTold asked.now) inputs.items new name.now
        d (W.disk world.new) (F.told fault.old) (F.told fault.new) result) }
{
    let mut new = new;
    let answer = write_totals(rt, alloc, asked, inputs, &mut new);
    match settle(world, new, place, &answer) {
        Ok(()) => status_of(&answer, asked, fault),
        Err(Failed) => cannot_replace(DSR_TOTALS, name, fault),
    }
}
