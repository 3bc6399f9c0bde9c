//! A run, and where its statement goes.
ghost use Rattle.std.specs.Prelude.{◌≡◌, false, List, All, Some};
ghost use Rattle.dsr_command.specs.Faults.{dsr};
ghost use Rattle.dsr_command.specs.Outputs.{outputs};
ghost use Rattle.dsr_command.specs.Programs.{WroteInto, WroteOut};
ghost use Rattle.dsr_command.specs.World.{WhereTold, stands_for};
ghost use Rattle.dsr.specs.Serving.{IsAnswer, IsAnswerFor, IsAnswerTold};

use crate::sealing::run_sealed;
use dsr_cells::{NoMemory, Text};
use dsr_command::{
    DSR, FileSource, ReportWorld, Sealing, Telling, cannot_replace, exit_status, settle, watch,
    write_fault,
};
use dsr_file::{Failed, Source};
use dsr_intake::{IntakeError, Options, Outlet, RunError, Status, run};
use std::alloc::Global;
use std::io::Eprint;
use std::random::RandomSource;
use std::sync::Wait;
use std::thread::Threads;
use std::time::Clock;

/// What a run reads.
#[derive(Drop)]
pub(crate) struct Reading<R, T> {
    /// What tells its progress, if the words ask for that.
    pub(crate) teller: Option<Telling<T>>,
    pub(crate) inputs: Vec<R>,
    pub(crate) options: Box<Options>,
    /// The seal of its statement, if one is asked for.
    pub(crate) seal: Option<Sealing>,
}

/// Reads the files and prints their statement. Returns the output and the exit status.
pub(crate) fn run_printed<
    R: FileSource + Send + Drop + 'static,
    T: Clock + Eprint + Copy + Drop + Send + 'static,
    H: Threads + Wait + RandomSource + Clock + Copy + Send + 'static,
    O: Outlet,
    F: Outlet,
>(rt: &H, alloc: Global, reading: Reading<R, T>, out: O, fault: &mut F) -> (O, u8)
    requires sources { All (λ r. (R.told r).failed ≡ false) reading.inputs.items }
    requires outlet { (O.told out).failed ≡ false }
    requires empty { (O.told out).taken ≡ 0 }
    ensures { WroteOut (IsAnswerFor R.told reading.options.value reading.seal) IsAnswerTold
        reading.inputs.items (outputs (O.told out) (F.told fault.old))
        (outputs (O.told result.0) (F.told fault.new)) result.1 }
{
    let (out, answer) = run_inputs(rt, alloc, reading, out);
    let status = status_of(&answer, fault);
    (out, status)
}

/// Reads the files and writes their statement to a new file, which is put in the place that this name stands for only if there
/// is a report. Returns the exit status.
pub(crate) fn run_into<
    H: Threads + Wait + RandomSource + Clock + Copy + Send + 'static,
    W: ReportWorld,
    F: Outlet,
>(
    rt: &H,
    alloc: Global,
    world: &mut W,
    reading: Reading<W::Reader, W::Teller>,
    name: &Text,
    place: &Text,
    new: W::New,
    fault: &mut F,
) -> u8
    requires sources { All (λ r. (W.Reader.told r).failed ≡ false) reading.inputs.items }
    requires outlet { (W.New.told new).failed ≡ false }
    requires empty { (W.New.told new).taken ≡ 0 }
    ensures { WhereTold (W.disk world.old) (λ d. stands_for d name.now ≡ Some place.now
        → WroteInto W.New.told dsr
        (IsAnswerFor W.Reader.told reading.options.value reading.seal) IsAnswerTold
        reading.inputs.items new name.now d (W.disk world.new) (F.told fault.old)
        (F.told fault.new) result) }
{
    let (new, answer) = run_inputs(rt, alloc, reading, new);
    match settle(world, new, place, &answer) {
        Ok(()) => status_of(&answer, fault),
        Err(Failed) => cannot_replace(DSR, name, fault),
    }
}

/// The exit status of a run. The line of its error is written to `fault`.
fn status_of<F: Outlet>(answer: &Result<Status, RunError>, fault: &mut F) -> u8
    ensures { IsAnswerTold answer.now (F.told fault.old) (F.told fault.new) result }
{
    if let Err(error) = answer {
        write_fault(error, fault);
    }
    exit_status(answer)
}

/// Reads the files, with progress if something tells it, and writes their statement. Returns the output too.
fn run_inputs<
    R: FileSource + Send + Drop + 'static,
    T: Clock + Eprint + Copy + Drop + Send + 'static,
    H: Threads + Wait + RandomSource + Clock + Copy + Send + 'static,
    O: Outlet,
>(rt: &H, alloc: Global, reading: Reading<R, T>, out: O) -> (O, Result<Status, RunError>)
    requires sources { All (λ r. (R.told r).failed ≡ false) reading.inputs.items }
    requires outlet { (O.told out).failed ≡ false }
    requires empty { (O.told out).taken ≡ 0 }
    ensures { (left : List R) × IsAnswerFor R.told reading.options.value reading.seal
        reading.inputs.items left (O.told out) (O.told result.0) result.1 }
{
    let Reading {
        teller,
        inputs,
        options,
        seal,
    } = reading;
    let Some(teller) = teller else {
        return run_sources(rt, alloc, inputs, options, seal, out);
    };
    match watch(teller, alloc, inputs) {
        Ok((watched, progress)) => {
            let answer = run_sources(rt, alloc, watched, options, seal, out);
            progress.end();
            answer
        }
        Err(NoMemory) => (out, Err(RunError::Intake(IntakeError::Memory))),
    }
}

/// Reads these sources and writes their statement, with its seal if one is asked for. Returns the output too.
fn run_sources<
    R: Source + Send + Drop + 'static,
    H: Threads + Wait + RandomSource + Clock + Copy + Send + 'static,
    O: Outlet,
>(
    rt: &H,
    alloc: Global,
    sources: Vec<R>,
    options: Box<Options>,
    seal: Option<Sealing>,
    out: O,
) -> (O, Result<Status, RunError>)
    requires sources { All (λ r. (R.told r).failed ≡ false) sources.items }
    requires outlet { (O.told out).failed ≡ false }
    requires empty { (O.told out).taken ≡ 0 }
    ensures { (left : List R) × IsAnswerFor R.told options.value seal sources.items left
        (O.told out) (O.told result.0) result.1 }
{
    match seal {
        Some(seal) => run_sealed(rt, alloc, sources, options, seal, out),
        None => run_plain(rt, alloc, sources, options, out),
    }
}

/// Reads these sources and writes their statement, without a seal. Returns the output too.
fn run_plain<
    R: Source + Send + Drop + 'static,
    H: Threads + Wait + RandomSource + Clock + Copy + Send + 'static,
    O: Outlet,
>(
    rt: &H,
    alloc: Global,
    sources: Vec<R>,
    options: Box<Options>,
    out: O,
) -> (O, Result<Status, RunError>)
    requires sources { All (λ r. (R.told r).failed ≡ false) sources.items }
    requires outlet { (O.told out).failed ≡ false }
    ensures { (left : List R) × IsAnswer R.told options.value sources.items left
        (O.told out) (O.told result.0) result.1 }
{
    let mut sources = sources;
    let mut out = out;
    let answer = run(rt, alloc, &mut sources, Box::into_inner(options), &mut out);
    (out, answer)
}
