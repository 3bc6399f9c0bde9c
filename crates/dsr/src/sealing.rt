//! A run whose statement ends with a seal.
ghost use Rattle.std.specs.Prelude.{◌≡◌, ◌≤◌, ℕ, false, [], List, All, IfOk, vec_len, vec_capacity, map};
ghost use Rattle.dsr_seal.specs.layer.Counts.{IsCounted};
ghost use Rattle.dsr_seal.specs.meaning.Digests.{digest_of};
ghost use Rattle.dsr.specs.Serving.{IsSealedAnswer};
ghost use Rattle.dsr.specs.Sealing.{HoldTexts, IsEnded};

use dsr_cells::NoMemory;
use dsr_command::Sealing;
use dsr_file::Source;
use dsr_intake::{IntakeError, Options, Outlet, RunError, Status, run};
use dsr_seal::{Counted, Digest, Digesting, write_seal};
use std::alloc::Global;
use std::random::RandomSource;
use std::sync::Wait;
use std::thread::Threads;
use std::time::Clock;

/// Reads these sources and writes their statement and its seal. All memory that the seal takes is had before the run. Returns
/// the output too.
pub(crate) fn run_sealed<
    R: Source + Send + Drop + 'static,
    H: Threads + Wait + RandomSource + Clock + Copy + Send + 'static,
    O: Outlet,
>(
    rt: &H,
    alloc: Global,
    sources: Vec<R>,
    options: Box<Options>,
    seal: Sealing,
    out: O,
) -> (O, Result<Status, RunError>)
    requires sources { All (λ r. (R.told r).failed ≡ false) sources.items }
    requires outlet { (O.told out).failed ≡ false }
    requires empty { (O.told out).taken ≡ 0 }
    ensures { (left : List R) × IsSealedAnswer R.told options.value seal sources.items left
        (O.told out) (O.told result.0) result.1 }
{
    let Ok(room) = Vec::with_capacity(alloc, sources.len()) else {
        return (out, Err(RunError::Intake(IntakeError::Memory)));
    };
    let Ok(sources) = digesting(alloc, sources) else {
        return (out, Err(RunError::Intake(IntakeError::Memory)));
    };
    let mut out = Counted::new(out);
    let answer = write_sealed(rt, alloc, sources, options, seal, room, &mut out);
    (out.into_outlet(), answer)
}

/// Reads these sources and writes their statement and its seal. There is room for their digests.
fn write_sealed<
    R: Source + Send + Drop + 'static,
    H: Threads + Wait + RandomSource + Clock + Copy + Send + 'static,
    O: Outlet,
>(
    rt: &H,
    alloc: Global,
    sources: Vec<Digesting<R>>,
    options: Box<Options>,
    seal: Sealing,
    room: Vec<Digest>,
    out: &mut Counted<O>,
) -> Result<Status, RunError>
    requires sources { All (λ d. (R.told d.source).failed ≡ false) sources.items }
    requires nothing { All (λ d. ⟦<Digesting<R> as Source>⟧.holds d []) sources.items }
    requires outlet { (⟦<Counted<O> as Outlet>⟧.told out.old).failed ≡ false }
    requires empty { (⟦<Counted<O> as Outlet>⟧.told out.old).taken ≡ 0 }
    requires no_digests { room.items ≡ [] }
    requires room { vec_len sources ≤ vec_capacity room }
    ensures { (left : List (Digesting R)) × IsSealedAnswer ⟦<Digesting<R> as Source>⟧.told
        options.value seal sources.items left (⟦<Counted<O> as Outlet>⟧.told out.old)
        (⟦<Counted<O> as Outlet>⟧.told out.new) result }
{
    let mut sources = sources;
    match run(rt, alloc, &mut sources, Box::into_inner(options), out) {
        Ok(status) => finish(digests_of(sources, room), seal, status, out),
        Err(error) => Err(error),
    }
}

/// Wraps the sources, so that they make the digests of what they give.
///
/// # Errors
///
/// Out of memory.
fn digesting<R: Source + Drop>(
    alloc: Global,
    sources: Vec<R>,
) -> Result<Vec<Digesting<R>>, NoMemory>
    ensures sources { IfOk result (λ v. map (λ d. d.source) v.items ≡ sources.items) }
    ensures nothing { IfOk result (λ v. All (λ d. ⟦<Digesting<R> as Source>⟧.holds d []) v.items) }
{
    let Ok(mut made) = Vec::with_capacity(alloc, sources.len()) else {
        return Err(NoMemory);
    };
    for source in sources {
        let Ok(()) = made.push(Digesting::new(source)) else {
            return Err(NoMemory);
        };
    }
    Ok(made)
}

/// The digests of what the sources gave, in order. There is room for them.
fn digests_of<R: Source + Drop>(sources: Vec<Digesting<R>>, room: Vec<Digest>) -> Vec<Digest>
    requires empty { room.items ≡ [] }
    requires room { vec_len sources ≤ vec_capacity room }
    ensures { (texts : List (List ℕ)) → HoldTexts ⟦<Digesting<R> as Source>⟧.holds sources.items texts
        → result.items ≡ map digest_of texts }
{
    let mut digests = room;
    for source in sources {
        let Ok(()) = digests.push(source.into_digest()) else {
            unreachable!()
        };
    }
    digests
}

/// Writes the seal behind a statement with this status, of which the outlet took all bytes.
fn finish<O: Outlet>(
    digests: Vec<Digest>,
    seal: Sealing,
    status: Status,
    out: &mut Counted<O>,
) -> Result<Status, RunError>
    ensures { (lines : ℕ) × IsCounted lines (⟦<Counted<O> as Outlet>⟧.told out.old)
        × IsEnded seal.layout digests.items lines status
        (⟦<Counted<O> as Outlet>⟧.told out.old) (⟦<Counted<O> as Outlet>⟧.told out.new) result }
{
    let lines = out.lines();
    let answer = write_seal(out, seal.layout.as_ref(), &digests, lines, status);
    drop(digests);
    drop(seal);
    match answer {
        Ok(()) => Ok(status),
        Err(_) => Err(RunError::Write {
            written: out.taken(),
        }),
    }
}
