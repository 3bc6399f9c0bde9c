//! Opening the statements.
ghost use Rattle.std.specs.Prelude.{◌≡◌, false, All, IfOk, MatchResult};
ghost use Rattle.dsr_command.specs.World.{AreSources, WhereTold, files_for, texts_for};
ghost use Rattle.dsr_totals.specs.Serving.{files_asked, texts_asked};
ghost use Rattle.dsr_totals.specs.Steps.{AreOpened, AreUnopened, IsPaidRefusal};

use crate::command::Asked;
use crate::lists::{InputError, read_lists};
use dsr_command::{FileIdentity, OpenError, StatementWorld, is_input_twice, open_inputs};
use std::alloc::Global;

/// What was opened.
#[derive(Drop)]
pub(crate) struct Opened<R> {
    /// The statements.
    pub(crate) inputs: Vec<R>,
    /// Which files the lists are, as far as that is known.
    pub(crate) lists: Vec<Option<FileIdentity>>,
}

/// Opens the statements: the given ones, or standard input if none is named, and then those that were paid, after whose names
/// those in the lists are put.
pub(crate) fn open_statements<W: StatementWorld>(
    alloc: Global,
    world: &W,
    asked: &mut Asked,
) -> Result<Opened<W::Reader>, InputError>
    ensures unfailed { IfOk result (λ o.
        All (λ r. (W.Reader.told r).failed ≡ false) o.inputs.items) }
    ensures opened { WhereTold (W.disk world.now) (λ d. MatchResult result
        (AreOpened W.Reader.told W.Reader.file d asked.old asked.new)
        (AreUnopened W.Reader.told d asked.old)) }
{
    let permit = world.permit();
    let given = match open_inputs(alloc, world, &permit, &asked.given) {
        Ok(given) => given,
        Err(error) => return Err(InputError::Open(error)),
    };
    let lists = match read_lists(alloc, world, &permit, &asked.lists, &mut asked.paid) {
        Ok(lists) => lists,
        Err(error) => {
            drop(given);
            return Err(error);
        }
    };
    match with_paid(alloc, world, &permit, asked, given) {
        Ok(inputs) => Ok(Opened { inputs, lists }),
        Err(error) => {
            drop(lists);
            Err(error)
        }
    }
}

/// Opens the statements that were paid, and appends them to the given ones.
fn with_paid<W: StatementWorld>(
    alloc: Global,
    world: &W,
    permit: &W::Permit,
    asked: &Asked,
    given: Vec<W::Reader>,
) -> Result<Vec<W::Reader>, InputError>
    requires given { All (λ r. (W.Reader.told r).failed ≡ false) given.items }
    ensures unfailed { IfOk result (λ v. All (λ r. (W.Reader.told r).failed ≡ false) v.items) }
    ensures opened { WhereTold (W.disk world.now) (λ d.
        AreSources W.Reader.told W.Reader.file (texts_for d asked.now.given)
        (files_for d asked.now.given) given.items → MatchResult result
        (λ v. AreSources W.Reader.told W.Reader.file (texts_asked d asked.now)
        (files_asked d asked.now) v.items)
        (IsPaidRefusal (texts_asked d asked.now))) }
{
    let mut inputs = given;
    if is_input_twice(&asked.given, &asked.paid) {
        drop(inputs);
        return Err(InputError::Open(OpenError::InputTwice));
    }
    if asked.paid.len() == 0 {
        return Ok(inputs);
    }
    let mut paid = match open_inputs(alloc, world, permit, &asked.paid) {
        Ok(paid) => paid,
        Err(error) => {
            drop(inputs);
            return Err(InputError::Open(error));
        }
    };
    match inputs.append(&mut paid) {
        Ok(()) => Ok(inputs),
        Err(_) => Err(InputError::Open(OpenError::Memory)),
    }
}
