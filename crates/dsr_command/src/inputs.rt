//! Opening the files that are read, and standard input, whose name is `-`.
ghost use Rattle.std.specs.Prelude.{◌≡◌, ◌++◌, false, [], All, IfOk, MatchResult, count_by, map, nat_lt};
ghost use Rattle.dsr_command.specs.World.{AreSources, Opens, WhereTold, files_for, is_input, names_read, texts_for, texts_of, with_input};
ghost use Rattle.dsr_command.specs.Inputs.{IsRefusal, IsRefusalOf};

use crate::command::Names;
use crate::world::{OpenFault, World};
use dsr_cells::{NoMemory, Text};
use std::alloc::Global;

/// Why the files were not opened.
#[derive(Drop)]
pub enum OpenError {
    /// The first file that cannot be opened.
    CannotOpen(Text),
    /// Standard input is named more than once, and can be read only once.
    InputTwice,
    /// Memory was refused.
    Memory,
}

/// Opens the files, and standard input for the name `-`, or alone if none is named.
///
/// # Errors
///
/// `CannotOpen`: the first file that cannot be opened, by its name. `InputTwice`: standard input is named more than once;
/// nothing was opened. `Memory`: out of memory.
pub fn open_inputs<W: World>(
    alloc: Global,
    world: &W,
    permit: &W::Permit,
    names: &Names,
) -> Result<Vec<W::Reader>, OpenError>
    ensures unfailed { IfOk result (λ v. All (λ r. (W.Reader.told r).failed ≡ false) v.items) }
    ensures opened { WhereTold (W.disk world.now) (λ d. MatchResult result
        (λ v. AreSources W.Reader.told W.Reader.file (texts_for d names.now)
        (files_for d names.now) v.items)
        (IsRefusal (texts_for d names.now))) }
{
    if names.len() == 0 {
        return open_standard_input(alloc, world, permit);
    }
    if input_count(names) > 1 {
        return Err(OpenError::InputTwice);
    }
    open_files(alloc, world, permit, names)
}

/// Whether a name is that of standard input.
fn is_input(name: &str) -> bool
    ensures { result ≡ is_input name.now }
{
    name == "-"
}

/// How many of the names are that of standard input.
fn input_count(names: &Names) -> usize
    ensures { result ≡ count_by is_input names.now }
{
    names
        .as_slice()
        .iter()
        .filter(|name| is_input(name.as_str()))
        .count()
}

/// Whether standard input is named more than once by names, which are those of standard input if there are none, and by more.
pub fn is_input_twice(names: &Names, more: &Names) -> bool
    ensures { result ≡ nat_lt 1 (count_by is_input (names_read names.now ++ more.now)) }
{
    let count = if names.len() == 0 {
        1
    } else {
        input_count(names)
    };
    count.saturating_add(input_count(more)) > 1
}

/// Standard input alone.
fn open_standard_input<W: World>(
    alloc: Global,
    world: &W,
    permit: &W::Permit,
) -> Result<Vec<W::Reader>, OpenError>
    ensures unfailed { IfOk result (λ v. All (λ r. (W.Reader.told r).failed ≡ false) v.items) }
    ensures opened { WhereTold (W.disk world.now) (λ d. MatchResult result
        (λ v. AreSources W.Reader.told W.Reader.file (texts_for d []) (files_for d []) v.items)
        (IsRefusal (texts_for d []))) }
{
    let source = match world.standard_input(permit) {
        Ok(source) => source,
        Err(NoMemory) => return Err(OpenError::Memory),
    };
    let mut sources = Vec::new(alloc);
    match sources.push(source) {
        Ok(()) => Ok(sources),
        Err(_) => Err(OpenError::Memory),
    }
}

/// Opens what these names stand for, in order.
fn open_files<W: World>(
    alloc: Global,
    world: &W,
    permit: &W::Permit,
    names: &Names,
) -> Result<Vec<W::Reader>, OpenError>
    ensures unfailed { IfOk result (λ v. All (λ r. (W.Reader.told r).failed ≡ false) v.items) }
    ensures opened { WhereTold (W.disk world.now) (λ d. MatchResult result
        (λ v. AreSources W.Reader.told W.Reader.file (texts_of (with_input d).files names.now)
        (map (with_input d).file names.now) v.items)
        (IsRefusal (texts_of (with_input d).files names.now))) }
{
    let mut sources = Vec::new(alloc);
    for name in names.as_slice() {
        let source = match open_input(world, permit, name.as_str()) {
            Ok(source) => source,
            Err(fault) => return Err(unopened(alloc, name, fault)),
        };
        if sources.push(source).is_err() {
            return Err(OpenError::Memory);
        }
    }
    Ok(sources)
}

/// Opens standard input if this is its name, and else the file of this name.
fn open_input<W: World>(world: &W, permit: &W::Permit, name: &str) -> Result<W::Reader, OpenFault>
    ensures unfailed { IfOk result (λ r. (W.Reader.told r).failed ≡ false) }
    ensures opened { WhereTold (W.disk world.now) (λ d. Opens (W.Reader.told) (W.Reader.file)
        (with_input d) name.now result) }
{
    if is_input(name) {
        return match world.standard_input(permit) {
            Ok(source) => Ok(source),
            Err(NoMemory) => Err(OpenFault::Memory),
        };
    }
    world.open(permit, name)
}

/// The error of a file that was not opened, by its name.
pub fn unopened(alloc: Global, name: &Text, fault: OpenFault) -> OpenError
    ensures { IsRefusalOf name.now fault result }
{
    match (fault, name.copy(alloc)) {
        (OpenFault::Missing, Ok(name)) => OpenError::CannotOpen(name),
        _ => OpenError::Memory,
    }
}
