//! A new file for `--output`, beside the one whose place it takes once it is whole.
ghost use Rattle.std.specs.Prelude.{◌≡◌, ◌≢◌, ◌++◌, false, true, All, IfOk, Some, map};
ghost use Rattle.std.specs.List.{Any};
ghost use Rattle.dsr_command.specs.NewFiles.{IsCreated, IsMade, IsPartOf, IsPlaceFault, part_of};
ghost use Rattle.dsr_command.specs.World.{WhereTold};

use crate::file_source::FileSource;
use crate::identity::{FileIdentity, Place};
use crate::link::end_of_links;
use crate::world::World;
use dsr_cells::{NoMemory, Text};
use dsr_file::Failed;
use std::alloc::Global;

/// Why there is no new file.
#[derive(Clone, Copy, PartialEq, Eq)]
pub enum NewFileError {
    /// The file that it would replace is one of those that are read.
    IsRead,
    /// It cannot be created, or what it would replace is no ordinary file.
    CannotCreate,
    /// Memory was refused.
    Memory,
}

/// Creates a new file beside the one of this name, which is none of those that are read: the files `besides`, and the sources.
/// Returns the name too at which the links of this name end, for the place that the new file is to take.
///
/// # Errors
///
/// `IsRead`, `CannotCreate` and `Memory`: nothing was created.
pub fn create_beside<W: World>(
    alloc: Global,
    world: &mut W,
    name: &Text,
    sources: &[W::Reader],
    besides: &[Option<FileIdentity>],
) -> Result<(W::New, Text), NewFileError>
    ensures sound { IfOk result (λ n. (W.New.told n.0).failed ≡ false) }
    ensures empty { IfOk result (λ n. (W.New.told n.0).taken ≡ 0) }
    ensures beside { IfOk result (λ n. IsPartOf n.1 (W.New.name n.0)) }
    ensures created { WhereTold (W.disk world.old) (λ d. IsCreated W.New.told d (W.disk world.new)
        (besides.now ++ map W.Reader.file sources.now) name.now result) }
{
    let place = world.place(name.as_str());
    if let Some(error) = place_fault(place, sources, besides) {
        return Err(error);
    }
    make_beside(alloc, world, name)
}

/// Creates a new file beside the one at which the links of this name end, and returns that one's name too.
fn make_beside<W: World>(
    alloc: Global,
    world: &mut W,
    name: &Text,
) -> Result<(W::New, Text), NewFileError>
    ensures sound { IfOk result (λ n. (W.New.told n.0).failed ≡ false) }
    ensures empty { IfOk result (λ n. (W.New.told n.0).taken ≡ 0) }
    ensures beside { IfOk result (λ n. IsPartOf n.1 (W.New.name n.0)) }
    ensures made { WhereTold (W.disk world.old) (λ d. IsMade W.New.told d (W.disk world.new)
        name.now result) }
{
    let place = match end_of_links(alloc, world, name.as_str()) {
        Ok(Some(place)) => place,
        Ok(None) => return Err(NewFileError::CannotCreate),
        Err(NoMemory) => return Err(NewFileError::Memory),
    };
    let Ok(number) = world.random() else {
        return Err(NewFileError::CannotCreate);
    };
    let Ok(part) = part_name(alloc, place.as_str(), number) else {
        return Err(NewFileError::Memory);
    };
    match world.create(part) {
        Ok(new) => Ok((new, place)),
        Err(Failed) => Err(NewFileError::CannotCreate),
    }
}

/// The name of a new file beside the one of this name.
fn part_name(alloc: Global, place: &str, number: u64) -> Result<Text, NoMemory>
    ensures { IfOk result (λ part. part ≡ part_of place.now number) }
{
    Text::of_string(alloc, format!(in alloc; "{}.{:020}.part", place, number)?)
}

/// Why there can be no new file for this place, if there can be none.
fn place_fault<R: FileSource>(
    place: Place,
    sources: &[R],
    besides: &[Option<FileIdentity>],
) -> Option<NewFileError>
    ensures { IsPlaceFault place (besides.now ++ map R.file sources.now) result }
{
    match place {
        Place::Free => None,
        Place::Ordinary(file) => {
            if is_read(file, sources, besides) {
                Some(NewFileError::IsRead)
            } else {
                None
            }
        }
        Place::Other => Some(NewFileError::CannotCreate),
    }
}

/// Whether a file is one of those that are read.
fn is_read<R: FileSource>(
    file: FileIdentity,
    sources: &[R],
    besides: &[Option<FileIdentity>],
) -> bool
    ensures read { result ≡ true
        → Any (λ f. f ≡ Some file) (besides.now ++ map R.file sources.now) }
    ensures apart { result ≡ false
        → All (λ f. f ≢ Some file) (besides.now ++ map R.file sources.now) }
{
    if besides.contains(&Some(file)) {
        return true;
    }
    for source in sources {
        if source.identity() == Some(file) {
            return true;
        }
    }
    false
}
