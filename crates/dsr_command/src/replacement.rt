//! Putting a new file in another one's place, or removing it.
ghost use Rattle.std.specs.Prelude.{◌≡◌, ℕ, List, Some};
ghost use Rattle.dsr_command.specs.NewFiles.{IsPlaced, IsSettled};
ghost use Rattle.dsr_command.specs.World.{WhereTold, stands_for};

use crate::world::World;
use dsr_cells::Text;
use dsr_file::Failed;

/// Puts a new file in the place of the one of this name, which is no link, if the answer is Ok, and removes it if not.
///
/// # Errors
///
/// `Failed`: the answer is Ok, but the file could not be put in its place; it was removed.
pub fn settle<W: World, T, E>(
    world: &mut W,
    new: W::New,
    place: &Text,
    answer: &Result<T, E>,
) -> Result<(), Failed>
    ensures { WhereTold (W.disk world.old) (λ d. (name : List ℕ) → stands_for d name ≡ Some place.now
        → IsSettled (W.New.told new).contents name d (W.disk world.new) answer.now result) }
{
    match answer {
        Ok(_) => take_place(world, new, place),
        Err(_) => {
            world.remove(new);
            Ok(())
        }
    }
}

/// Syncs a new file to the disk and puts it in the place of the one of this name, or removes it.
fn take_place<W: World>(world: &mut W, new: W::New, place: &Text) -> Result<(), Failed>
    ensures { WhereTold (W.disk world.old) (λ d. (name : List ℕ) → stands_for d name ≡ Some place.now
        → IsPlaced (W.New.told new).contents name d (W.disk world.new) result) }
{
    let mut new = new;
    match world.sync(&mut new) {
        Ok(()) => put_or_remove(world, new, place),
        Err(Failed) => {
            world.remove(new);
            Err(Failed)
        }
    }
}

/// Puts a new file, of which all bytes were synced, in the place of the one of this name, or removes it.
fn put_or_remove<W: World>(world: &mut W, new: W::New, place: &Text) -> Result<(), Failed>
    requires { W.New.synced new ≡ (W.New.told new).contents }
    ensures { WhereTold (W.disk world.old) (λ d. (name : List ℕ) → stands_for d name ≡ Some place.now
        → IsPlaced (W.New.told new).contents name d (W.disk world.new) result) }
{
    match world.rename(&new, place.as_str()) {
        Ok(()) => Ok(()),
        Err(Failed) => {
            world.remove(new);
            Err(Failed)
        }
    }
}
