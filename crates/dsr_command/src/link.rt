//! Links, and where they lead.
ghost use Rattle.std.specs.Prelude.{◌≡◌, IfOk};
ghost use Rattle.dsr_command.specs.World.{WhereTold, seen_from, stands_for};

use crate::world::World;
use dsr_cells::{NoMemory, Text};
use std::alloc::Global;
use std::path::PathBuf;

/// What a name is as a link.
#[derive(Drop)]
pub enum Link {
    /// It is none.
    Plain,
    /// One to what this text names, seen from its folder.
    To(Text),
    /// One that is not followed: it is a descriptor, or cannot be read.
    Barred,
}

/// How many names are looked at, one after another.
const MOST_NAMES: u32 = 40;

/// The name at which the links of a name end: the name itself if it is no link. None: they are not followed to an end.
///
/// # Errors
///
/// Out of memory.
pub(crate) fn end_of_links<W: World>(
    alloc: Global,
    world: &W,
    name: &str,
) -> Result<Option<Text>, NoMemory>
    ensures { WhereTold (W.disk world.now) (λ d. IfOk result (λ end. end ≡ stands_for d name.now)) }
{
    let mut place = Text::copy_of(alloc, name)?;
    let mut left = MOST_NAMES;
    'links: while left > 0 {
        match world.link(place.as_str())? {
            Link::Plain => return Ok(Some(place)),
            Link::To(text) => {
                place = seen_from(alloc, place.as_str(), text.as_str())?;
                left -= 1;
            }
            Link::Barred => return Ok(None),
        }
    }
    Ok(None)
}

/// What a link of this name names by its text, which is seen from the folder of the link.
fn seen_from(alloc: Global, name: &str, text: &str) -> Result<Text, NoMemory>
    ensures { IfOk result (λ seen. seen ≡ seen_from name.now text.now) }
{
    let mut path = PathBuf::from_str(alloc, name)?;
    path.pop();
    path.push(text)?;
    Text::of_string(alloc, path.into_string())
}
