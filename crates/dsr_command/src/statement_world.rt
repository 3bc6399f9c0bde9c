//! What the program that adds up statements asks of its surroundings beside the files.
use crate::world::World;

/// A world without a layout's file, whose files may be opened from the beginning.
pub trait StatementWorld: World {
    /// The leave to open the files.
    fn permit(&self) -> Self::Permit;
}
