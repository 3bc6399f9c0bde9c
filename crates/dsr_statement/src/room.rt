//! The memory that writing a statement needs.
use crate::key::KEY_ROOM;
use crate::pieces::PIECE;
use dsr_cells::NoMemory;
use std::alloc::Global;

/// The memory that writing a statement needs.
#[derive(Drop)]
pub struct Room {
    /// Room for the cells of a key.
    pub(crate) key: Vec<u8>,
    /// Room for the bytes that wait to be written.
    pub(crate) waiting: Vec<u8>,
}

impl Room {
    /// All memory that writing a statement needs.
    ///
    /// # Errors
    ///
    /// `NoMemory`: out of memory.
    pub fn new(alloc: Global) -> Result<Room, NoMemory> {
        Ok(Room {
            key: Vec::from_elem(alloc, 0, KEY_ROOM)?,
            waiting: Vec::from_elem(alloc, 0, PIECE)?,
        })
    }
}
