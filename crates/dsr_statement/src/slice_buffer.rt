//! A buffer of bytes in a slice.
ghost use Rattle.std.specs.Prelude.{◌≡◌, ◌++◌, [], if◌then◌else◌};

use std::marker::Model;

/// Bytes in the front of a slice, to which more are appended while there is room. Contracts see the bytes.
#[derive(Drop)]
pub(crate) struct SliceBuffer<'a> {
    room: &'a mut [u8],
    count: usize,
}

impl<'a> Model for SliceBuffer<'a> {
    ghost use Rattle.std.specs.Prelude.{ℕ, ◌≤◌, List, length, take};

    ghost Value = { List ℕ };

    ghost view = { λ w. take w.count w.room.now };

    ghost invariant = { λ w. w.count ≤ length w.room.now };
}

impl<'a> SliceBuffer<'a> {
    /// No bytes, with this room for them.
    pub(crate) fn new(room: &'a mut [u8]) -> SliceBuffer<'a>
        ensures { result ≡ [] }
    {
        SliceBuffer { room, count: 0 }
    }

    /// Appends these bytes if there is room for all of them. Returns whether there is.
    #[inline(always)]
    pub(crate) fn append(&mut self, bytes: &[u8]) -> bool
        ensures { self.new ≡ (if result then self.old ++ bytes.now else self.old) }
    {
        if bytes.len() > self.room.len() - self.count {
            return false;
        }
        let end = self.count + bytes.len();
        self.room[self.count..end].copy_from_slice(bytes);
        self.count = end;
        true
    }

    /// The bytes.
    pub(crate) fn as_slice(&self) -> &[u8]
        ensures { result.now ≡ self.now }
    {
        &self.room[..self.count]
    }

    /// Takes all bytes out.
    pub(crate) fn clear(&mut self)
        ensures { self.new ≡ [] }
    {
        self.count = 0;
    }
}
