//! The bytes that were read of a statement and are not taken yet.
ghost use Rattle.std.specs.Prelude.{◌≡◌, ◌≤◌, [], length, drop};
ghost use Rattle.dsr_sums.specs.inner.Readings.{ReadsBehind};

use dsr_io::{Failed, Source};
use std::marker::Model;

/// Room for the longest line, and for the bytes of a read behind it.
const ROOM: usize = 49_152;

/// The bytes that were read and are not taken yet, in the front of their room. Contracts see these bytes.
#[derive(Drop)]
pub(crate) struct Kept {
    room: [u8; ROOM],
    count: usize,
}

impl Model for Kept {
    ghost use Rattle.std.specs.Prelude.{ℕ, ◌≤◌, List, length, take};

    ghost Value = { List ℕ };

    ghost view = { λ k. take k.count k.room };

    ghost invariant = { λ k. k.count ≤ length k.room };
}

impl Kept {
    /// No bytes.
    pub(crate) fn new() -> Kept
        ensures { result ≡ [] }
    {
        Kept {
            room: [0; ROOM],
            count: 0,
        }
    }

    /// The bytes.
    #[inline(always)]
    pub(crate) fn as_slice(&self) -> &[u8]
        ensures { result.now ≡ self.now }
    {
        &self.room[..self.count]
    }

    /// Reads bytes behind these. Returns how many; 0 is the end.
    pub(crate) fn read_behind<R: Source>(&mut self, source: &mut R) -> Result<usize, Failed>
        requires { length self.old ≤ 16384 }
        ensures { ReadsBehind (R.told source.old) (R.told source.new) self.old self.new result }
    {
        match source.read(&mut self.room[self.count..]) {
            Ok(count) => {
                self.count += count;
                Ok(count)
            }
            Err(Failed) => Err(Failed),
        }
    }

    /// Drops the first bytes.
    pub(crate) fn drop_front(&mut self, count: usize)
        requires { count ≤ length self.old }
        ensures { self.new ≡ drop count self.old }
    {
        self.room.copy_within(count..self.count, 0);
        self.count -= count;
    }
}
