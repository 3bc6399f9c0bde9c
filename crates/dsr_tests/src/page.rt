//! An outlet that fails at a given point.
ghost use Rattle.std.specs.Prelude.{◌≡◌, None, false, length};

use dsr_file::Failed;
use dsr_intake::Outlet;
use std::alloc::Global;

/// An outlet that keeps what it takes: at most `at_once` bytes a write, and `room` bytes in all.
/// Then its writes fail.
pub struct Page {
    bytes: Vec<u8>,
    at_once: usize,
    room: usize,
    flushes: bool,
    failed: bool,
    flush_count: u64,
    unflushed: bool,
}

/// Written out, so that dropping one is a call: a derived drop is proved anew wherever it happens.
impl Drop for Page {
    fn drop(self) {
        let Page {
            bytes: _,
            at_once: _,
            room: _,
            flushes: _,
            failed: _,
            flush_count: _,
            unflushed: _,
        } = self;
    }
}

impl Page {
    /// A page with room for any statement of the tests.
    pub fn new(alloc: Global) -> Page
        ensures { result.failed ≡ false }
    {
        Page::narrow(alloc, 65_536, 1_000_000, true)
    }

    /// A page that takes at most `at_once` bytes a write and `room` bytes in all; its flush fails
    /// unless `flushes` is set.
    pub fn narrow(alloc: Global, at_once: usize, room: usize, flushes: bool) -> Page
        ensures { result.failed ≡ false }
    {
        Page {
            bytes: Vec::new(alloc),
            at_once,
            room,
            flushes,
            failed: false,
            flush_count: 0,
            unflushed: false,
        }
    }

    /// Whether it was flushed once, after the last byte.
    pub fn is_flushed_once(&self) -> bool {
        self.flush_count == 1 && !self.unflushed
    }

    /// What was written.
    pub fn bytes(&self) -> &[u8] {
        self.bytes.as_slice()
    }
}

impl Outlet for Page {
    ghost told = { λ s. record {
      contents = None;
      taken = length s.bytes.items;
      failed = s.failed;
      flushes = s.flush_count;
      unflushed = s.unflushed;
    } };

    fn write(&mut self, piece: &[u8]) -> Result<usize, Failed> {
        let count = piece.len().min(self.at_once).min(self.room);
        if count == 0 || self.bytes.extend_from_slice(&piece[..count]).is_err() {
            self.failed = true;
            return Err(Failed);
        }
        self.room -= count;
        self.unflushed = true;
        Ok(count)
    }

    fn flush(&mut self) -> Result<(), Failed> {
        let Some(flush_count) = self.flush_count.checked_add(1) else {
            self.failed = true;
            return Err(Failed);
        };
        if self.flushes {
            self.flush_count = flush_count;
            self.unflushed = false;
            return Ok(());
        }
        self.failed = true;
        Err(Failed)
    }

    fn failed(&self) -> bool {
        self.failed
    }
}
