//! Outlets in memory.
ghost use Rattle.std.specs.Prelude.{◌≡◌, [], false, not, length, take, Some};

use dsr_cells::Text;
use dsr_command::NewOutlet;
use dsr_io::{Failed, Outlet};
use std::alloc::Global;

/// The most bytes of a write.
const PIECE: usize = 64;

/// A new file, or an output: it keeps what it takes, at most 64 bytes a write, until a write or a flush fails.
pub struct MemoryOutlet {
    name: Text,
    bytes: Vec<u8>,
    sound_writes: u64,
    flushes: bool,
    failed: bool,
    flush_count: u64,
    unflushed: bool,
    synced: usize,
}

/// Written out, so that dropping one is a call: a derived drop is proved anew wherever it happens.
impl Drop for MemoryOutlet {
    fn drop(self) {
        let MemoryOutlet {
            name: _,
            bytes: _,
            sound_writes: _,
            flushes: _,
            failed: _,
            flush_count: _,
            unflushed: _,
            synced: _,
        } = self;
    }
}

impl MemoryOutlet {
    /// An empty outlet, of which so many writes end well, and, if `flushes` is set, each flush.
    pub fn new(alloc: Global, sound_writes: u64, flushes: bool) -> MemoryOutlet
        ensures { ⟦<MemoryOutlet as Outlet>⟧.told result
            ≡ record {
              contents = Some [];
              taken = 0;
              failed = false;
              flushes = 0;
              unflushed = false;
            } }
    {
        MemoryOutlet {
            name: Text::default(),
            bytes: Vec::new(alloc),
            sound_writes,
            flushes,
            failed: false,
            flush_count: 0,
            unflushed: false,
            synced: 0,
        }
    }

    /// The same, as a new file of this name.
    pub(crate) fn named(self, name: Text) -> MemoryOutlet
        ensures same { ⟦<MemoryOutlet as Outlet>⟧.told result ≡ ⟦<MemoryOutlet as Outlet>⟧.told self }
        ensures named { ⟦<MemoryOutlet as NewOutlet>⟧.name result ≡ name }
    {
        let mut new = self;
        new.name = name;
        new
    }

    /// What was written.
    pub fn bytes(&self) -> &[u8]
        ensures { (⟦<MemoryOutlet as Outlet>⟧.told self.now).contents ≡ Some result.now }
    {
        self.bytes.as_slice()
    }

    /// Whether all that was written is flushed.
    pub fn is_flushed(&self) -> bool
        ensures { result ≡ not (⟦<MemoryOutlet as Outlet>⟧.told self.now).unflushed }
    {
        !self.unflushed
    }

    /// Syncs what was written.
    pub(crate) fn sync(&mut self)
        ensures same { ⟦<MemoryOutlet as Outlet>⟧.told self.new
            ≡ ⟦<MemoryOutlet as Outlet>⟧.told self.old }
        ensures synced { ⟦<MemoryOutlet as NewOutlet>⟧.synced self.new
            ≡ (⟦<MemoryOutlet as Outlet>⟧.told self.new).contents }
    {
        self.synced = self.bytes.len();
    }
}

impl Outlet for MemoryOutlet {
    ghost told = { λ s. record {
      contents = Some s.bytes.items;
      taken = length s.bytes.items;
      failed = s.failed;
      flushes = s.flush_count;
      unflushed = s.unflushed;
    } };

    fn write(&mut self, piece: &[u8]) -> Result<usize, Failed> {
        let count = piece.len().min(PIECE);
        let Some(sound_writes) = self.sound_writes.checked_sub(1) else {
            self.failed = true;
            return Err(Failed);
        };
        if self.bytes.extend_from_slice(&piece[..count]).is_err() {
            self.failed = true;
            return Err(Failed);
        }
        self.sound_writes = sound_writes;
        self.unflushed = true;
        Ok(count)
    }

    fn flush(&mut self) -> Result<(), Failed> {
        let Some(flush_count) = self.flush_count.checked_add(1) else {
            self.failed = true;
            return Err(Failed);
        };
        if self.flushes {
            self.flush_count = flush_count;
            self.unflushed = false;
            return Ok(());
        }
        self.failed = true;
        Err(Failed)
    }

    fn failed(&self) -> bool {
        self.failed
    }
}

impl NewOutlet for MemoryOutlet {
    ghost name = { λ s. s.name };

    ghost synced = { λ s. Some (take s.synced s.bytes.items) };
}
