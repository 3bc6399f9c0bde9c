//! Sources of files in memory.
ghost use Rattle.std.specs.Prelude.{◌≡◌, ◌≤◌, false, length, drop, Some};
ghost use Rattle.dsr_io.specs.meaning.Told.{no_reads};

use dsr_command::{FileIdentity, FileSource};
use dsr_io::{Failed, ReadCount, Source};

/// The most bytes of a read.
const PIECE: usize = 64;

/// The source of a file: it gives at most 64 bytes a read, until a read fails.
pub struct MemorySource {
    bytes: Vec<u8>,
    at: usize,
    sound_reads: u64,
    failed: bool,
    reads: ReadCount,
    identity: Option<FileIdentity>,
}

/// Written out, so that dropping one is a call: a derived drop is proved anew wherever it happens.
impl Drop for MemorySource {
    fn drop(self) {
        let MemorySource {
            bytes: _,
            at: _,
            sound_reads: _,
            failed: _,
            reads: _,
            identity: _,
        } = self;
    }
}

impl MemorySource {
    /// A source of these bytes, of which so many reads end well.
    pub fn new(bytes: Vec<u8>, sound_reads: u64, identity: Option<FileIdentity>) -> MemorySource
        ensures told { ⟦<MemorySource as Source>⟧.told result
            ≡ record { remaining = Some bytes.items; failed = false; reads = no_reads } }
        ensures file { ⟦<MemorySource as FileSource>⟧.file result ≡ identity }
    {
        MemorySource {
            bytes,
            at: 0,
            sound_reads,
            failed: false,
            reads: ReadCount::new(),
            identity,
        }
    }
}

impl Source for MemorySource {
    ghost told = { λ s. record {
      remaining = Some (drop s.at s.bytes.items);
      failed = s.failed;
      reads = s.reads;
    } };

    fn read(&mut self, piece: &mut [u8]) -> Result<usize, Failed> {
        let Some(sound_reads) = self.sound_reads.checked_sub(1) else {
            self.reads.add(0);
            self.failed = true;
            return Err(Failed);
        };
        self.sound_reads = sound_reads;
        let at = self.at.min(self.bytes.len());
        let rest = &self.bytes[at..];
        let count = rest.len().min(piece.len()).min(PIECE);
        piece[..count].copy_from_slice(&rest[..count]);
        self.at = at + count;
        self.reads.add(count);
        Ok(count)
    }

    fn failed(&self) -> bool {
        self.failed
    }
}

impl FileSource for MemorySource {
    ghost file = { λ s. s.identity };

    fn identity(&self) -> Option<FileIdentity> {
        self.identity
    }

    fn size(&self) -> Option<u64> {
        Some(self.bytes.len() as u64)
    }
}
