//! Sources of bytes.
ghost use Rattle.std.specs.Prelude.{◌≡◌, ◌<◌, ⊤, true, false, length, List, ℕ, MatchResult};
ghost use Rattle.std.specs.Io.{ReadsAtMost};
ghost use Rattle.std.specs.Io.KnownBytes.{ReadConsumes};
ghost use Rattle.dsr_io.specs.meaning.Told.{no_reads, Told};
ghost use Rattle.dsr_io.specs.layer.Told.{AddsRead, HoldsRead};

use crate::read_count::ReadCount;
use std::io::Read;

/// A read or a write failed.
#[derive(Clone, Copy, PartialEq, Eq)]
pub struct Failed;

/// A source of bytes, which knows whether a read has failed and counts its reads.
pub trait Source {
    /// The bytes that it has left, if they are known, whether a read has failed, and the count of its reads.
    ghost told: { Self → Told };

    /// What it keeps of the bytes that it gave, such as their digest: whether it is that of these bytes. Most keep nothing.
    ghost holds: { Self → List ℕ → Type 0 } = { λ _ _. ⊤ };

    /// Reads bytes into the front of the piece, which is not empty. Returns how many; 0 is the end.
    ///
    /// # Errors
    ///
    /// [`Failed`]: the read failed.
    fn read(&mut self, piece: &mut [u8]) -> Result<usize, Failed>
        requires { 0 < length piece.old }
        ensures bound { ReadsAtMost result piece.new }
        ensures bytes { ReadConsumes (told self.old).remaining (told self.new).remaining
            result piece.new }
        ensures failed { MatchResult result (λ _. (told self.new).failed ≡ (told self.old).failed)
            (λ _. (told self.new).failed ≡ true) }
        ensures reads { MatchResult result (AddsRead (told self.old).reads (told self.new).reads)
            (λ _. AddsRead (told self.old).reads (told self.new).reads 0) }
        ensures held { HoldsRead holds self.old self.new result piece.new };

    /// Whether a read has failed.
    fn failed(&self) -> bool
        ensures { result ≡ (told self.now).failed };
}

/// A source that reads from a `std::io::Read`.
#[derive(Drop)]
pub struct FromRead<R> {
    reader: R,
    failed: bool,
    reads: ReadCount,
}

impl<R: Read> FromRead<R> {
    /// A source that has not been read yet.
    pub fn new(reader: R) -> FromRead<R>
        ensures { ⟦<FromRead<R> as Source>⟧.told result
            ≡ record { remaining = R.remaining reader; failed = false; reads = no_reads } }
    {
        FromRead {
            reader,
            failed: false,
            reads: ReadCount::new(),
        }
    }
}

impl<R: Read> Source for FromRead<R> {
    ghost told = { λ s. record {
      remaining = R.remaining s.reader;
      failed = s.failed;
      reads = s.reads;
    } };

    fn read(&mut self, piece: &mut [u8]) -> Result<usize, Failed> {
        match self.reader.read(piece) {
            Ok(n) => {
                self.reads.add(n);
                Ok(n)
            }
            Err(_) => {
                self.reads.add(0);
                self.failed = true;
                Err(Failed)
            }
        }
    }

    fn failed(&self) -> bool {
        self.failed
    }
}
