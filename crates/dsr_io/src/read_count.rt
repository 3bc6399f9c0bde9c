//! Counting the reads of a source.
ghost use Rattle.std.specs.Prelude.{◌≡◌};
ghost use Rattle.dsr_io.specs.meaning.Told.{no_reads};
ghost use Rattle.dsr_io.specs.layer.Told.{AddsRead};

/// The number of reads that a source has answered, the number of those that gave bytes, and the bytes of the last one. No
/// code asks for them: contracts say with them how many reads were made.
#[derive(Clone, Copy, PartialEq, Eq)]
pub struct ReadCount {
    answered: u64,
    filled: u64,
    last: usize,
}

impl ReadCount {
    /// The count before the first read.
    pub fn new() -> ReadCount
        ensures { result ≡ no_reads }
    {
        ReadCount {
            answered: 0,
            filled: 0,
            last: 0,
        }
    }

    /// Counts a read that gave this many bytes; a failed read gave 0.
    pub fn add(&mut self, bytes: usize)
        ensures { AddsRead self.old self.new bytes }
    {
        self.answered = self.answered.saturating_add(1);
        if bytes > 0 {
            self.filled = self.filled.saturating_add(1);
        }
        self.last = bytes;
    }
}
