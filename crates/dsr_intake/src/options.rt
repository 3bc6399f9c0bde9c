//! The options of a run, and what is refused before anything is read.
ghost use Rattle.std.specs.Prelude.{◌≡◌};
ghost use Rattle.dsr_intake.specs.meaning.Texts.{refusal_of};
ghost use Rattle.dsr_intake.specs.layer.Texts.{standard_options};

use crate::errors::IntakeError;
use dsr_records::Layout;

/// The maximum number of readers of a run, one for each file of a report.
pub(crate) const MOST_READERS: usize = 64;

/// The highest capacity of a relay, in messages.
pub(crate) const MOST_MESSAGES: u32 = 1_024;

/// The highest limit on the reads of a file.
pub(crate) const MOST_READS: u32 = 16_777_216;

/// How the files of a report are read.
#[derive(Drop)]
pub struct Options {
    /// The maximum number of messages in the relay of a file: 1 to 1,024.
    pub capacity: u32,
    /// The maximum number of reads of a file: 1 to 16,777,216.
    pub max_reads: u32,
    /// The layout: the record types, the positions of their columns, and the types that are skipped.
    pub layout: Layout,
}

impl Options {
    /// 16 messages, 4,194,304 reads and the standard layout.
    pub fn standard() -> Options
        ensures { result ≡ standard_options }
    {
        Options {
            capacity: 16,
            max_reads: 4_194_304,
            layout: Layout::standard(),
        }
    }

    /// Equal options.
    pub(crate) fn copy(&self) -> Options
        ensures { result ≡ self.now }
    {
        Options {
            capacity: self.capacity,
            max_reads: self.max_reads,
            layout: self.layout.copy(),
        }
    }
}

/// The error that is found before anything is read, if there is one.
pub(crate) fn refusal(files: usize, options: &Options) -> Option<IntakeError>
    ensures { result ≡ refusal_of files options.now }
{
    if files == 0 {
        Some(IntakeError::NoFiles)
    } else if files > MOST_READERS {
        Some(IntakeError::TooManyFiles)
    } else if options.capacity == 0 || options.capacity > MOST_MESSAGES {
        Some(IntakeError::Capacity)
    } else if options.max_reads == 0 || options.max_reads > MOST_READS {
        Some(IntakeError::Reads)
    } else {
        None
    }
}
