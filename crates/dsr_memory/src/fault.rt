//! Calls that fail.

/// The call of a world that fails. Calls of one kind have numbers from 0.
#[derive(Clone, Copy, PartialEq, Eq)]
pub enum Fault {
    /// No call fails.
    Nothing,
    /// Memory for the words is refused.
    Words,
    /// Memory for a source is refused, at the opening of this number.
    Open(u64),
    /// In the source of the opening with the first number, the read with the second one fails.
    Read(u64, u64),
    /// Memory for a link is refused.
    Link,
    /// There is no random number.
    Random,
    /// A new file cannot be created.
    Create,
    /// This write to a new file fails.
    Write(u64),
    /// A new file cannot be flushed.
    Flush,
    /// A new file cannot be synced.
    Sync,
    /// A new file cannot be renamed.
    Rename,
}

impl Fault {
    /// The calls for a new file, before and after it is written.
    pub const FOR_NEW_FILES: [Fault; 5] = [
        Fault::Link,
        Fault::Random,
        Fault::Create,
        Fault::Sync,
        Fault::Rename,
    ];

    /// How many reads of the source of this opening end well.
    pub(crate) fn sound_reads(&self, opening: u64) -> u64 {
        match self {
            Fault::Read(at, reads) if *at == opening => *reads,
            _ => u64::MAX,
        }
    }

    /// How many writes to a new file end well.
    pub(crate) fn sound_writes(&self) -> u64 {
        match self {
            Fault::Write(writes) => *writes,
            _ => u64::MAX,
        }
    }

    /// Whether memory is refused at this opening.
    pub(crate) fn is_opening(&self, opening: u64) -> bool {
        match self {
            Fault::Open(at) => *at == opening,
            _ => false,
        }
    }
}
