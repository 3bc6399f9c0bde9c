//! Why a run, an intake or a collector fails, with the text of each error.
use thiserror::Error;

/// Why there is no report. The first four are found before anything is read.
#[derive(Debug, Clone, Copy, PartialEq, Eq, Error)]
pub enum IntakeError {
    /// There is no reader.
    #[error("no files")]
    NoFiles,
    /// There are more than 64 readers.
    #[error("too many files")]
    TooManyFiles,
    /// The capacity of a relay is not 1 to 1,024 messages.
    #[error("capacity out of range")]
    Capacity,
    /// The limit on reads is not 1 to 16,777,216.
    #[error("reads out of range")]
    Reads,
    /// Memory was refused.
    #[error("out of memory")]
    Memory,
    /// A thread could not be started.
    #[error("cannot start a thread")]
    Thread,
    /// The relay of this file, counted from 1, closed before the file had ended.
    #[error("relay of file {0} closed early")]
    Broken(u32),
}

/// Why a collector stopped.
#[derive(Debug, Clone, Copy, PartialEq, Eq, Error)]
pub enum CollectError {
    /// Memory was refused, to the collector or to the sender of an event.
    #[error("out of memory")]
    Memory,
    /// The relay of this tap, counted from 1, closed before its Ended was taken.
    #[error("relay of file {0} closed early")]
    Closed(u32),
}

/// Why a statement was not written, or not completely.
#[derive(Debug, Clone, Copy, PartialEq, Eq, Error)]
pub enum RunError {
    /// There is no report, and nothing was written.
    #[error("{0}")]
    Intake(IntakeError),
    /// Out of memory for the statement, or it may have 2^64 - 1 bytes or more; nothing was written.
    #[error("out of memory")]
    Memory,
    /// A write or the flush failed; exactly `written` first bytes of the statement were written.
    #[error("write failed after {written} bytes")]
    Write {
        /// The number of bytes written.
        written: u64,
    },
}
