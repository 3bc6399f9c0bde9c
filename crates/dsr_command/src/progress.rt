//! Progress of the reading, on standard error, if `--progress` asks for it.
use dsr_cells::NoMemory;
use std::alloc::Global;
use std::fmt;
use std::io::Eprint;
use std::sync::Arc;
use std::sync::atomic::{AtomicU64, Ordering};
use std::time::{Clock, Instant};

/// The least time between two lines, in milliseconds.
const PAUSE: u64 = 500;

/// A line of progress.
#[derive(Clone, Copy)]
pub(crate) struct ProgressLine {
    /// The number of files that were read to their end, or whose reads failed. A file whose reading stops at a fault or at
    /// the limit on reads never counts.
    pub(crate) done: u64,
    /// The number of all files.
    pub(crate) files: usize,
    /// The number of bytes read.
    pub(crate) read: u64,
    /// The size of all files in bytes, if that is known.
    pub(crate) size: Option<u64>,
    /// The time since the run began, in tenths of a second.
    pub(crate) tenths: u64,
    /// The time that the rest will take, in seconds, where a terminal shows it; None if it is less than one.
    pub(crate) left: Option<u64>,
}

impl fmt::Display for ProgressLine {
    fn fmt<W: fmt::Write>(&self, f: &mut fmt::Formatter<W>) -> fmt::Result {
        write!(
            f,
            "dsr: {} of {} files, {}",
            self.done, self.files, self.read
        )?;
        if let Some(size) = self.size {
            write!(f, " of {size}")?;
        }
        write!(
            f,
            " bytes, {}.{} seconds",
            self.tenths / 10,
            self.tenths % 10
        )?;
        match self.left {
            Some(left) => write!(f, ", about {left} seconds left"),
            None => Ok(()),
        }
    }
}

/// The last line of progress.
#[derive(Clone, Copy)]
struct LastLine {
    /// The number of all files.
    files: usize,
    /// The number of bytes read.
    read: u64,
    /// The time since the run began, in milliseconds.
    millis: u64,
}

impl fmt::Display for LastLine {
    fn fmt<W: fmt::Write>(&self, f: &mut fmt::Formatter<W>) -> fmt::Result {
        write!(
            f,
            "dsr: all {} files, {} bytes, {}.{} seconds, {} bytes a second",
            self.files,
            self.read,
            self.millis / 1_000,
            self.millis / 100 % 10,
            rate(self.read, self.millis)
        )
    }
}

/// The bytes of a second, of this many in this many milliseconds.
fn rate(read: u64, millis: u64) -> u64 {
    let thousand = read.saturating_mul(1_000);
    thousand.checked_div(millis).unwrap_or(thousand)
}

/// How many seconds the rest takes, if it takes as long for each byte as what was read in this many milliseconds; None if that
/// is less than one.
fn seconds_left(read: u64, size: u64, millis: u64) -> Option<u64> {
    let rest = size.checked_sub(read)?;
    match rest.saturating_mul(millis).checked_div(read)? / 1_000 {
        0 => None,
        seconds => Some(seconds),
    }
}

/// What was read of all files so far. Any thread may add to it at any time.
#[derive(Drop)]
struct Counts {
    /// The number of bytes read.
    read: AtomicU64,
    /// The number of files that were read to their end, or whose reads failed.
    done: AtomicU64,
    /// The time of the last line, in milliseconds since the run began.
    told: AtomicU64,
}

/// Counts what is read, and writes lines of progress. All sources of a report share one count.
#[derive(Drop)]
pub struct Progress<H> {
    rt: H,
    /// Whether a terminal shows the lines.
    terminal: bool,
    /// When the run began; None if the clock failed, and then no line is written.
    began: Option<Instant>,
    files: usize,
    size: Option<u64>,
    counts: Arc<Counts, Global>,
}

impl<H: Clock + Eprint + Copy> Progress<H> {
    /// The progress of a run that begins now, over `files` files of `size` bytes in all, if that is
    /// known.
    pub(crate) fn begin(
        rt: &H,
        terminal: bool,
        alloc: Global,
        files: usize,
        size: Option<u64>,
    ) -> Result<Progress<H>, NoMemory> {
        let counts = Counts {
            read: AtomicU64::new(0),
            done: AtomicU64::new(0),
            told: AtomicU64::new(0),
        };
        let Ok(counts) = Arc::new(alloc, counts) else {
            return Err(NoMemory);
        };
        Ok(Progress {
            rt: *rt,
            terminal,
            began: Instant::now(rt).ok(),
            files,
            size,
            counts,
        })
    }

    /// The same progress, for another source.
    pub(crate) fn share(&self) -> Result<Progress<H>, NoMemory> {
        match Arc::try_clone(&self.counts) {
            Ok(counts) => Ok(Progress {
                rt: self.rt,
                terminal: self.terminal,
                began: self.began,
                files: self.files,
                size: self.size,
                counts,
            }),
            Err(_) => Err(NoMemory),
        }
    }

    /// Counts a read of `bytes` bytes, 0 at the end or if the read failed, and writes a line if the last one was at least
    /// half a second ago.
    pub(crate) fn count(&self, bytes: usize) {
        if bytes == 0 {
            self.counts.done.fetch_add(1, Ordering::SeqCst);
        } else {
            self.counts.read.fetch_add(bytes as u64, Ordering::SeqCst);
        }
        let Some(now) = self.millis() else {
            return;
        };
        let told = self.counts.told.load(Ordering::SeqCst);
        if now >= told.saturating_add(PAUSE) && self.is_our_turn(told, now) {
            let _ = self.rt.eprintln(self.line(now));
        }
    }

    /// The milliseconds since the run began, if the clock gives them.
    fn millis(&self) -> Option<u64> {
        let passed = self.began?.elapsed(&self.rt).ok()?;
        let seconds = passed.as_secs().saturating_mul(1_000);
        Some(seconds.saturating_add(passed.subsec_millis() as u64))
    }

    /// Claims the next line. False if another thread has claimed it since `told` was read.
    fn is_our_turn(&self, told: u64, now: u64) -> bool {
        let told_word = &self.counts.told;
        told_word
            .compare_exchange(told, now, Ordering::SeqCst, Ordering::SeqCst)
            .is_ok()
    }

    /// The line at this time, in milliseconds since the run began.
    fn line(&self, now: u64) -> ProgressLine {
        let read = self.counts.read.load(Ordering::SeqCst);
        let left = match self.size {
            Some(size) if self.terminal => seconds_left(read, size, now),
            _ => None,
        };
        ProgressLine {
            done: self.counts.done.load(Ordering::SeqCst),
            files: self.files,
            read,
            size: self.size,
            tenths: now / 100,
            left,
        }
    }

    /// Writes the last line, once the reading is over.
    pub fn end(self) {
        let Some(millis) = self.millis() else {
            return;
        };
        let line = LastLine {
            files: self.files,
            read: self.counts.read.load(Ordering::SeqCst),
            millis,
        };
        let _ = self.rt.eprintln(line);
    }
}
