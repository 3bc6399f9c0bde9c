//! A scripted reader of a text.
ghost use Rattle.std.specs.Prelude.{◌≡◌, ◌≤◌, None, false, length, All, IfOk};

use dsr_file::{Failed, Source};
use dsr_io::ReadCount;
use std::alloc::{AllocError, Global};
use std::sync::Arc;
use std::sync::atomic::{AtomicU64, Ordering};
use std::thread;

/// The size of each read.
#[derive(Clone, Copy)]
pub enum Step {
    /// As many bytes as there is room for.
    Full,
    /// One byte.
    Byte,
    /// A line with its end, or what is left.
    Line,
}

/// What comes after the text.
#[derive(Clone, Copy)]
pub enum After {
    /// The end of the file.
    End,
    /// A read that fails.
    Failure,
    /// The text again, forever.
    Again,
}

/// When a reader waits for another one.
#[derive(Clone, Copy)]
pub enum Wait {
    /// It never waits.
    Never,
    /// Before its first read, until the other one has begun its first.
    First,
    /// Before it gives the end. If the other one has begun this many reads by then, the read fails.
    Unless(u64),
}

/// How many reads two readers have begun.
#[derive(Drop)]
struct Begun {
    first: AtomicU64,
    second: AtomicU64,
}

impl Begun {
    /// No reads.
    fn new() -> Begun {
        Begun {
            first: AtomicU64::new(0),
            second: AtomicU64::new(0),
        }
    }

    /// The count of the first reader, or that of the second one.
    fn of(&self, is_first: bool) -> &AtomicU64 {
        if is_first { &self.first } else { &self.second }
    }
}

/// A scripted reader of a text. Its waiting is limited, and then its read fails.
pub struct Script {
    text: Vec<u8>,
    at: usize,
    step: Step,
    after: After,
    wait: Wait,
    begun: Arc<Begun, Global>,
    is_first: bool,
    failed: bool,
    reads: ReadCount,
}

/// Written out, so that dropping one is a call: a derived drop is proved anew wherever it happens.
impl Drop for Script {
    fn drop(self) {
        let Script {
            text: _,
            at: _,
            step: _,
            after: _,
            wait: _,
            begun: _,
            is_first: _,
            failed: _,
            reads: _,
        } = self;
    }
}

impl Script {
    /// The first or the second of two readers, whose reads are counted in `begun`.
    fn new(
        text: Vec<u8>,
        step: Step,
        after: After,
        wait: Wait,
        begun: Arc<Begun, Global>,
        is_first: bool,
    ) -> Script
        ensures { result.failed ≡ false }
    {
        Script {
            text,
            at: 0,
            step,
            after,
            wait,
            begun,
            is_first,
            failed: false,
            reads: ReadCount::new(),
        }
    }

    /// A reader of a text that waits for no other.
    pub fn alone(alloc: Global, text: &[u8], step: Step, after: After) -> Result<Script, AllocError>
        ensures { IfOk result (λ s. s.failed ≡ false) }
    {
        let text = Vec::from_slice(alloc, text)?;
        let begun = Arc::new(alloc, Begun::new())?;
        Ok(Script::new(text, step, after, Wait::Never, begun, true))
    }

    /// Whether the reader may go on with its read, the `own`th that it has begun.
    fn may_read(&self, own: u64) -> bool {
        let other = self.begun.of(!self.is_first);
        match self.wait {
            Wait::Never => true,
            Wait::First => own > 1 || reaches(other, 1),
            Wait::Unless(reads) => self.at < self.text.len() || !reaches(other, reads),
        }
    }
}

/// One of two readers that may wait for each other.
#[derive(Clone, Copy)]
pub struct Part<'t> {
    pub text: &'t [u8],
    pub step: Step,
    pub wait: Wait,
}

/// The reader of a part, the first or the second one.
fn reader_of(
    alloc: Global,
    part: Part<'_>,
    begun: Arc<Begun, Global>,
    is_first: bool,
) -> Result<Script, AllocError>
    ensures { IfOk result (λ s. s.failed ≡ false) }
{
    match Vec::from_slice(alloc, part.text) {
        Ok(text) => Ok(Script::new(text, part.step, After::End, part.wait, begun, is_first)),
        Err(error) => {
            drop(begun);
            Err(error)
        }
    }
}

/// Two readers that may wait for each other.
pub fn two_readers(
    alloc: Global,
    first: Part<'_>,
    second: Part<'_>,
) -> Result<Vec<Script>, AllocError>
    ensures { IfOk result (λ v. All (λ r. r.failed ≡ false) v.items) }
{
    let begun = Arc::new(alloc, Begun::new())?;
    let first = reader_of(alloc, first, Arc::try_clone(&begun)?, true)?;
    let second = reader_of(alloc, second, begun, false)?;
    Ok(vec![in alloc; first, second]?)
}

/// The only reader of a report.
pub fn one_reader(
    alloc: Global,
    text: &[u8],
    step: Step,
    after: After,
) -> Result<Vec<Script>, AllocError>
    ensures { IfOk result (λ v. All (λ r. r.failed ≡ false) v.items) }
{
    Ok(vec![in alloc; Script::alone(alloc, text, step, after)?]?)
}

/// The number of turns that a reader waits.
const TURNS: u32 = 10_000_000;

/// Waits, for a limited number of turns, until the count is `wanted`. Returns whether it got there.
fn reaches(count: &AtomicU64, wanted: u64) -> bool {
    for _ in 0..TURNS {
        if count.load(Ordering::SeqCst) >= wanted {
            return true;
        }
        thread::yield_now();
    }
    false
}

/// The number of bytes of the rest that a step gives.
fn step_of(step: Step, rest: &[u8]) -> usize
    ensures { result ≤ length rest.now }
{
    match step {
        Step::Full => rest.len(),
        Step::Byte => rest.len().min(1),
        Step::Line => match rest.iter().position(|byte| *byte == b'\n') {
            Some(place) if place < rest.len() => place + 1,
            _ => rest.len(),
        },
    }
}

/// Copies the next bytes of a text, from `at` on, into the front of a piece, and returns how many.
fn give(text: &[u8], at: usize, step: Step, piece: &mut [u8]) -> usize
    ensures count { result ≤ length piece.old }
    ensures room { length piece.new ≡ length piece.old }
{
    if at >= text.len() {
        return 0;
    }
    let rest = &text[at..];
    let count = step_of(step, rest).min(piece.len());
    piece[..count].copy_from_slice(&rest[..count]);
    count
}

impl Script {
    /// The next bytes of the text, or what comes after it.
    fn next_bytes(&mut self, piece: &mut [u8]) -> Result<usize, Failed>
        ensures count { IfOk result (λ n. n ≤ length piece.old) }
        ensures room { length piece.new ≡ length piece.old }
        ensures failed { self.new.failed ≡ self.old.failed }
        ensures reads { self.new.reads ≡ self.old.reads }
    {
        let begun = self.begun.of(self.is_first);
        let own = begun.fetch_add(1, Ordering::SeqCst).wrapping_add(1);
        if !self.may_read(own) {
            return Err(Failed);
        }
        let count = give(&self.text, self.at, self.step, piece);
        self.at = self.at.wrapping_add(count);
        if count > 0 {
            return Ok(count);
        }
        match self.after {
            After::End => Ok(0),
            After::Failure => Err(Failed),
            After::Again => {
                let count = give(&self.text, 0, self.step, piece);
                self.at = count;
                Ok(count)
            }
        }
    }
}

impl Source for Script {
    ghost told = { λ s. record { remaining = None; failed = s.failed; reads = s.reads } };

    fn read(&mut self, piece: &mut [u8]) -> Result<usize, Failed> {
        let answer = self.next_bytes(piece);
        match answer {
            Ok(count) => self.reads.add(count),
            Err(Failed) => {
                self.reads.add(0);
                self.failed = true;
            }
        }
        answer
    }

    fn failed(&self) -> bool {
        self.failed
    }
}
