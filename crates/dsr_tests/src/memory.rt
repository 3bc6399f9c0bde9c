//! Runs that have to end well also if an allocation is refused. checks/refusals runs them with each one refused in turn.
ghost use Rattle.std.specs.Prelude.{◌≡◌, None, false, All, IfOk};

use crate::intakes::reports_clean;
use crate::runs::options;
use crate::script::{After, Script, Step, one_reader};
use crate::texts::{CLEAN, CLEAN_STATEMENT, HUNDRED_STATEMENT};
use crate::turns::hundred_blocks;
use dsr_file::Failed;
use dsr_intake::{IntakeError, Outlet, RunError, Status, run};
use std::alloc::{AllocError, Global};
use std::random::RandomSource;
use std::sync::Wait;
use std::thread::Threads;
use std::time::Clock;

/// An outlet that allocates nothing: it compares what is written with what is expected.
#[derive(Drop)]
struct Mirror {
    expected: &'static [u8],
    written: usize,
    agrees: bool,
    failed: bool,
    flushes: u64,
    unflushed: bool,
}

impl Outlet for Mirror {
    ghost told = { λ s. record {
      contents = None;
      taken = s.written;
      failed = s.failed;
      flushes = s.flushes;
      unflushed
          = s.unflushed;
    } };

    fn write(&mut self, piece: &[u8]) -> Result<usize, Failed> {
        let Some(written) = self.written.checked_add(piece.len()) else {
            self.failed = true;
            return Err(Failed);
        };
        if !stands_at(self.expected, self.written, piece) {
            self.agrees = false;
        }
        self.written = written;
        self.unflushed = true;
        Ok(piece.len())
    }

    fn flush(&mut self) -> Result<(), Failed> {
        let Some(flushes) = self.flushes.checked_add(1) else {
            self.failed = true;
            return Err(Failed);
        };
        self.flushes = flushes;
        self.unflushed = false;
        Ok(())
    }

    fn failed(&self) -> bool {
        self.failed
    }
}

/// Whether a text has this piece at this place.
fn stands_at(text: &[u8], at: usize, piece: &[u8]) -> bool {
    at <= text.len() && text[at..].starts_with(piece)
}

/// Whether a run on these readers writes this statement, or is refused memory or a thread and
/// writes nothing.
fn ends_well<H: Threads + Wait + RandomSource + Clock + Copy + Send + 'static>(
    rt: &H,
    alloc: Global,
    readers: Vec<Script>,
    status: Status,
    expected: &'static [u8],
) -> bool
    requires { All (λ r. r.failed ≡ false) readers.items }
{
    let mut readers = readers;
    let mut mirror = Mirror {
        expected,
        written: 0,
        agrees: true,
        failed: false,
        flushes: 0,
        unflushed: false,
    };
    let answer = run(rt, alloc, &mut readers, options(1, 1000), &mut mirror);
    match answer {
        Ok(told) => told == status && mirror.agrees && mirror.written == expected.len(),
        Err(RunError::Intake(IntakeError::Memory)) => mirror.written == 0,
        Err(RunError::Intake(IntakeError::Thread)) => mirror.written == 0,
        Err(RunError::Memory) => mirror.written == 0,
        Err(_) => false,
    }
}

/// A reader of the file of a hundred blocks.
fn hundred_reader(alloc: Global) -> Result<Vec<Script>, AllocError>
    ensures { IfOk result (λ v. All (λ r. r.failed ≡ false) v.items) }
{
    let text = hundred_blocks(alloc)?;
    one_reader(alloc, &text, Step::Line, After::End)
}

#[test]
fn a_clean_report_or_no_memory(rt: HostRuntime) {
    let alloc = rt.alloc();
    if let Ok(readers) = one_reader(alloc, CLEAN, Step::Full, After::End) {
        assert!(rt; ends_well(&rt, alloc, readers, Status::Clean, CLEAN_STATEMENT));
    }
}

/// Here the collector can stop while the reader waits to send.
#[test]
fn a_hundred_blocks_or_no_memory(rt: HostRuntime) {
    let alloc = rt.alloc();
    if let Ok(readers) = hundred_reader(alloc) {
        assert!(rt; ends_well(&rt, alloc, readers, Status::Remarks, HUNDRED_STATEMENT));
    }
}

/// The report without a statement.
#[test]
fn intake_of_a_clean_report_or_no_memory(rt: HostRuntime) {
    let alloc = rt.alloc();
    if let Ok(readers) = one_reader(alloc, CLEAN, Step::Full, After::End) {
        assert!(rt; reports_clean(&rt, alloc, readers, options(1, 1000)) != Some(false));
    }
}
