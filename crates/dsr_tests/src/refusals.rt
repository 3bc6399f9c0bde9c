//! Refusals and failures, and what was written before them.
ghost use Rattle.std.specs.Prelude.{◌≡◌, false, All, IfOk};

use crate::capacities::{CAPACITIES, readers_of};
use crate::page::Page;
use crate::runs::{gives, options};
use crate::script::{After, Script, Step, one_reader};
use crate::texts::{CLEAN, CLEAN_STATEMENT};
use dsr_intake::{IntakeError, Options, RunError, Status, ToWrite, run};
use std::alloc::{AllocError, Global};
use std::io;
use std::io::Write;
use std::random::RandomSource;
use std::sync::Wait;
use std::thread::Threads;
use std::time::Clock;

/// A reader of the clean report.
fn clean_reader(alloc: Global) -> Result<Vec<Script>, AllocError>
    ensures { IfOk result (λ v. All (λ r. r.failed ≡ false) v.items) }
{
    one_reader(alloc, CLEAN, Step::Full, After::End)
}

/// Whether a run on these readers fails after exactly these bytes are written to the page.
fn fails_after<H: Threads + Wait + RandomSource + Clock + Copy + Send + 'static>(
    rt: &H,
    alloc: Global,
    readers: Vec<Script>,
    page: Page,
    capacity: u32,
    expected: &[u8],
) -> bool
    requires readers { All (λ r. r.failed ≡ false) readers.items }
    requires page { page.failed ≡ false }
{
    let mut readers = readers;
    let mut page = page;
    let written = expected.len() as u64;
    let answer = run(rt, alloc, &mut readers, options(capacity, 100), &mut page);
    answer == Err(RunError::Write { written }) && page.bytes() == expected
}

#[test]
fn a_writer_that_fails_after_five_bytes(rt: HostRuntime) -> Result<(), AllocError> {
    let alloc = rt.alloc();
    for capacity in CAPACITIES {
        let readers = clean_reader(alloc)?;
        let page = Page::narrow(alloc, 100, 5, true);
        assert!(rt; fails_after(&rt, alloc, readers, page, capacity, b"REPOR"));
    }
    Ok(())
}

/// One byte a write, and then a failure: the first bytes of the statement were written, and the
/// error says how many.
#[test]
fn a_writer_that_fails_after_every_byte(rt: HostRuntime) -> Result<(), AllocError> {
    let alloc = rt.alloc();
    for room in 0..CLEAN_STATEMENT.len() {
        let readers = clean_reader(alloc)?;
        let page = Page::narrow(alloc, 1, room, true);
        assert!(rt; fails_after(&rt, alloc, readers, page, 16, &CLEAN_STATEMENT[..room]));
    }
    Ok(())
}

#[test]
fn a_flush_that_fails(rt: HostRuntime) -> Result<(), AllocError> {
    let alloc = rt.alloc();
    let readers = clean_reader(alloc)?;
    let page = Page::narrow(alloc, 7, 100_000, false);
    assert!(rt; fails_after(&rt, alloc, readers, page, 16, CLEAN_STATEMENT));
    Ok(())
}

/// A writer that takes nothing, and returns a count of 0.
#[derive(Drop)]
struct Shut;

impl Write for Shut {
    fn write(&mut self, _bytes: &[u8]) -> io::Result<usize> {
        Ok(0)
    }

    fn flush(&mut self) -> io::Result<()> {
        Ok(())
    }
}

#[test]
fn a_writer_that_takes_nothing(rt: HostRuntime) -> Result<(), AllocError> {
    let alloc = rt.alloc();
    let mut readers = clean_reader(alloc)?;
    let mut out = ToWrite::new(Shut);
    let answer = run(&rt, alloc, &mut readers, options(16, 100), &mut out);
    assert!(rt; answer == Err(RunError::Write { written: 0 }));
    Ok(())
}

/// The lines of the first block of the clean report in its statement.
const FIRST_LINES: &str = "LEDGER\tGBABC2400001\tGB\tOnDemandStream\tGBP\t10\t0.5000000000\n\
PARTY\tGBABC2400001\tGB\tOnDemandStream\tGBP\tP1\t0.2500000000\n\
PARTY\tGBABC2400001\tGB\tOnDemandStream\tGBP\tP2\t0.1250000000\n\
UNCLAIMED\tGBABC2400001\tGB\tOnDemandStream\tGBP\t0.1250000000\n";

/// Those of its second block.
const SECOND_LINES: &str = "LEDGER\tGBABC2400002\tGB\tOnDemandStream\tGBP\t20\t1.0000000000\n\
UNCLAIMED\tGBABC2400002\tGB\tOnDemandStream\tGBP\t1.0000000000\n";

/// The statement of the clean report if a read fails after these bytes.
fn failed_statement(alloc: Global, given: &[u8]) -> Result<String, AllocError> {
    let lines = given.iter().filter(|byte| **byte == b'\n').count();
    let line = lines + 1;
    if lines <= 2 {
        return format!(in alloc; "NOREPORT\nFILE\t1\t-\tHeadless\t0\tFault\t{line}\tRead\n");
    }
    let report = "REPORT\tR1\t1\t2024-01-01\t2024-01-31\t31\n";
    let (blocks, first, second) = match lines {
        3..=5 => (0, "", ""),
        6..=7 => (1, FIRST_LINES, ""),
        _ => (2, FIRST_LINES, SECOND_LINES),
    };
    format!(in alloc; "{report}FILE\t1\t1\tOurs\t{blocks}\tFault\t{line}\tRead\n{first}{second}")
}

/// Whether the statement is right if a read fails after these bytes of the clean report.
fn is_right_after<H: Threads + Wait + RandomSource + Clock + Copy + Send + 'static>(
    rt: &H,
    alloc: Global,
    given: &[u8],
) -> Result<bool, AllocError> {
    let expected = failed_statement(alloc, given)?;
    let readers = one_reader(alloc, given, Step::Full, After::Failure)?;
    let options = options(16, 100);
    Ok(gives(
        rt,
        alloc,
        readers,
        options,
        Status::Remarks,
        expected.as_bytes(),
    ))
}

/// The clean report, cut after each number of bytes, and then a read that fails.
#[test]
fn a_read_that_fails_after_every_byte(rt: HostRuntime) -> Result<(), AllocError> {
    let alloc = rt.alloc();
    for given in 0..CLEAN.len() + 1 {
        assert!(rt; is_right_after(&rt, alloc, &CLEAN[..given])?);
    }
    Ok(())
}

/// A reader of one line with this first byte and this length. No line feed ends it, and then a read fails.
fn line_reader(alloc: Global, first: u8, len: usize) -> Result<Vec<Script>, AllocError>
    ensures { IfOk result (λ v. All (λ r. r.failed ≡ false) v.items) }
{
    let mut line = vec![in alloc; first]?;
    line.resize(len, b'x')?;
    one_reader(alloc, &line, Step::Full, After::Failure)
}

/// Whether the statement of the file of such a line shows this fault.
fn ends_by<H: Threads + Wait + RandomSource + Clock + Copy + Send + 'static>(
    rt: &H,
    alloc: Global,
    first: u8,
    len: usize,
    fault: &str,
) -> Result<bool, AllocError> {
    let expected = format!(in alloc; "NOREPORT\nFILE\t1\t-\tHeadless\t0\tFault\t1\t{fault}\n")?;
    let readers = line_reader(alloc, first, len)?;
    let options = options(16, 100);
    Ok(gives(
        rt,
        alloc,
        readers,
        options,
        Status::Remarks,
        expected.as_bytes(),
    ))
}

/// A line of 8,193 bytes is too long before its end is read, and so is a comment; at 8,192 bytes
/// the failed read is reported.
#[test]
fn a_long_line_and_then_a_read_that_fails(rt: HostRuntime) -> Result<(), AllocError> {
    let alloc = rt.alloc();
    assert!(rt; ends_by(&rt, alloc, b'x', 8193, "LongLine")?);
    assert!(rt; ends_by(&rt, alloc, b'#', 8193, "LongLine")?);
    assert!(rt; ends_by(&rt, alloc, b'#', 8192, "Read")?);
    Ok(())
}

/// Whether a run on these readers is refused for this reason, with nothing written.
fn is_refused<H: Threads + Wait + RandomSource + Clock + Copy + Send + 'static>(
    rt: &H,
    alloc: Global,
    readers: Vec<Script>,
    options: Options,
    reason: IntakeError,
) -> bool
    requires { All (λ r. r.failed ≡ false) readers.items }
{
    let mut readers = readers;
    let mut page = Page::new(alloc);
    let answer = run(rt, alloc, &mut readers, options, &mut page);
    answer == Err(RunError::Intake(reason)) && page.bytes().is_empty()
}

#[test]
fn no_files_and_too_many(rt: HostRuntime) -> Result<(), AllocError> {
    let alloc = rt.alloc();
    for capacity in CAPACITIES {
        let readers = readers_of(alloc, &[])?;
        let reason = IntakeError::NoFiles;
        assert!(rt; is_refused(&rt, alloc, readers, options(capacity, 100), reason));
        let readers = readers_of(alloc, &[CLEAN; 65])?;
        let reason = IntakeError::TooManyFiles;
        assert!(rt; is_refused(&rt, alloc, readers, options(capacity, 100), reason));
    }
    Ok(())
}

#[test]
fn options_out_of_range(rt: HostRuntime) -> Result<(), AllocError> {
    let alloc = rt.alloc();
    for max_reads in [0, 16_777_217] {
        for capacity in CAPACITIES {
            let readers = clean_reader(alloc)?;
            let options = options(capacity, max_reads);
            assert!(rt; is_refused(&rt, alloc, readers, options, IntakeError::Reads));
        }
        for capacity in [0, 1025] {
            let readers = clean_reader(alloc)?;
            let options = options(capacity, max_reads);
            assert!(rt; is_refused(&rt, alloc, readers, options, IntakeError::Capacity));
        }
    }
    Ok(())
}
