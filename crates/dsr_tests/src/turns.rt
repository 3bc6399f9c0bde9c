//! Readers that wait for one another: the files are read concurrently, and a full relay blocks its
//! reader.
use crate::capacities::CAPACITIES;
use crate::runs::{gives, options};
use crate::script::{Part, Step, Wait, two_readers};
use crate::texts::{FIRST_OF_TWO, HUNDRED_AND_ONE_STATEMENT, SECOND_OF_TWO, TWO_STATEMENT};
use dsr_intake::Status;
use std::alloc::{AllocError, Global};
use std::random::RandomSource;
use std::sync;
use std::thread::Threads;
use std::time::Clock;

/// Each reader's first read waits until the other's has begun.
#[test]
fn the_files_are_read_at_once(rt: HostRuntime) -> Result<(), AllocError> {
    let alloc = rt.alloc();
    let first = Part {
        text: FIRST_OF_TWO,
        step: Step::Full,
        wait: Wait::First,
    };
    let second = Part {
        text: SECOND_OF_TWO,
        step: Step::Full,
        wait: Wait::First,
    };
    for capacity in CAPACITIES {
        let readers = two_readers(alloc, first, second)?;
        let options = options(capacity, 100);
        assert!(rt; gives(&rt, alloc, readers, options, Status::Clean, TWO_STATEMENT));
    }
    Ok(())
}

/// A file of a hundred blocks, the second of two.
pub fn hundred_blocks(alloc: Global) -> Result<Vec<u8>, AllocError> {
    let mut text = Vec::from_slice(
        alloc,
        b"HEAD\tR1\t2\t2\t2024-01-01\t2024-01-31\tS\tL\nSY01\tS1\tGB\tOnDemandStream\tGBP\t100\t1\n",
    )?;
    for i in 1..101u32 {
        let lines = format!(in alloc;
            "AS01\t{i}\tGBABC2400001\tSong\tBand\nSU01\t{i}\tS1\t1\t0.01\n"
        )?;
        text.extend_from_slice(lines.as_bytes())?;
    }
    text.extend_from_slice(b"FOOT\t203\t1\t100\n")?;
    Ok(text)
}

/// Runs on two files. Until the first reader gives its end, nothing is taken of the second file, of a hundred blocks, which
/// comes line by line. Returns whether its reader begins fewer than `reads` reads until then, and the statement is right.
fn holds_back<H: Threads + sync::Wait + RandomSource + Clock + Copy + Send + 'static>(
    rt: &H,
    alloc: Global,
    capacity: u32,
    reads: u64,
) -> Result<bool, AllocError> {
    let text = hundred_blocks(alloc)?;
    let first = Part {
        text: FIRST_OF_TWO,
        step: Step::Line,
        wait: Wait::Unless(reads),
    };
    let second = Part {
        text: &text,
        step: Step::Line,
        wait: Wait::Never,
    };
    let readers = two_readers(alloc, first, second)?;
    let options = options(capacity, 1000);
    let statement = HUNDRED_AND_ONE_STATEMENT;
    Ok(gives(rt, alloc, readers, options, Status::Clean, statement))
}

/// A relay of one message holds a message, and a second one waits to be sent: two messages of 32 events, whose last event
/// comes with line 129. So the second reader begins no 130th read, unless its events go another way.
#[test]
fn a_full_relay_holds_its_reader_back(rt: HostRuntime) -> Result<(), AllocError> {
    assert!(rt; holds_back(&rt, rt.alloc(), 1, 130)?);
    Ok(())
}
