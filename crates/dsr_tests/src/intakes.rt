//! The report of `intake`, which is made without a statement.
ghost use Rattle.std.specs.Prelude.{◌≡◌, false, All};

use crate::capacities::{CAPACITIES, readers_of};
use crate::runs::options;
use crate::script::Script;
use crate::texts::{CLEAN, CLEAN_STATEMENT};
use dsr_intake::{IntakeError, Options, Status, intake, statement, status};
use dsr_ledger::Report;
use std::alloc::{AllocError, Global};
use std::random::RandomSource;
use std::sync::Wait;
use std::thread::Threads;
use std::time::Clock;

/// Whether a report is that of the clean file; None if memory is refused for its statement.
fn is_clean(alloc: Global, report: &Report) -> Option<bool> {
    let written = statement(alloc, report).ok()?;
    Some(written.as_slice() == CLEAN_STATEMENT && status(report) == Status::Clean)
}

/// Whether `intake` makes the report of the clean file of these readers; None if memory or a thread is refused.
pub fn reports_clean<H: Threads + Wait + RandomSource + Clock + Copy + Send + 'static>(
    rt: &H,
    alloc: Global,
    readers: Vec<Script>,
    options: Options,
) -> Option<bool>
    requires { All (λ r. r.failed ≡ false) readers.items }
{
    let mut readers = readers;
    match intake(rt, alloc, &mut readers, options) {
        Ok(report) => {
            let is_right = is_clean(alloc, &report);
            drop(report);
            is_right
        }
        Err(IntakeError::Memory) => None,
        Err(IntakeError::Thread) => None,
        Err(_) => Some(false),
    }
}

#[test]
fn intake_makes_the_report_of_a_clean_file(rt: HostRuntime) -> Result<(), AllocError> {
    let alloc = rt.alloc();
    for capacity in CAPACITIES {
        let readers = readers_of(alloc, &[CLEAN])?;
        let answer = reports_clean(&rt, alloc, readers, options(capacity, 1000));
        assert!(rt; answer == Some(true));
    }
    Ok(())
}
