//! Reports at several capacities: whatever a relay holds, the statement is the same.
ghost use Rattle.std.specs.Prelude.{◌≡◌, false, All, IfOk};

use crate::runs::{gives, options};
use crate::script::{After, Script, Step};
use crate::texts::{
    CLEAN, CLEAN_STATEMENT, DOUBLED_STATEMENT, FIRST_OF_THREE, FIRST_OF_TWO, FOREIGN_STATEMENT,
    OTHER_REPORT, SECOND_OF_TWO, SWAPPED_STATEMENT, THIRD_OF_THREE, TWO_STATEMENT, VERDICTS,
    VERDICTS_STATEMENT,
};
use dsr_intake::Status;
use std::alloc::{AllocError, Global};
use std::random::RandomSource;
use std::sync::Wait;
use std::thread::Threads;
use std::time::Clock;

/// The least capacity, the one that is used if none is given, and the greatest.
pub const CAPACITIES: [u32; 3] = [1, 16, 1024];

/// The readers of files, each in reads of as many bytes as there is room for.
pub fn readers_of(alloc: Global, texts: &[&[u8]]) -> Result<Vec<Script>, AllocError>
    ensures { IfOk result (λ v. All (λ r. r.failed ≡ false) v.items) }
{
    let mut readers = Vec::new(alloc);
    for text in texts {
        readers.push(Script::alone(alloc, text, Step::Full, After::End)?)?;
    }
    Ok(readers)
}

/// Whether a run on these files has this status and writes this statement, at each capacity.
fn gives_at_each<H: Threads + Wait + RandomSource + Clock + Copy + Send + 'static>(
    rt: &H,
    alloc: Global,
    texts: &[&[u8]],
    status: Status,
    statement: &[u8],
) -> Result<bool, AllocError> {
    for capacity in CAPACITIES {
        let readers = readers_of(alloc, texts)?;
        let options = options(capacity, 1000);
        if !gives(rt, alloc, readers, options, status, statement) {
            return Ok(false);
        }
    }
    Ok(true)
}

#[test]
fn a_clean_report(rt: HostRuntime) -> Result<(), AllocError> {
    let files = [CLEAN];
    assert!(rt; gives_at_each(&rt, rt.alloc(), &files, Status::Clean, CLEAN_STATEMENT)?);
    Ok(())
}

#[test]
fn two_files_in_both_orders(rt: HostRuntime) -> Result<(), AllocError> {
    let alloc = rt.alloc();
    let files = [FIRST_OF_TWO, SECOND_OF_TWO];
    assert!(rt; gives_at_each(&rt, alloc, &files, Status::Clean, TWO_STATEMENT)?);
    let files = [SECOND_OF_TWO, FIRST_OF_TWO];
    assert!(rt; gives_at_each(&rt, alloc, &files, Status::Clean, SWAPPED_STATEMENT)?);
    Ok(())
}

#[test]
fn a_missing_and_a_doubled_file(rt: HostRuntime) -> Result<(), AllocError> {
    let files = [FIRST_OF_THREE, THIRD_OF_THREE, FIRST_OF_THREE];
    assert!(rt; gives_at_each(&rt, rt.alloc(), &files, Status::Remarks, DOUBLED_STATEMENT)?);
    Ok(())
}

#[test]
fn a_file_of_another_report(rt: HostRuntime) -> Result<(), AllocError> {
    let files = [OTHER_REPORT, CLEAN];
    assert!(rt; gives_at_each(&rt, rt.alloc(), &files, Status::Remarks, FOREIGN_STATEMENT)?);
    Ok(())
}

#[test]
fn a_block_of_every_verdict(rt: HostRuntime) -> Result<(), AllocError> {
    let files = [VERDICTS];
    assert!(rt; gives_at_each(&rt, rt.alloc(), &files, Status::Remarks, VERDICTS_STATEMENT)?);
    Ok(())
}
