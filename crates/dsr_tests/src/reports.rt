//! Reports in one file and in several, with several capacities and sizes of reads.
ghost use Rattle.std.specs.Prelude.{◌≡◌, false, All, IfOk};

use crate::capacities::CAPACITIES;
use crate::runs::{gives, options};
use crate::script::{After, Script, Step, one_reader};
use crate::texts::{
    ALL_READS, CLEAN, CLEAN_STATEMENT, FIRST_OF_THREE, NO_REPORT_READS, SECOND_CUT, THIRD_OF_THREE,
    THREE_STATEMENT,
};
use dsr_intake::Status;
use std::alloc::{AllocError, Global};

#[test]
fn a_clean_report_by_bytes_and_by_lines(rt: HostRuntime) -> Result<(), AllocError> {
    let alloc = rt.alloc();
    for step in [Step::Byte, Step::Line] {
        let readers = one_reader(alloc, CLEAN, step, After::End)?;
        let options = options(1, 1000);
        assert!(rt; gives(&rt, alloc, readers, options, Status::Clean, CLEAN_STATEMENT));
    }
    Ok(())
}

/// The readers of three files. A read of the second file fails after six lines; the other files are whole.
fn three_readers(alloc: Global) -> Result<Vec<Script>, AllocError>
    ensures { IfOk result (λ v. All (λ r. r.failed ≡ false) v.items) }
{
    let mut readers = one_reader(alloc, FIRST_OF_THREE, Step::Full, After::End)?;
    readers.push(Script::alone(alloc, SECOND_CUT, Step::Line, After::Failure)?)?;
    readers.push(Script::alone(alloc, THIRD_OF_THREE, Step::Byte, After::End)?)?;
    Ok(readers)
}

#[test]
fn a_failed_read_in_the_second_of_three(rt: HostRuntime) -> Result<(), AllocError> {
    let alloc = rt.alloc();
    for capacity in CAPACITIES {
        let readers = three_readers(alloc)?;
        let options = options(capacity, 1000);
        assert!(rt;
            gives(
                &rt,
                alloc,
                readers,
                options,
                Status::Remarks,
                THREE_STATEMENT
            )
        );
    }
    Ok(())
}

#[test]
fn comments_for_ever(rt: HostRuntime) -> Result<(), AllocError> {
    let alloc = rt.alloc();
    for capacity in CAPACITIES {
        let readers = one_reader(alloc, b"#\n", Step::Full, After::Again)?;
        let options = options(capacity, 5);
        assert!(rt;
            gives(
                &rt,
                alloc,
                readers,
                options,
                Status::Remarks,
                NO_REPORT_READS
            )
        );
    }
    Ok(())
}

/// With as many reads as bytes the end is not read.
#[test]
fn a_limit_at_the_last_byte(rt: HostRuntime) -> Result<(), AllocError> {
    let alloc = rt.alloc();
    let readers = one_reader(alloc, CLEAN, Step::Byte, After::End)?;
    let options = options(16, 206);
    assert!(rt; gives(&rt, alloc, readers, options, Status::Remarks, ALL_READS));
    Ok(())
}

/// With one read more than bytes the end is read.
#[test]
fn a_limit_behind_the_last_byte(rt: HostRuntime) -> Result<(), AllocError> {
    let alloc = rt.alloc();
    let readers = one_reader(alloc, CLEAN, Step::Byte, After::End)?;
    let options = options(16, 207);
    assert!(rt; gives(&rt, alloc, readers, options, Status::Clean, CLEAN_STATEMENT));
    Ok(())
}
