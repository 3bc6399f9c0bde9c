//! The example on a file of one block.
use crate::books::example::report_of;
use crate::books::making::events_of;
use std::test::Fail;

/// A file of one block, with a work of one party.
const TEXT: &str = "HEAD\tR1\t1\t1\t2024-01-01\t2024-01-31\tS\tL
SY01\tS1\tGB\tOnDemandStream\tGBP\t400\t2.4
AS01\tB1\tGBAYE0601498
MW01\tB1\tW1\tSong\tAda\t50
SU01\tB1\tS1\t400\t2.4
FOOT\t6\t1\t1
";

#[test]
fn the_report_of_one_file(rt: HostRuntime) -> Result<(), Fail> {
    let mut events = events_of(rt.alloc(), TEXT)?;
    let report = report_of(rt.alloc(), &mut events);
    drop(events);
    let report = report?;
    let line = report.ledger.get(0);
    let found = line.map(|line| (line.amount, line.parties.len()));
    drop(report);
    assert_eq!(rt; found, Some((24_000_000_000, 1)));
    Ok(())
}
