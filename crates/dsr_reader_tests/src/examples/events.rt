//! The example of dsr_events.
use dsr_events::{EventPart, FileFault, Outcome};
use dsr_records::Column;
use std::test::Fail;

/// A bad cell has the name of its fault and its column, and ends the file.
#[test]
fn a_bad_cell_ends_the_file(rt: HostRuntime) -> Result<(), Fail> {
    let fault = FileFault::BadCell(Column::Amount);
    assert_eq!(rt; fault.name(), "BadCell");
    assert!(rt; fault.column() == Some(Column::Amount));
    let end = EventPart::Ended(Outcome::Fault { line: 7, fault });
    let is_end = end.is_ended();
    drop(end);
    assert!(rt; is_end);
    Ok(())
}
