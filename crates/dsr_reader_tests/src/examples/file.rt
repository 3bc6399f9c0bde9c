//! The example of dsr_file.
use dsr_file::{Ending, Event, EventPart, FileReader};
use dsr_records::Layout;
use std::test::Fail;

/// The name of a kind of event.
fn name_of(part: &EventPart) -> &'static str {
    match part {
        EventPart::Opened(_) => "opening",
        EventPart::Block(_) => "block",
        EventPart::Ended(_) => "end",
    }
}

/// What a call of the reader gave.
fn kind_of(event: Option<Event>) -> &'static str {
    let kind = match &event {
        Some(event) => name_of(&event.part),
        None => "nothing",
    };
    drop(event);
    kind
}

/// The opening of a file comes once its FOOT is whole, and then its end.
#[test]
fn a_file_in_two_pieces(rt: HostRuntime) -> Result<(), Fail> {
    let mut file = FileReader::new(rt.alloc(), &Layout::standard())?;
    let (_, event) = file.take(b"HEAD\tR1\t1\t1\t2024-01-01\t2024-01-31\tS\tL\nFO");
    let first = kind_of(event);
    let (_, event) = file.take(b"OT\t2\t0\t0\n");
    let second = kind_of(event);
    let third = kind_of(file.finish(Ending::Whole));
    drop(file);
    assert_eq!(rt; [first, second, third], ["nothing", "opening", "end"]);
    Ok(())
}
