//! The example of dsr_ledger.
use crate::books::making::all_ended;
use dsr_file::{Event, EventList, EventPart, Opening, Outcome};
use dsr_ledger::{Books, Report};
use dsr_records::Block;
use std::alloc::Global;
use std::test::Fail;

/// Opens the first file.
fn open(books: &mut Books, opening: Opening) -> Result<(), Fail> {
    if books.opened() < books.files() {
        books.open_next(Some(opening))?;
    }
    Ok(())
}

/// Books a block of the first file.
fn book(books: &mut Books, block: &Block) -> Result<(), Fail> {
    if books.has_opening(0) && !books.ended(0) && books.blocks(0) < 1 << 37 {
        books.book(0, block)?;
    }
    Ok(())
}

/// Ends the first file.
fn end(books: &mut Books, outcome: Outcome) -> Result<(), Fail> {
    if books.opened() > 0 && !books.ended(0) {
        books.end_file(0, outcome)?;
    }
    Ok(())
}

/// Passes an event of the first file to the books.
fn hand_in(books: &mut Books, event: Event) -> Result<(), Fail> {
    match event.part {
        EventPart::Opened(opening) => open(books, opening),
        EventPart::Block(block) => {
            let booked = book(books, &block);
            drop(block);
            booked
        }
        EventPart::Ended(outcome) => end(books, outcome),
    }
}

/// Passes all events of the first file to the books.
fn hand_in_all(books: &mut Books, events: &mut EventList) -> Result<(), Fail> {
    for _ in 0..events.len() {
        if let Some(event) = events.next() {
            hand_in(books, event)?;
        }
    }
    Ok(())
}

/// The report of books, if their files have ended.
fn close(books: Books) -> Result<Report, Fail> {
    // `all_ended` asks the books whether each file is opened and has ended.
    if !all_ended(&books) {
        drop(books);
        return Err(Fail::new("a file that has not ended"));
    }
    Ok(books.into_report()?)
}

/// The report of one file with these events.
///
/// # Errors
///
/// A failure of the test: the file does not end, or out of memory.
pub fn report_of(alloc: Global, events: &mut EventList) -> Result<Report, Fail> {
    let mut books = Books::new(alloc, 1)?;
    match hand_in_all(&mut books, events) {
        Ok(()) => close(books),
        Err(failure) => {
            drop(books);
            Err(failure)
        }
    }
}
