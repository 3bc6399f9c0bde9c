//! Books of which any call may be refused memory, and is then made again. checks/refusals refuses each allocation in turn.
use crate::books::making::all_ended;
use crate::texts::{VERDICTS, VERDICTS_STATEMENT};
use dsr_cells::NoMemory;
use dsr_file::{Ending, EventList, EventPart, Opening, whole_events};
use dsr_intake::statement;
use dsr_ledger::{Books, Report};
use dsr_records::{Block, Layout};
use std::alloc::Global;
use std::test::Fail;

/// The events of the file.
fn events(alloc: Global) -> Result<EventList, NoMemory> {
    whole_events(alloc, &Layout::standard(), VERDICTS, Ending::Whole)
}

/// The events of the file, asked for again if memory is refused.
fn events_again(alloc: Global) -> Result<EventList, NoMemory> {
    match events(alloc) {
        Ok(events) => Ok(events),
        Err(NoMemory) => events(alloc),
    }
}

/// The opening of the file.
fn opening(alloc: Global) -> Result<Option<Opening>, NoMemory> {
    let mut events = events_again(alloc)?;
    let first = events.next();
    drop(events);
    match first {
        Some(event) => match event.part {
            EventPart::Opened(opening) => Ok(Some(opening)),
            EventPart::Block(block) => {
                drop(block);
                Ok(None)
            }
            EventPart::Ended(_) => Ok(None),
        },
        None => Ok(None),
    }
}

/// Opens the file.
fn open(books: &mut Books, opening: Option<Opening>) -> Result<(), NoMemory> {
    if books.opened() < books.files() {
        books.open_next(opening)?;
    } else {
        drop(opening);
    }
    Ok(())
}

/// Opens the file, and again by an equal opening if memory is refused.
fn open_again(alloc: Global, books: &mut Books) -> Result<(), NoMemory> {
    match open(books, opening(alloc)?) {
        Ok(()) => Ok(()),
        Err(NoMemory) => open(books, opening(alloc)?),
    }
}

/// Books a block.
fn book(books: &mut Books, block: &Block) -> Result<(), NoMemory> {
    if books.has_opening(0) && !books.ended(0) && books.blocks(0) < 1 << 37 {
        books.book(0, block)?;
    }
    Ok(())
}

/// Books a block, and again if memory is refused.
fn book_again(books: &mut Books, block: &Block) -> Result<(), NoMemory> {
    match book(books, block) {
        Ok(()) => Ok(()),
        Err(NoMemory) => book(books, block),
    }
}

/// Books the blocks of the file, and ends it.
fn take_all(books: &mut Books, events: &EventList) -> Result<(), NoMemory> {
    for i in 0..events.len() {
        match events.get(i).map(|event| &event.part) {
            Some(EventPart::Block(block)) => book_again(books, block)?,
            Some(EventPart::Ended(outcome)) if books.opened() > 0 && !books.ended(0) => {
                books.end_file(0, *outcome)?;
            }
            _ => {}
        }
    }
    Ok(())
}

/// Opens the file, books its blocks and ends it.
fn fill(alloc: Global, books: &mut Books) -> Result<(), NoMemory> {
    open_again(alloc, books)?;
    let events = events_again(alloc)?;
    let taken = take_all(books, &events);
    drop(events);
    taken
}

/// The report of books that are ended; None if it is refused memory, and the books are gone.
fn close(books: Books) -> Option<Report> {
    if !all_ended(&books) {
        drop(books);
        return None;
    }
    books.into_report().ok()
}

/// New books of the file, made again if memory is refused.
fn new_again(alloc: Global) -> Result<Books, NoMemory> {
    match Books::new(alloc, 1) {
        Ok(books) => Ok(books),
        Err(NoMemory) => Books::new(alloc, 1),
    }
}

/// The report of new books; None if it is refused memory.
fn report(alloc: Global) -> Result<Option<Report>, NoMemory> {
    let mut books = new_again(alloc)?;
    match fill(alloc, &mut books) {
        Ok(()) => Ok(close(books)),
        Err(NoMemory) => {
            drop(books);
            Err(NoMemory)
        }
    }
}

/// The report, begun anew if it is refused memory at the end.
fn report_again(alloc: Global) -> Result<Option<Report>, NoMemory> {
    match report(alloc)? {
        Some(made) => Ok(Some(made)),
        None => report(alloc),
    }
}

/// The statement of the report, written again if memory is refused.
fn statement_again(alloc: Global, report: &Report) -> Result<Vec<u8>, NoMemory> {
    match statement(alloc, report) {
        Ok(written) => Ok(written),
        Err(NoMemory) => statement(alloc, report),
    }
}

#[test]
fn a_refused_call_is_made_again(rt: HostRuntime) -> Result<(), Fail> {
    let alloc = rt.alloc();
    let Some(report) = report_again(alloc)? else {
        return Err(Fail::new("no report"));
    };
    let written = statement_again(alloc, &report);
    drop(report);
    assert!(rt; written?.as_slice() == VERDICTS_STATEMENT);
    Ok(())
}
