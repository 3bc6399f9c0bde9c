//! Books, and the events of their files that were not handed in yet.
ghost use Rattle.std.specs.Prelude.{◌≡◌, true};
ghost use Rattle.dsr_ledger.specs.inner.BooksWords.{AllEnded};

use crate::answers::{no_memory, say};
use dsr_cells::NoMemory;
use dsr_events::{EventList, EventPart, Opening, Outcome};
use dsr_ledger::{Books, Report, Standing, Verdict};
use dsr_records::Block;
use std::alloc::Global;
use std::io::{self, Print};

/// Whether all files are opened and ended.
fn all_ended(books: &Books) -> bool
    ensures { result ≡ true → AllEnded books.now }
{
    let files = books.files();
    if books.opened() != files {
        return false;
    }
    for k in 0..files {
        if !books.ended(k) {
            return false;
        }
    }
    true
}

/// The first event of a list, if it is Opened.
fn take_opening(events: &mut EventList) -> Option<Opening> {
    match &events.get(0)?.part {
        EventPart::Opened(_) => {}
        _ => return None,
    }
    match events.next()?.part {
        EventPart::Opened(opening) => Some(opening),
        EventPart::Block(block) => {
            drop(block);
            None
        }
        EventPart::Ended(_) => None,
    }
}

/// The first event of a list, if it is a block.
fn take_block(events: &mut EventList) -> Option<Block> {
    match &events.get(0)?.part {
        EventPart::Block(_) => {}
        _ => return None,
    }
    match events.next()?.part {
        EventPart::Block(block) => Some(block),
        EventPart::Opened(opening) => {
            drop(opening);
            None
        }
        EventPart::Ended(_) => None,
    }
}

/// The first event of a list, if it is Ended.
fn outcome_of(events: &EventList) -> Option<Outcome> {
    match &events.get(0)?.part {
        EventPart::Ended(outcome) => Some(*outcome),
        _ => None,
    }
}

/// Opens the next file, if there is one.
fn open(books: &mut Books, opening: Option<Opening>) -> Result<Option<Standing>, NoMemory> {
    if books.opened() >= books.files() {
        drop(opening);
        return Ok(None);
    }
    Ok(Some(books.open_next(opening)?))
}

/// Books a block of file k, if it takes one.
fn book(books: &mut Books, k: u32, block: &Block) -> Result<Option<Verdict>, NoMemory> {
    if books.has_opening(k) && !books.ended(k) && books.blocks(k) < 1 << 37 {
        return Ok(Some(books.book(k, block)?));
    }
    Ok(None)
}

/// Books the next block of file k, if the next event is one.
fn book_next(
    books: &mut Books,
    k: u32,
    events: &mut EventList,
) -> Result<Option<Verdict>, NoMemory> {
    let Some(block) = take_block(events) else {
        return Ok(None);
    };
    let verdict = book(books, k, &block);
    drop(block);
    verdict
}

/// Ends file k by this outcome, if it can be ended. Returns whether it was.
fn end(books: &mut Books, k: u32, outcome: Option<Outcome>) -> Result<bool, NoMemory> {
    let Some(outcome) = outcome else {
        return Ok(false);
    };
    let can_end = k < books.opened() && !books.ended(k);
    if can_end {
        books.end_file(k, outcome)?;
    }
    Ok(can_end)
}

/// Books of files that are opened one by one, with the events of each that were not handed in.
#[derive(Drop)]
pub struct Accounts {
    books: Books,
    files: Vec<EventList>,
}

impl Accounts {
    /// Books of so many files, 1 to 64; None for any other number.
    pub fn new(alloc: Global, files: u32) -> Result<Option<Accounts>, NoMemory> {
        if files == 0 || files > 64 {
            return Ok(None);
        }
        Ok(Some(Accounts {
            books: Books::new(alloc, files)?,
            files: Vec::new(alloc),
        }))
    }

    /// Opens the next file by the first of its events. None if all are open.
    pub fn open(&mut self, mut events: EventList) -> io::Result<Option<Standing>> {
        let standing = open(&mut self.books, take_opening(&mut events)).map_err(no_memory)?;
        self.files.push(events)?;
        Ok(standing)
    }

    /// Books the next block of file k.
    pub fn book(&mut self, k: u32) -> io::Result<Option<Verdict>> {
        match self.files.get_mut(k as usize) {
            Some(events) => book_next(&mut self.books, k, events).map_err(no_memory),
            None => Ok(None),
        }
    }

    /// Ends file k by the first event that was not handed in. Returns whether it is Ended.
    pub fn end(&mut self, k: u32) -> io::Result<bool> {
        let outcome = self
            .files
            .get(k as usize)
            .and_then(|events| outcome_of(events));
        end(&mut self.books, k, outcome).map_err(no_memory)
    }

    /// Makes a call that only asks. Returns whether there is such a call.
    pub fn ask<P: Print>(&self, rt: &P, word: &str, k: u32) -> io::Result<bool> {
        match word {
            "Books::files" => say(rt, word, self.books.files())?,
            "Books::opened" => say(rt, word, self.books.opened())?,
            "Books::blocks" => say(rt, word, self.books.blocks(k))?,
            "Books::ended" => say(rt, word, self.books.ended(k))?,
            "Books::has_opening" => say(rt, word, self.books.has_opening(k))?,
            _ => return Ok(false),
        }
        Ok(true)
    }

    /// The report of the books, whose files are all ended; else None.
    pub fn close(self) -> io::Result<Option<Report>> {
        let Accounts { books, files } = self;
        drop(files);
        if !all_ended(&books) {
            drop(books);
            return Ok(None);
        }
        Ok(Some(books.into_report().map_err(no_memory)?))
    }
}
