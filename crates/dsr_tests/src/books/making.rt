//! What the example makes its books of, and when it asks for a report.
ghost use Rattle.std.specs.Prelude.{◌≡◌, true};
ghost use Rattle.dsr_ledger.specs.inner.BooksWords.{AllEnded};

use dsr_file::{Ending, EventList, whole_events};
use dsr_ledger::Books;
use dsr_records::Layout;
use std::alloc::Global;
use std::test::Fail;

/// The events of a whole text.
///
/// # Errors
///
/// A failure of the test: the text is too long, or out of memory.
pub fn events_of(alloc: Global, text: &str) -> Result<EventList, Fail> {
    let bytes = text.as_bytes();
    if bytes.len() > 4096 {
        return Err(Fail::new("a text of more than 4096 bytes"));
    }
    Ok(whole_events(alloc, &Layout::standard(), bytes, Ending::Whole)?)
}

/// Whether all files are opened and ended.
pub fn all_ended(books: &Books) -> bool
    ensures { result ≡ true → AllEnded books.now }
{
    let files = books.files();
    if books.opened() != files {
        return false;
    }
    for k in 0..files {
        if !books.ended(k) {
            return false;
        }
    }
    true
}
