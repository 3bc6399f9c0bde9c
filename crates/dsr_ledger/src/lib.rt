//! The books of a report: the standing of each file, the verdict of each block, the ledger, and the
//! report.
//!
//! The path of a block, and the module of each stage:
//!
//! 1. `books` has the public functions, and the state of all files with the ledger. A file is opened by its first
//!    event (`file/open`), which decides its standing after the files before it ([`Standing`]) and numbers the keys of
//!    its summaries in the ledger. `file` is the state of a file.
//! 2. `verdict` gives the verdict of a block: whether it counts, and if not, why ([`Reason`]). `file/ids` has the
//!    identifiers of the blocks before it, `file/summaries` the file's summaries, in file order, with their `sums`, to which it
//!    adds the usages of a rejected block too.
//! 3. `booking` books a block. Its plan finds the recording, the seats of its parties, and for each usage a line of the
//!    recording and its parts, and allocates all memory. Its additions allocate none.
//! 4. `ledger` stores each party, summary key (`ledger/summary_key`) and recording once, interned in maps with seeded
//!    hashers. A recording owns its seats and lines (`ledger/recording`, `seats`, `line`), a line its sums (`ledger/totals`)
//!    and parts (`ledger/parts`, `part`): numbers of 64 bits in place, or of 128 on the heap, for which the plan has taken
//!    memory (`ledger/spares`). `index` finds an item of a list: a long list whose numbers do not rise has an index of them;
//!    in a short one, hints are the probable places of lines and summaries. Numbers of items are kept in 32 bits.
//! 5. `closed` closes the books: it makes the parts of the `report` that say how the files did (`findings`). Closed books
//!    give the lines of the ledger one after another (`view`), in the order of the recordings and of the summary keys
//!    (`view/sorted`). Giving them allocates nothing. They borrow their texts; a report has copies of them (`view/copies`).
//!
//! **Example**, compiled and proved in `crates/dsr_tests/src/books/example.rt`:
//!
//! ```
//! /// Opens the first file.
//! fn open(books: &mut Books, opening: Opening) -> Result<(), Fail> {
//!     if books.opened() < books.files() {
//!         books.open_next(Some(opening))?;
//!     }
//!     Ok(())
//! }
//!
//! /// Books a block of the first file.
//! fn book(books: &mut Books, block: &Block) -> Result<(), Fail> {
//!     if books.has_opening(0) && !books.ended(0) && books.blocks(0) < 1 << 37 {
//!         books.book(0, block)?;
//!     }
//!     Ok(())
//! }
//!
//! /// Ends the first file.
//! fn end(books: &mut Books, outcome: Outcome) -> Result<(), Fail> {
//!     if books.opened() > 0 && !books.ended(0) {
//!         books.end_file(0, outcome)?;
//!     }
//!     Ok(())
//! }
//!
//! /// Passes an event of the first file to the books.
//! fn hand_in(books: &mut Books, event: Event) -> Result<(), Fail> {
//!     match event.part {
//!         EventPart::Opened(opening) => open(books, opening),
//!         EventPart::Block(block) => {
//!             let booked = book(books, &block);
//!             drop(block);
//!             booked
//!         }
//!         EventPart::Ended(outcome) => end(books, outcome),
//!     }
//! }
//!
//! /// Passes all events of the first file to the books.
//! fn hand_in_all(books: &mut Books, events: &mut EventList) -> Result<(), Fail> {
//!     for _ in 0..events.len() {
//!         if let Some(event) = events.next() {
//!             hand_in(books, event)?;
//!         }
//!     }
//!     Ok(())
//! }
//!
//! /// The report of books, if their files have ended.
//! fn close(books: Books) -> Result<Report, Fail> {
//!     // `all_ended` asks the books whether each file is opened and has ended.
//!     if !all_ended(&books) {
//!         drop(books);
//!         return Err(Fail::new("a file that has not ended"));
//!     }
//!     Ok(books.into_report()?)
//! }
//!
//! /// The report of one file with these events.
//! ///
//! /// # Errors
//! ///
//! /// A failure of the test: the file does not end, or out of memory.
//! pub fn report_of(alloc: Global, events: &mut EventList) -> Result<Report, Fail> {
//!     let mut books = Books::new(alloc, 1)?;
//!     match hand_in_all(&mut books, events) {
//!         Ok(()) => close(books),
//!         Err(failure) => {
//!             drop(books);
//!             Err(failure)
//!         }
//!     }
//! }
//! ```
//!
//! **The promise.** Books stand for a list of files, each with its opening, blocks and outcome, and
//! each call adds exactly its argument to it, or nothing if memory is refused. The report is that
//! of exactly these files. No report depends on the seed of the hashes. The amounts of a line's
//! parties and the unclaimed amount add up to its amount ([`laws`]).
//!
//! **Where to begin.** `specs/meaning/Reports.antt` says what a report is, `specs/meaning/Verdicts.antt` when a block
//! counts; `src/books.rt` has the public functions.
#![tactic(auto)]

mod booking;
mod books;
mod closed;
mod file;
mod findings;
mod index;
pub mod laws;
mod ledger;
mod report;
mod sums;
mod verdict;
mod view;

pub use books::Books;
pub use closed::ClosedBooks;
pub use report::{
    Difference, Differences, FileLine, FileLines, LedgerLine, LedgerLines, Numbers, Parties,
    PartyLine, Reject, Rejects, Report, ReportKey,
};
pub use verdict::{Reason, Standing, Verdict};
pub use view::{LedgerView, LineView, PartyView, ReportView};
