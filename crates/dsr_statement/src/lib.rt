//! The statement of a report: its lines and those of its seal, their bytes, how they are written and read, and whether it has
//! remarks.
//!
//! 1. `line`: the lines, which borrow their texts. `table` gives the cells (`cell`) of a line.
//! 2. [`put`] puts them into a [`Sink`] (`sink`), one after another (`putting`, `cells`, `names`): into bytes to be written, or
//!    against a text that has to be the same.
//! 3. [`read`] reads the line whose text it is given: leniently (`number` and `cut`, `lenient`, `file`, `seal`), then it tests
//!    that each of its cells is one that a statement may have (`check`), and that this is its text.
//! 4. `reader` reads the lines of a statement one after another: it keeps of them what the next one depends on (`last`,
//!    `left`), tests that it may stand there and that the amounts of a ledger line add up, and says why not (`fault`). A line
//!    of a party or of an unclaimed amount is read by the key of its ledger line (`near`), whose cells are not read again.
//! 5. `write` puts the statement of a report, by `lines` and `key`, into `pieces`, which are written to an [`Outlet`] of dsr_io
//!    in up to 64 KiB, and flushed at the end. What waits is in a `slice_buffer`, of the memory that `room` has.
//! 6. `remarks`: the status of a report, whose statement has remarks or not (`verdict`), and which lines are remarks.
//! 7. [`laws`] has the laws of lines and of statements.
//!
//! **Examples**, compiled and proved in `crates/dsr_tests/src/collecting.rt` and `statements.rt`:
//!
//! ```
//! /// Whether this is the statement of a report.
//! fn is_statement_of(alloc: Global, report: &Report, expected: &[u8]) -> bool {
//!     match statement(alloc, report) {
//!         Ok(written) => written.as_slice() == expected,
//!         Err(_) => false,
//!     }
//! }
//! ```
//!
//! ```
//! /// The lines of a statement, up to one that may not stand where it does.
//! fn lines_and_their_places(rt: HostRuntime) -> Result<(), Fail> {
//!     let mut reader = StatementReader::new(rt.alloc());
//!     let first = reader.line(b"REPORT\tR1\t2\t2024-01-01\t2024-01-31\t31");
//!     assert!(rt; matches!(&first, Ok(Line::Report(_))));
//!     // The line of the first file comes before that of the second.
//!     let second = reader.line(b"FILE\t2\t2\tOurs\t1\tWhole");
//!     assert!(rt; matches!(&second, Err(ReadError::Fault(StatementFault::Place))));
//!     Ok(())
//! }
//! ```
//!
//! **The promise.** What `write_statement` writes to an outlet and then flushes is exactly the statement of the report, as
//! defined in `specs/`; if a write or the flush fails, exactly the reported number of its first bytes was written.
//! Memory for writing is refused by [`Room::new`] alone, which has nothing to write to. `statement` returns the same bytes. The
//! status is that of the same report. A text is read as the line whose text it is, and any other text is refused with the fault
//! that the definition gives it; so are lines that may not stand where they do, and the end of a text. Nothing is repaired, and
//! the reader keeps the memory of one line. Of lines that are sealed, none less or more makes sealed lines, and nothing may
//! follow the text of a sealed statement.
//!
//! **Where to begin.** `specs/meaning/Cells.antt` and `Lines.antt` have the lines, `Statement.antt` those of a report,
//! `Seals.antt` those of its seal, `Order.antt` which may stand after which, `Readings.antt` what a text is read as, and
//! `Status.antt` the status; `Written.antt` of dsr_io what an outlet tells. `src/putting.rt` puts each line, `src/reading.rt`
//! reads one, `src/write.rt` and `src/reader.rt` have the whole.
#![tactic(auto)]

mod cell;
mod cells;
mod check;
mod cut;
mod fault;
mod file;
mod key;
mod last;
pub mod laws;
mod left;
mod lenient;
mod line;
mod lines;
mod names;
mod near;
mod number;
mod pieces;
mod putting;
mod reader;
mod reading;
mod remarks;
mod room;
mod seal;
mod sink;
mod slice_buffer;
mod table;
mod verdict;
mod write;

pub use fault::{ReadError, StatementFault};
pub use line::{DifferenceRef, DigestRef, KeyRef, Line, LineKind, PartyRef, RejectRef, ReportRef};
pub use lines::put_line;
pub use pieces::Pieces;
pub use putting::put;
pub use reader::StatementReader;
pub use reading::{LINE_LIMIT, read};
pub use remarks::{is_remark, status};
pub use room::Room;
pub use sink::{Match, Sink};
pub use verdict::Status;
pub use write::{statement, write_statement};
