//! Books: the example of dsr_ledger, on a file of one block, and calls that are made again.
//!
//! 1. `example`: the one that the lib.rt of dsr_ledger shows.
//! 2. `making`: the events of a text, and when a report can be made.
//! 3. `again`: each call of the books is made again if it is refused memory, and the report is the same.
//! 4. `one_file`: the test. What books come to is tried on the program: `cases` has the statements.

mod again;
mod example;
mod making;
mod one_file;
