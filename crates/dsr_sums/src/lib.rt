//! What statements add up to: the sums of each currency and of each market, and what each party is owed.
//!
//! 1. `reading` cuts a source into lines, and reads the lines of a statement by dsr_statement. `kept` has the bytes of a source
//!    that are not taken yet.
//! 2. `totals` adds each line to the accounts (`account`) of its currency, its market and its party, in three books (`book`),
//!    which keep the sums of each account (`sums`). What was paid is subtracted. A sum that leaves the range of 128 bits is
//!    remembered, and nothing more is added. `seeded` has the hashers of the books.
//! 3. `reports` has the reports of the statements that were read, which were given or paid, and refuses a statement for those
//!    before it. [`Rules`] (`rules`) say what is taken beside sealed statements without remarks.
//! 4. [`add_up`] (`answer`) reads one statement after another, and makes the text of their totals (`text`), or says why there
//!    is none ([`TotalsError`]).
//! 5. [`laws`] has the law of totals.
//!
//! **Example**, compiled and proved in `crates/dsr_sums/src/tests.rt`:
//!
//! ```
//! /// Sealed statements without remarks.
//! const RULES: Rules = Rules {
//!     with_remarks: false,
//!     unsealed: false,
//!     same_message: false,
//! };
//!
//! /// The text of the totals of a given statement, or why there is none.
//! fn totals_of(alloc: Global, statement: &str) -> Result<Vec<u8>, TotalsError> {
//!     let mut sources = [FromRead::new(statement.as_bytes())];
//!     add_up(alloc, 0, &mut sources, 1, RULES)
//! }
//! ```
//!
//! **The promise.** The totals are those of the definition, over what the sources gave: each sum is the exact sum of the
//! statements' numbers, what was paid subtracted; in each currency what is claimed and what is unclaimed add up to the amount.
//! No sum wraps: one that leaves the range of 128 bits is an error. The first statement that is refused is the answer, whatever
//! follows it; without a seal, which shows that it is whole, one is taken only if the rules say so. A source is read to its end, or up to a failed read or a fault. Memory is kept for each account and each
//! statement, not for each line.
//!
//! **Where to begin.** `specs/meaning/Postings.antt` says what accounts add up to, `Totals.antt` what a line adds,
//! `Statements.antt` and `Answers.antt` which statements are refused, `Sources.antt` what sources gave, and `specs/layer/Laws.antt` the law;
//! `src/answer.rt` has the public function.
#![tactic(auto)]

mod account;
mod answer;
mod book;
mod kept;
pub mod laws;
mod reading;
mod reports;
mod rules;
mod seeded;
mod sums;
mod text;
mod totals;

pub use answer::{TotalsError, add_up};
pub use rules::Rules;

#[cfg(test)]
mod tests;
