//! End-to-end tests, from the bytes of the files to the statement. The expected statements were worked out by hand
//! from docs/PROFILE.md.
//!
//! 1. `texts` has the files and their statements, `script` a scripted reader of a text, `page` an outlet that fails at a
//!    given point, and `runs` a run on them, which the lib.rt of dsr_intake shows.
//! 2. `reports`: reports in one file and in several. `capacities`: the same at several capacities. `intakes`: reports without
//!    a statement. `collecting`: the collector alone.
//! 3. `refusals` and `memory`: what is refused and what fails. `turns`: readers that wait for one another.
//! 4. `books`: the example of dsr_ledger, and books whose calls are made again when memory was refused.
//!    `statements`: the example of dsr_statement.
#![tactic(auto)]

#[cfg(test)]
mod books;
#[cfg(test)]
mod capacities;
#[cfg(test)]
mod collecting;
#[cfg(test)]
mod intakes;
#[cfg(test)]
mod memory;
#[cfg(test)]
mod page;
#[cfg(test)]
mod refusals;
#[cfg(test)]
mod reports;
#[cfg(test)]
mod runs;
#[cfg(test)]
mod script;
#[cfg(test)]
mod statements;
#[cfg(test)]
mod texts;
#[cfg(test)]
mod turns;
