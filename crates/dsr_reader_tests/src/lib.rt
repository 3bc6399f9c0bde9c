//! The examples of the six crates from dsr_texts to dsr_file, and tests of what their contracts leave open.
//!
//! 1. `examples`: those that the lib.rt files of these crates show, except those of dsr_io and of boxed blocks.
//! 2. `memory`: calls that take memory. Contracts say what each returns if memory is refused; here each succeeds if it is
//!    not. One of these calls is the example of boxed blocks.
//! 3. `reads`: how far a file is read, which contracts do not say of one that ends for want of memory. The source of this
//!    test is the example of dsr_io.
//! 4. `whole`: all events of a file at once, asked for again if memory is refused.
//! 5. `refused`: which event `read_file` hands back if its sink refuses one.
//! 6. `usual`: which lines are read quickly, which contracts do not say.
//! 7. `flushes`: a flush of an outlet reaches its writer, which contracts do not say.
//!
//! `checks/refusals` refuses each allocation of `reads`, of `whole`, and of the second test of `memory`, in turn.
//!
//! That cells, records, layouts and files have the values of docs/PROFILE.md is not tested here: `checks/rows` tries it on
//! the program.
#![tactic(auto)]

#[cfg(test)]
mod examples;
#[cfg(test)]
mod flushes;
#[cfg(test)]
mod memory;
#[cfg(test)]
mod reads;
#[cfg(test)]
mod refused;
#[cfg(test)]
mod usual;
#[cfg(test)]
mod whole;
