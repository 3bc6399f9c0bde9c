//! The examples that the lib.rt files show, except those of dsr_io and of boxed blocks.
mod cells;
mod events;
mod file;
mod records;
mod texts;
