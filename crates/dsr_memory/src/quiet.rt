//! What tells no progress.
use std::fmt::Display;
use std::io;
use std::io::{Eprint, ErrorKind};
use std::time::{Clock, Duration};

/// A clock that has no time, and prints nothing.
#[derive(Clone, Copy, Drop)]
pub struct Quiet;

impl Clock for Quiet {
    fn monotonic(&self) -> io::Result<Duration> {
        Err(io::Error::from(ErrorKind::Unsupported))
    }

    fn since_1970(&self) -> io::Result<Duration> {
        Err(io::Error::from(ErrorKind::Unsupported))
    }
}

impl Eprint for Quiet {
    fn eprint<D: Display + Drop>(&self, _value: D) -> io::Result<()> {
        Ok(())
    }

    fn eprintln<D: Display + Drop>(&self, _value: D) -> io::Result<()> {
        Ok(())
    }
}
