//! An outlet over a `std::io::Write`.
ghost use Rattle.std.specs.Prelude.{◌≡◌, false};

use crate::outlet::Outlet;
use crate::source::Failed;
use std::io::Write;

/// An outlet over a writer. It takes at most 2^64 - 1 bytes and as many flushes, and then fails.
#[derive(Drop)]
pub struct ToWrite<W> {
    writer: W,
    taken: u64,
    failed: bool,
    flushes: u64,
    unflushed: bool,
}

impl<W: Write> ToWrite<W> {
    /// An outlet over this writer, which has not failed.
    pub fn new(writer: W) -> ToWrite<W>
        ensures { ⟦<ToWrite<W> as Outlet>⟧.told result
            ≡ record {
              contents = W.contents writer;
              taken = 0;
              failed = false;
              flushes = 0;
              unflushed = false;
            } }
    {
        ToWrite {
            writer,
            taken: 0,
            failed: false,
            flushes: 0,
            unflushed: false,
        }
    }

    /// Returns the writer, with what was written. Nothing is flushed: what was written since the last
    /// flush is still unflushed.
    pub fn into_writer(self) -> W
        ensures { result ≡ self.writer }
    {
        self.writer
    }
}

impl<W: Write> Outlet for ToWrite<W> {
    ghost told = { λ s. record {
      contents = W.contents s.writer;
      taken = s.taken;
      failed = s.failed;
      flushes = s.flushes;
      unflushed = s.unflushed;
    } };

    /// A write of 0 bytes is a failure, as it is if there is no room left in the count.
    fn write(&mut self, piece: &[u8]) -> Result<usize, Failed> {
        let room = (u64::MAX - self.taken) as usize;
        match self.writer.write(&piece[..piece.len().min(room)]) {
            Ok(n) if n > 0 => {
                self.taken += n as u64;
                self.unflushed = true;
                Ok(n)
            }
            _ => {
                self.failed = true;
                Err(Failed)
            }
        }
    }

    fn flush(&mut self) -> Result<(), Failed> {
        let Some(flushes) = self.flushes.checked_add(1) else {
            self.failed = true;
            return Err(Failed);
        };
        match self.writer.flush() {
            Ok(()) => {
                self.flushes = flushes;
                self.unflushed = false;
                Ok(())
            }
            Err(_) => {
                self.failed = true;
                Err(Failed)
            }
        }
    }

    fn failed(&self) -> bool {
        self.failed
    }
}
