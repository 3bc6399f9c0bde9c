//! An outlet that counts the lines that it takes.
ghost use Rattle.std.specs.Prelude.{◌≡◌, ◌≤◌};
ghost use Rattle.dsr_seal.specs.meaning.Counts.{line_feeds};
ghost use Rattle.dsr_seal.specs.layer.Counts.{IsCounted, IsInside, told_counted};

use dsr_io::{Failed, Outlet};

/// An outlet that passes on to another one what it takes, and counts its bytes and line feeds. What it holds is known to
/// contracts while the number of line feeds is that of the bytes that it took: from the beginning on, if it was known then.
#[derive(Drop)]
pub struct Counted<O: Outlet> {
    out: O,
    bytes: u64,
    lines: u64,
    ghost all: { bytes ≡ (O.told out).taken },
    ghost few: { lines ≤ bytes },
}

impl<O: Outlet> Counted<O> {
    /// An outlet that passes on to this one, which took nothing yet.
    pub fn new(out: O) -> Counted<O>
        requires { (O.told out).taken ≡ 0 }
        ensures { ⟦<Counted<O> as Outlet>⟧.told result ≡ O.told out }
    {
        Counted {
            out,
            bytes: 0,
            lines: 0,
        }
    }

    /// The number of bytes that it took.
    pub fn taken(&self) -> u64
        ensures { result ≡ (⟦<Counted<O> as Outlet>⟧.told self.now).taken }
    {
        self.bytes
    }

    /// The number of line feeds among them.
    pub fn lines(&self) -> u64
        ensures { IsCounted result (⟦<Counted<O> as Outlet>⟧.told self.now) }
    {
        self.lines
    }

    /// Returns the outlet to which it passes on.
    pub fn into_outlet(self) -> O
        ensures { IsInside (⟦<Counted<O> as Outlet>⟧.told self) (O.told result) }
    {
        let Counted { out, .. } = self;
        out
    }
}

impl<O: Outlet> Outlet for Counted<O> {
    ghost told = { λ s. told_counted s.lines (O.told s.out) };

    /// Of a write that fails nothing is counted.
    fn write(&mut self, piece: &[u8]) -> Result<usize, Failed> {
        let count = self.out.write(piece)?;
        self.bytes += count as u64;
        self.lines += line_feeds(&piece[..count]);
        Ok(count)
    }

    fn flush(&mut self) -> Result<(), Failed> {
        self.out.flush()
    }

    fn failed(&self) -> bool {
        self.out.failed()
    }
}

/// The number of line feeds.
fn line_feeds(bytes: &[u8]) -> u64
    ensures { result ≡ line_feeds bytes.now }
{
    let mut count = 0;
    for byte in bytes {
        if *byte == b'\n' {
            count += 1;
        }
    }
    count
}
