//! Writing the bytes of a statement to an outlet, in pieces.
ghost use Rattle.std.specs.Prelude.{◌≡◌, ◌≤◌, ◌++◌, ◌∷◌, [], List, ℕ, true, false, if◌then◌else◌, length, take, OnOk, IfErr};
ghost use Rattle.dsr_io.specs.meaning.Written.{Written, IsFlushed, IsCut};
ghost use Rattle.dsr_statement.specs.meaning.Cells.{amount_cell};
ghost use Rattle.dsr_statement.specs.inner.Pieces.{IsSent, Holds, Puts};

use crate::sink::Sink;
use crate::slice_buffer::SliceBuffer;
use dsr_cells::fill_amount;
use dsr_io::{Failed, Outlet, write_all};

/// Room for this many bytes that wait, to be written at once.
pub(crate) const PIECE: usize = 65_536;

/// An outlet, how many bytes it took, and whether it has failed.
#[derive(Drop)]
pub(crate) struct Sender<'a, W> {
    out: &'a mut W,
    written: u64,
    failed: bool,
}

impl<'a, W: Outlet> Sender<'a, W> {
    /// Writes all bytes, unless the outlet has failed.
    fn send(&mut self, bytes: &[u8])
        ensures same_outlet { self.new.out.ghost_name ≡ self.old.out.ghost_name }
        ensures sent { (sent : List ℕ) (before : Written)
            → IsSent self.old.failed sent self.old.written before (W.told self.old.out.now)
            → IsSent self.new.failed (sent ++ bytes.now) self.new.written before (W.told self.new.out.now) }
    {
        if self.failed {
            return;
        }
        match write_all(self.out, bytes) {
            // The count fits: the outlet has counted these bytes too.
            Ok(()) => self.written = self.written.saturating_add(bytes.len() as u64),
            Err(count) => {
                self.failed = true;
                self.written = self.written.saturating_add(count as u64);
            }
        }
    }
}

/// A buffered writer to an outlet.
#[derive(Drop)]
pub struct Pieces<'a, W> {
    sender: Sender<'a, W>,
    /// The bytes that wait to be written.
    waiting: SliceBuffer<'a>,
}

impl<'a, W: Outlet> Pieces<'a, W> {
    /// A buffered writer to this outlet, with this room for what waits.
    pub fn new(out: &'a mut W, room: &'a mut [u8]) -> Pieces<'a, W>
        ensures same_outlet { result.sender.out.ghost_name ≡ out.entry.ghost_name }
        ensures nothing { Holds W.told [] (W.told out.old) result }
    {
        let sender = Sender {
            out,
            written: 0,
            failed: false,
        };
        Pieces {
            sender,
            waiting: SliceBuffer::new(room),
        }
    }

    /// Lets these bytes wait if there is room for them. Returns whether they wait.
    #[inline(always)]
    fn keep(&mut self, bytes: &[u8]) -> bool
        ensures { Puts W.told self.old self.new (if result then bytes.now else []) }
    {
        self.waiting.append(bytes)
    }

    /// Writes what waits, and lets these bytes wait; if there are too many, writes them too.
    #[cold]
    #[inline(never)]
    fn put_past(&mut self, bytes: &[u8])
        ensures { Puts W.told self.old self.new bytes.now }
    {
        self.send_waiting();
        if self.keep(bytes) {
            return;
        }
        self.send_past(bytes);
    }

    /// Writes what waits, and then these bytes.
    fn send_past(&mut self, bytes: &[u8])
        ensures { Puts W.told self.old self.new bytes.now }
    {
        self.send_waiting();
        self.sender.send(bytes);
    }

    /// Writes what waits.
    fn send_waiting(&mut self)
        ensures nothing { Puts W.told self.old self.new [] }
        ensures empty { self.new.waiting ≡ [] }
    {
        self.sender.send(self.waiting.as_slice());
        self.waiting.clear();
    }

    /// Writes what waits, and flushes.
    ///
    /// # Errors
    ///
    /// How many bytes were written before a write or the flush failed.
    pub fn finish(&mut self) -> Result<(), u64>
        ensures same_outlet { self.new.sender.out.ghost_name ≡ self.old.sender.out.ghost_name }
        ensures whole { OnOk result ((put : List ℕ) (before : Written)
            → Holds W.told put before self.old
            → IsFlushed put before (W.told self.new.sender.out.now)) }
        ensures part { IfErr result (λ n. (put : List ℕ) (before : Written)
            → Holds W.told put before self.old
            → (n ≤ length put) × IsCut (take n put) before (W.told self.new.sender.out.now)) }
    {
        self.send_waiting();
        if self.sender.failed {
            return Err(self.sender.written);
        }
        match self.sender.out.flush() {
            Ok(()) => Ok(()),
            Err(Failed) => Err(self.sender.written),
        }
    }

    /// Returns the outlet.
    pub fn into_outlet(self) -> &'a mut W
        ensures same_outlet { result.ghost_name ≡ self.entry.sender.out.ghost_name }
        ensures held { result.now ≡ self.entry.sender.out.now }
    {
        let Pieces { sender, .. } = self;
        let Sender { out, .. } = sender;
        out
    }
}

impl<'a, W: Outlet> Sink for Pieces<'a, W> {
    ghost use Rattle.dsr_statement.specs.inner.Pieces.{Puts, nothing, both_put};

    ghost took = { λ old bytes new. Puts W.told old new bytes };

    #[inline(always)]
    fn put(&mut self, bytes: &[u8]) {
        if self.keep(bytes) {
            return;
        }
        self.put_past(bytes);
    }

    ghost none = { nothing W.told };

    ghost both = { both_put W.told };
}

impl<'a, W: Outlet> Pieces<'a, W> {
    /// Puts the cell of an amount, after a tab, and the end of the line.
    pub(crate) fn put_last_amount(&mut self, amount: i128)
        ensures { Puts W.told self.old self.new (9 ∷ amount_cell amount ++ 10 ∷ []) }
    {
        // `fill_amount` leaves the last byte, so the end of the line is already there.
        let mut cell = [b'\n'; 64];
        let start = fill_amount(&mut cell, amount) - 1;
        cell[start] = b'\t';
        self.put(&cell[start..]);
    }

    /// If the outlet has failed, drops the bytes that wait, which are never written; any further bytes then count as put.
    /// Returns whether it has failed; if not, nothing changes.
    pub(crate) fn drop_if_failed(&mut self) -> bool
        ensures dropped { result ≡ true → (bytes : List ℕ) → Puts W.told self.old self.new bytes }
        ensures kept { result ≡ false → self.new ≡ self.old }
    {
        if !self.sender.failed {
            return false;
        }
        self.waiting.clear();
        true
    }
}
