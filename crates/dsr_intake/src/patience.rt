//! How long the collector looks for messages before it naps, and when it waits for one.
//!
//! The next message mostly comes within microseconds, so the collector looks for one again and again first. A collector that
//! then waited would be woken by the thread of a reader, which has to call the system for that; with one file, whose reader is
//! slower than the collector, it would be so for most messages and take a tenth of the reader's time. So the collector naps
//! instead: several messages come during a nap, and nobody has to wake it. Only where several naps are in vain, since a reader
//! is slow or its pipe gives nothing, it waits.
use std::hint::spin_loop;
use std::thread::sleep;
use std::time::{Clock, Duration};

/// The rounds without a message before the first nap: about 15 microseconds with one file, and 35 with eight.
const MOST_ROUNDS: u32 = 200;

/// The naps without a message before the collector waits.
const MOST_NAPS: u32 = 8;

/// The length of a nap in microseconds. The system mostly makes it about twice as long.
const NAP: u64 = 50;

/// Counts the rounds and the naps of the collector.
#[derive(Clone, Copy)]
pub(crate) struct Patience {
    /// The rounds since the last message.
    rounds: u32,
}

impl Patience {
    /// No rounds and no naps.
    pub(crate) fn new() -> Patience {
        Patience { rounds: 0 }
    }

    /// Whether the next round waits for a message.
    pub(crate) fn has_ended(&self) -> bool {
        self.rounds >= MOST_ROUNDS + MOST_NAPS
    }

    /// Pauses before the next round: an instant after each of the first rounds without a message, and then a nap. There is no
    /// pause after a message, and none before a round that waits.
    pub(crate) fn pause<H: Clock>(&self, rt: &H) {
        if self.rounds == 0 || self.has_ended() {
            return;
        }
        if self.rounds < MOST_ROUNDS {
            spin_loop();
        } else {
            sleep(rt, Duration::from_micros(NAP));
        }
    }

    /// Notes a round without a message.
    pub(crate) fn note_none(&mut self) {
        self.rounds = self.rounds.saturating_add(1);
    }

    /// Notes a round with a message.
    pub(crate) fn note_message(&mut self) {
        self.rounds = 0;
    }
}
