//! Tests of dsr_relay, with relays at work: refusals, returned events, closed ends, full channels, and threads.
//!
//! 1. `example`: the one that the lib.rt of dsr_relay shows.
//! 2. `events` makes the events that go through a relay, `sending` sends them, and `taking` takes them.
//! 3. `batches`: batches that one thread sends and takes, also a full channel. `ends`: what a call returns once the other
//!    end is gone. `reuse`: blocks that are exchanged for stale ones.
//! 4. `passing`: a file that goes from one thread to another. `memory`, where allocations are refused, and `threads` let it
//!    go through relays of their own.
//! 5. `opening`: relays that are made again if memory is refused.
#![tactic(auto)]

#[cfg(test)]
mod batches;
#[cfg(test)]
mod ends;
#[cfg(test)]
mod events;
#[cfg(test)]
mod example;
#[cfg(test)]
mod memory;
#[cfg(test)]
mod opening;
#[cfg(test)]
mod passing;
#[cfg(test)]
mod reuse;
#[cfg(test)]
mod sending;
#[cfg(test)]
mod taking;
#[cfg(test)]
mod threads;
