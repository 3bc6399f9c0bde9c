//! One relay for each file: a bounded channel that sends the file's events from its reader's thread to the collector.
//!
//! 1. [`open_relay`] makes the two ends, and allocates all memory that the relay will ever need (`open`, `memory`). In
//!    contracts a relay has a name (`name`).
//! 2. The [`Feed`] collects the events that it is given in a [`Batch`] of up to 32, and puts it into the channel as one
//!    message; if the channel is full, it waits (`feed`, `batch`, `slots`, `channel`).
//! 3. The [`Tap`] takes the events one by one, or those of a message at once; if there is none, it waits (`tap`).
//! 4. A batch whose events are no longer needed is given back ([`Tap::give_back`]), together with others, by a second
//!    channel whose rule counts them (`way`). The feed writes later events over it. A block is exchanged for an old one
//!    ([`Feed::send_block`]), so that it is not moved and the reader reuses the memory of the old one.
//! 5. [`Tap::take_in`] joins the two ends and returns what was taken and what is left ([`Settled`], in `settled`).
//!
//! **Example**, compiled and proved in `crates/dsr_relay_tests/src/example.rt`:
//!
//! ```
//! /// An example: the end of a file goes from one end of a relay to the other.
//! fn an_end_goes_through(rt: HostRuntime) -> Result<(), Fail> {
//!     let (mut feed, mut tap) = relay(rt.alloc(), 16)?;
//!     let is_sent = send_ended(&rt, &mut feed);
//!     let is_taken = takes_end(&rt, &mut tap, 0) && tap.ended();
//!     let settled = tap.take_in(feed);
//!     assert!(rt; is_sent && is_taken);
//!     assert_eq!(rt; (settled.taken, settled.left), (1, 0));
//!     Ok(())
//! }
//! ```
//!
//! **The promise.** Whatever the schedule of the threads, the events come out once each and in order, and what was
//! taken, followed by what is left, is what was sent. It rests on a rule (`rule`), which the channel keeps at each of
//! its two kinds of step, sending a message and receiving one: the messages that the tap received, followed by those in
//! the channel, are those that the feed sent. No clause says that a thread runs, or that a call which waits returns.
//! [`laws`] has the laws of the relays of all files together, and that of the memory of one relay. Inside, no call drops
//! memory that comes back: the ends count it.
//!
//! **Where to begin.** `specs/layer/Views.antt` has the ends as contracts see them, and
//! `specs/layer/Rule.antt` the rule; then read `feed`, `tap` and `open`.
#![tactic(auto)]

mod batch;
mod channel;
mod feed;
pub mod laws;
mod memory;
mod name;
mod open;
mod rule;
mod settled;
mod slots;
mod tap;
mod way;

pub use batch::Batch;
pub use channel::Closed;
pub use feed::Feed;
pub use name::Name;
pub use open::{RelayError, open_relay};
pub use settled::Settled;
pub use tap::Tap;
