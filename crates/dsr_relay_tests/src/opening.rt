//! Making a relay. checks/refusals refuses each allocation in turn.
use dsr_relay::{RelayError, open_relay};
use std::alloc::Global;

/// Whether a relay of so many messages is made; None if memory is refused.
fn opens(alloc: Global, capacity: u32) -> Option<bool> {
    match open_relay(alloc, capacity) {
        Ok((feed, tap)) => {
            let is_empty = feed.sent_count() == 0 && tap.held() == 0 && !tap.ended();
            drop(feed);
            drop(tap);
            Some(is_empty)
        }
        Err(RelayError::Memory) => None,
        Err(RelayError::Capacity) => Some(false),
    }
}

/// A relay is made, also if it is asked for again since memory was refused.
#[test]
fn a_relay_opens_or_no_memory(rt: HostRuntime) {
    let alloc: Global = rt.alloc();
    for capacity in [1, 16, 1024] {
        let answer = match opens(alloc, capacity) {
            Some(is_right) => Some(is_right),
            None => opens(alloc, capacity),
        };
        assert!(rt; answer == Some(true));
    }
}
