//! The example of dsr_relay.
use crate::sending::{relay, send_ended};
use crate::taking::takes_end;
use std::test::Fail;

/// An example: the end of a file goes from one end of a relay to the other.
#[test]
fn an_end_goes_through(rt: HostRuntime) -> Result<(), Fail> {
    let (mut feed, mut tap) = relay(rt.alloc(), 16)?;
    let is_sent = send_ended(&rt, &mut feed);
    let is_taken = takes_end(&rt, &mut tap, 0) && tap.ended();
    let settled = tap.take_in(feed);
    assert!(rt; is_sent && is_taken);
    assert_eq!(rt; (settled.taken, settled.left), (1, 0));
    Ok(())
}
