//! What a flush of an outlet does to its writer. The contract says that the outlet counts it; here it reaches the writer.
use dsr_io::{Outlet, ToWrite, write_all};
use std::alloc::Global;
use std::io::BufWriter;

/// How many bytes a writer with a buffer has passed on after six were written to an outlet over it, and after a flush if it is
/// asked for; None if one of these fails.
fn passed_on(alloc: Global, flushes: bool) -> Option<usize> {
    let Ok(writer) = BufWriter::new(alloc, Vec::<u8>::new(alloc)) else {
        return None;
    };
    let mut out = ToWrite::new(writer);
    let mut is_done = write_all(&mut out, b"REPORT").is_ok();
    if flushes {
        is_done = out.flush().is_ok() && is_done;
    }
    let writer = out.into_writer();
    let count = writer.get_ref().len();
    drop(writer);
    if is_done { Some(count) } else { None }
}

#[test]
fn a_flush_reaches_the_writer(rt: HostRuntime) {
    let alloc: Global = rt.alloc();
    assert_eq!(rt;
        (passed_on(alloc, false), passed_on(alloc, true)),
        (Some(0), Some(6))
    );
}
