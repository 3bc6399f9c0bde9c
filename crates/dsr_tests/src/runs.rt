//! Running on readers of the tests.
ghost use Rattle.std.specs.Prelude.{◌≡◌, false, All};

use crate::page::Page;
use crate::script::Script;
use dsr_intake::{Options, Status, run};
use dsr_records::Layout;
use std::alloc::Global;
use std::random::RandomSource;
use std::sync::Wait;
use std::thread::Threads;
use std::time::Clock;

/// Options with the standard layout.
pub fn options(capacity: u32, max_reads: u32) -> Options {
    Options {
        capacity,
        max_reads,
        layout: Layout::standard(),
    }
}

/// Whether a run on these readers has this status and writes this statement, flushed once.
pub fn gives<H: Threads + Wait + RandomSource + Clock + Copy + Send + 'static>(
    rt: &H,
    alloc: Global,
    readers: Vec<Script>,
    options: Options,
    status: Status,
    statement: &[u8],
) -> bool
    requires { All (λ r. r.failed ≡ false) readers.items }
{
    let mut readers = readers;
    let mut page = Page::new(alloc);
    let answer = run(rt, alloc, &mut readers, options, &mut page);
    answer == Ok(status) && page.bytes() == statement && page.is_flushed_once()
}
