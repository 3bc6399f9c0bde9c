//! The collector, and a sink, over relays that the test itself feeds.
ghost use Rattle.std.specs.Prelude.{◌≡◌, [], IfOk};

use crate::texts::{FIRST_OF_TWO, SECOND_OF_TWO, TWO_STATEMENT};
use dsr_file::{Event, FromRead, Sink, read_file};
use dsr_intake::{CollectError, FeedSink, collect, statement};
use dsr_ledger::Report;
use dsr_records::Layout;
use dsr_relay::{Feed, Name, Tap, open_relay};
use std::alloc::{AllocError, Global};
use std::random::RandomSource;
use std::sync::Wait;
use std::thread;
use std::thread::{JoinHandle, Threads};
use std::time::Clock;

/// A sink that sends a number of events, and then refuses the next ones.
#[derive(Drop)]
struct Limited<'a, H> {
    sink: FeedSink<'a, H>,
    left: u32,
}

impl<'a, H: Wait> Sink for Limited<'a, H> {
    type Name = Name;

    ghost list = { λ s. s.sink.sent };

    ghost name = { λ s. s.sink.name };

    fn put(&mut self, event: Event) -> Result<(), Event> {
        if self.left == 0 {
            return Err(event);
        }
        self.left -= 1;
        self.sink.put(event)
    }
}

/// Puts the events of a text into a sink, as far as it takes them.
fn put_text<H: Wait>(alloc: Global, text: &'static [u8], sink: &mut Limited<'_, H>)
    requires { sink.old.sink.sent ≡ [] }
{
    let layout = Layout::standard();
    let mut reader = FromRead::new(text);
    let answer = read_file(alloc, &layout, &mut reader, sink, 100);
    drop(layout);
    drop(answer);
}

/// Sends at most `most` events of a text, and closes the relay.
fn send_text<H: Wait>(rt: &H, alloc: Global, text: &'static [u8], most: u32, feed: Feed)
    requires { feed.sent ≡ [] }
{
    let mut sink = Limited {
        sink: FeedSink::new(rt, feed),
        left: most,
    };
    put_text(alloc, text, &mut sink);
    let mut feed = sink.sink.into_feed();
    let _ = feed.flush(rt);
    drop(feed);
}

/// The two ends of a relay of one message.
fn open(alloc: Global) -> Result<(Feed, Tap), AllocError>
    ensures sent { IfOk result (λ ends. ends.0.sent ≡ []) }
    ensures taken { IfOk result (λ ends. ends.1.taken ≡ []) }
{
    match open_relay(alloc, 1) {
        Ok(ends) => Ok(ends),
        Err(_) => Err(AllocError),
    }
}

/// Starts a thread that sends at most `most` events of a text. Returns it with the tap of its relay.
fn start<H: Threads + Wait + Copy + Send + 'static>(
    rt: &H,
    alloc: Global,
    text: &'static [u8],
    most: u32,
) -> Result<(JoinHandle<()>, Tap), AllocError>
    ensures taken { IfOk result (λ started. started.1.taken ≡ []) }
{
    let (feed, tap) = open(alloc)?;
    let own = *rt;
    match thread::spawn(rt, move || send_text(&own, alloc, text, most, feed)) {
        Ok(sender) => Ok((sender, tap)),
        Err(_) => {
            drop(tap);
            Err(AllocError)
        }
    }
}

/// What is collected of two files, where the second thread sends a number of events, and whether
/// both taps have ended.
fn collected<H: Threads + Wait + RandomSource + Clock + Copy + Send + 'static>(
    rt: &H,
    alloc: Global,
    most: u32,
) -> Result<(Result<Report, CollectError>, bool), AllocError> {
    let (first, first_tap) = start(rt, alloc, FIRST_OF_TWO, u32::MAX)?;
    let (second, second_tap) = start(rt, alloc, SECOND_OF_TWO, most)?;
    let mut taps = vec![in alloc; first_tap, second_tap]?;
    let answer = collect(rt, alloc, &mut taps);
    let ended = taps.iter().all(|tap| tap.ended());
    drop(taps);
    first.join(rt);
    second.join(rt);
    Ok((answer, ended))
}

/// Whether this is the statement of a report.
fn is_statement_of(alloc: Global, report: &Report, expected: &[u8]) -> bool {
    match statement(alloc, report) {
        Ok(written) => written.as_slice() == expected,
        Err(_) => false,
    }
}

#[test]
fn two_relays_are_collected(rt: HostRuntime) -> Result<(), AllocError> {
    let alloc = rt.alloc();
    let (answer, ended) = collected(&rt, alloc, u32::MAX)?;
    let is_right = match &answer {
        Ok(report) => is_statement_of(alloc, report, TWO_STATEMENT),
        Err(_) => false,
    };
    drop(answer);
    assert!(rt; ended);
    assert!(rt; is_right);
    Ok(())
}

#[test]
fn a_relay_that_closes_early(rt: HostRuntime) -> Result<(), AllocError> {
    let alloc = rt.alloc();
    let (answer, ended) = collected(&rt, alloc, 1)?;
    let is_closed = matches!(&answer, Err(CollectError::Closed(2)));
    drop(answer);
    assert!(rt; !ended);
    assert!(rt; is_closed);
    Ok(())
}

/// Takes the batch that is there, if one is, and gives it back. Returns the number of its events.
fn takes_ready<H: Wait>(rt: &H, tap: &mut Tap) -> usize {
    if tap.ended() {
        return 0;
    }
    let Some(batch) = tap.take_ready(rt) else {
        return 0;
    };
    let count = batch.events().len();
    tap.give_back(rt, batch);
    count
}

/// Puts the opening of a file into a sink, and notes 64 kB and then one byte more. Returns how many events are sent after
/// each of these.
fn sent_by_bytes<H: Wait>(rt: &H, alloc: Global) -> Result<[usize; 3], AllocError> {
    let (feed, mut tap) = open(alloc)?;
    let mut sink = Limited {
        sink: FeedSink::new(rt, feed),
        left: 1,
    };
    put_text(alloc, FIRST_OF_TWO, &mut sink);
    let opened = takes_ready(rt, &mut tap);
    sink.sink.note_bytes(64 * 1024);
    let noted = takes_ready(rt, &mut tap);
    sink.sink.note_bytes(1);
    let more = takes_ready(rt, &mut tap);
    drop(sink);
    drop(tap);
    Ok([opened, noted, more])
}

#[test]
fn a_batch_is_sent_by_its_bytes(rt: HostRuntime) -> Result<(), AllocError> {
    assert_eq!(rt; sent_by_bytes(&rt, rt.alloc())?, [0, 0, 1]);
    Ok(())
}
