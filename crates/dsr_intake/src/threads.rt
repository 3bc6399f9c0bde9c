//! The threads, each of which reads a file and sends its events.
ghost use Rattle.std.specs.Prelude.{◌≡◌, ◌≢◌, ◌<◌, ◌≤◌, ◌↔◌, true, false, not, List, [], ◌++◌, All, Err, IfOk, IfErr};
ghost use Rattle.dsr_events.specs.declared.event.EventPart.TheVariants as part;
ghost use Rattle.dsr_events.specs.declared.fault.FileFault.TheVariants as fault;
ghost use Rattle.dsr_events.specs.declared.fault.Outcome.TheVariants as outcome;
ghost use Rattle.dsr_events.specs.meaning.Orderly.{Placed, has_ended};
ghost use Rattle.dsr_events.specs.layer.Orderly.{IsOrderly};
ghost use Rattle.dsr_io.specs.meaning.Told.{HoldsGiven};
ghost use Rattle.dsr_intake.specs.inner.Collecting.{ends_clean, was_refused_memory, IsGiven};

use crate::errors::IntakeError;
use crate::feed_sink::FeedSink;
use crate::options::{MOST_READS, Options};
use dsr_file::{Event, EventPart, FileFault, Outcome, ReadFileError, Source, read_file};
use dsr_relay::{Feed, Tap};
use std::alloc::Global;
use std::snapshot::Snapshot;
use std::sync::Wait;
use std::thread;
use std::thread::{Promise, PromisedHandle, Threads};

/// What a thread returns: its reader, its feed, and whether memory was refused.
#[derive(Drop)]
pub(crate) struct Finished<R> {
    reader: R,
    feed: Feed,
    memory: bool,
}

/// What a thread was given.
#[derive(Drop)]
pub(crate) struct Reading<R> {
    reader: Snapshot<R>,
    feed: Snapshot<Feed>,
    options: Snapshot<Options>,
}

impl<R: Source> Promise<Finished<R>> for Reading<R> {
    ghost kept_by = { λ p r. (r.feed.name ≡ p.feed.value.name)
        × IsGiven p.options.value (R.told p.reader.value) (R.told r.reader) r.feed.sent
        × HoldsGiven R.told R.holds p.reader.value r.reader };
}

/// A thread that reads a file.
pub(crate) type Thread<R> = PromisedHandle<Finished<R>, Reading<R>>;

/// Whether memory was refused for one of these.
pub(crate) fn wanted_memory<R>(finished: &Vec<Finished<R>>) -> bool
    ensures { result ≡ false ↔ All (λ f. f.memory ≡ false) finished.now.items }
{
    for k in 0..finished.len() {
        if finished[k].memory {
            return true;
        }
    }
    false
}

impl<R> Finished<R> {
    /// Joins the two ends of the relay, and returns the reader.
    pub(crate) fn settle(self, tap: Tap) -> R
        requires { tap.name ≡ self.feed.name }
        ensures reader { result ≡ self.reader }
        ensures sent { (left : List Placed) × (self.feed.sent ≡ tap.taken ++ left) }
        ensures orderly { IsOrderly self.feed.sent }
    {
        let Finished {
            reader,
            feed,
            memory: _,
        } = self;
        tap.take_in(feed);
        reader
    }
}

/// Reads a file and sends its events. In every case either Ended was sent or the tap is gone, so
/// that neither end waits for more.
fn read_and_send<R: Source, H: Wait>(
    rt: &H,
    alloc: Global,
    reader: R,
    feed: Feed,
    options: Options,
) -> Finished<R>
    requires some_reads { 0 < options.max_reads }
    requires reads { options.max_reads ≤ MOST_READS }
    requires unfailed { (R.told reader).failed ≡ false }
    requires empty { feed.sent ≡ [] }
    ensures name { result.feed.name ≡ feed.name }
    ensures given { IsGiven options (R.told reader) (R.told result.reader) result.feed.sent }
    ensures memory { has_ended result.feed.sent ≡ true
        → result.memory ≡ not (ends_clean result.feed.sent) }
    ensures held { HoldsGiven R.told R.holds reader result.reader }
{
    let mut reader = reader;
    let mut sink = FeedSink::new(rt, feed);
    let answer = read_file(
        alloc,
        &options.layout,
        &mut reader,
        &mut sink,
        options.max_reads,
    );
    let mut feed = sink.into_feed();
    let memory = wants_memory(&answer);
    send_end(rt, &mut feed, &answer);
    drop(answer);
    Finished {
        reader,
        feed,
        memory,
    }
}

/// Whether memory was refused while the file was read.
fn wants_memory(answer: &Result<Outcome, ReadFileError>) -> bool
    ensures { result ≡ was_refused_memory answer.now }
{
    match answer {
        Ok(outcome) => outcome.is_memory(),
        Err(ReadFileError::Memory) => true,
        Err(ReadFileError::Refused(_)) => false,
    }
}

/// Sends the end of the file if memory was refused for its reader, which then put no event.
fn send_end<H: Wait>(rt: &H, feed: &mut Feed, answer: &Result<Outcome, ReadFileError>)
    requires { answer.now ≡ Err ReadFileError.Memory → feed.old.sent ≡ [] }
    ensures name { feed.new.name ≡ feed.old.name }
    ensures memory { answer.now ≡ Err ReadFileError.Memory → ends_clean feed.new.sent ≡ false }
    ensures other { answer.now ≢ Err ReadFileError.Memory → feed.new ≡ feed.old }
{
    match answer {
        Err(ReadFileError::Memory) => send_memory(rt, feed),
        _ => {}
    }
}

/// The end of a file of which nothing was read, since memory was refused.
fn memory_end() -> Event
    ensures { result ≡ record { place = 0; part = part.Ended (outcome.Fault 1 fault.Memory) } }
{
    let outcome = Outcome::Fault {
        line: 1,
        fault: FileFault::Memory,
    };
    Event {
        place: 0,
        part: EventPart::Ended(outcome),
    }
}

/// Sends the end of a file of which nothing was read, since memory was refused. If the tap is gone, nothing is sent.
fn send_memory<H: Wait>(rt: &H, feed: &mut Feed)
    requires { feed.old.sent ≡ [] }
    ensures name { feed.new.name ≡ feed.old.name }
    ensures unclean { ends_clean feed.new.sent ≡ false }
{
    drop(feed.send(rt, memory_end()));
}

/// Starts the thread that reads a file.
pub(crate) fn start<R: Source + Send + Drop + 'static, H: Threads + Wait + Copy + Send + 'static>(
    rt: &H,
    alloc: Global,
    reader: R,
    feed: Feed,
    options: &Options,
) -> Result<Thread<R>, IntakeError>
    requires some_reads { 0 < options.now.max_reads }
    requires reads { options.now.max_reads ≤ MOST_READS }
    requires unfailed { (R.told reader).failed ≡ false }
    requires empty { feed.sent ≡ [] }
    ensures cause { IfErr result (λ e. e ≡ IntakeError.Thread) }
    ensures promise { IfOk result (λ h. (h.promise.reader.value ≡ reader)
        × (h.promise.feed.value ≡ feed) × (h.promise.options.value ≡ options.now)) }
{
    let promise = Reading {
        reader: Snapshot::of(&reader),
        feed: Snapshot::of(&feed),
        options: Snapshot::of(options),
    };
    let own_rt = *rt;
    let own_options = options.copy();
    match thread::spawn_with(
        rt,
        promise,
        move || read_and_send(&own_rt, alloc, reader, feed, own_options),
    ) {
        Ok(child) => Ok(child),
        Err(_) => Err(IntakeError::Thread),
    }
}
