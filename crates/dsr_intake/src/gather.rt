//! Reading the files of a report concurrently.
ghost use Rattle.std.specs.Prelude.{◌≡◌, ◌<◌, ◌≤◌, false, List, [], map, All, IfOk, OnOk, IfErr, Err, MatchOption, vec_len, vec_capacity};
ghost use Rattle.dsr_file.specs.meaning.Runs.{FileText, events_of_text};
ghost use Rattle.dsr_ledger.specs.inner.BooksWords.{AreClosed};
ghost use Rattle.dsr_intake.specs.inner.Collecting.{IsDrained, AreBooksOf, AreReady, IsStartError, IsCause, first_error, intake_error_of};
ghost use Rattle.dsr_intake.specs.meaning.Texts.{GaveEach, HoldEach, file_of, refusal_of, IsLate};
ghost use Rattle.dsr_intake.specs.layer.Outcomes.{IsReportOf};

use crate::collector::collect_books;
use crate::errors::{CollectError, IntakeError};
use crate::options::{MOST_MESSAGES, Options, refusal};
use crate::threads::{Finished, Thread, start, wanted_memory};
use dsr_cells::NoMemory;
use dsr_file::Source;
use dsr_ledger::{ClosedBooks, Report};
use dsr_relay::{Feed, RelayError, Tap, open_relay};
use std::alloc::Global;
use std::random::RandomSource;
use std::sync::Wait;
use std::thread::Threads;
use std::time::Clock;

/// Opens a relay for each reader, and starts its thread.
fn start_all<R: Source + Send + Drop + 'static, H: Threads + Wait + Copy + Send + 'static>(
    rt: &H,
    alloc: Global,
    readers: Vec<R>,
    options: &Options,
    threads: &mut Vec<Thread<R>>,
    taps: &mut Vec<Tap>,
) -> Result<(), IntakeError>
    requires ready { AreReady R.told options.now readers.items }
    requires no_threads { threads.old.items ≡ [] }
    requires no_taps { taps.old.items ≡ [] }
    requires room { vec_len readers ≤ vec_capacity threads.old }
    ensures readers { OnOk result (map (λ h. h.promise.reader.value) threads.new.items
        ≡ readers.items) }
    ensures names { OnOk result (map (λ h. h.promise.feed.value.name) threads.new.items
        ≡ map (λ t. t.name) taps.new.items) }
    ensures terms { OnOk result (All (λ h. h.promise.options.value ≡ options.now)
        threads.new.items) }
    ensures fresh { OnOk result (All (λ t. t.taken ≡ []) taps.new.items) }
    ensures few { vec_len threads.new ≤ vec_len readers }
    ensures cause { IfErr result IsStartError }
{
    for reader in readers {
        let (feed, tap) = open(alloc, options.capacity)?;
        let Ok(()) = taps.push(tap) else {
            return Err(IntakeError::Memory);
        };
        let thread = start(rt, alloc, reader, feed, options)?;
        let Ok(()) = threads.push(thread) else {
            unreachable!()
        };
    }
    Ok(())
}

/// Opens the relay of a file.
fn open(alloc: Global, capacity: u32) -> Result<(Feed, Tap), IntakeError>
    requires some { 0 < capacity }
    requires most { capacity ≤ MOST_MESSAGES }
    ensures ends { IfOk result (λ r. (r.0.name ≡ r.1.name) × (r.0.sent ≡ []) × (r.1.taken ≡ [])) }
    ensures cause { IfErr result (λ e. e ≡ IntakeError.Memory) }
{
    match open_relay(alloc, capacity) {
        Ok(ends) => Ok(ends),
        Err(RelayError::Capacity) => Err(IntakeError::Capacity),
        Err(RelayError::Memory) => Err(IntakeError::Memory),
    }
}

/// Joins the threads once all events have been taken, and returns their readers in `readers`.
fn settle_all<R: Source + Send + Drop + 'static, H: Threads + Wait>(
    rt: &H,
    threads: Vec<Thread<R>>,
    taps: Vec<Tap>,
    readers: &mut Vec<R>,
    options: &Options,
)
    requires names { map (λ h. h.promise.feed.value.name) threads.items
        ≡ map (λ t. t.name) taps.items }
    requires terms { All (λ h. h.promise.options.value ≡ options.now) threads.items }
    requires ended { All IsDrained taps.items }
    requires empty { readers.old.items ≡ [] }
    requires room { vec_len threads ≤ vec_capacity readers.old }
    ensures texts { (texts : List FileText)
        × GaveEach R.told options.now (map (λ h. h.promise.reader.value) threads.items)
        readers.new.items texts
        × (map (λ t. t.taken) taps.items ≡ map (events_of_text options.now.layout) texts) }
    ensures held { HoldEach R.told R.holds (map (λ h. h.promise.reader.value) threads.items)
        readers.new.items }
{
    let mut taps = taps.into_iter();
    for thread in threads {
        let finished = thread.join(rt);
        let Some(tap) = taps.next() else {
            unreachable!()
        };
        let reader = finished.settle(tap);
        let Ok(()) = readers.push(reader) else {
            unreachable!()
        };
    }
}

/// Joins the threads, and keeps what each of them returned.
fn join_all<R: Source + Send + Drop + 'static, H: Threads>(
    rt: &H,
    threads: Vec<Thread<R>>,
    finished: &mut Vec<Finished<R>>,
)
    requires empty { finished.old.items ≡ [] }
    requires room { vec_len threads ≤ vec_capacity finished.old }
    ensures { map (λ f. f.feed.name) finished.new.items
        ≡ map (λ h. h.promise.feed.value.name) threads.items }
{
    for thread in threads {
        let done = thread.join(rt);
        let Ok(()) = finished.push(done) else {
            unreachable!()
        };
    }
}

/// Starts the threads, and collects what they send.
fn start_and_collect<
    R: Source + Send + Drop + 'static,
    H: Threads + Wait + RandomSource + Clock + Copy + Send + 'static,
>(
    rt: &H,
    alloc: Global,
    readers: Vec<R>,
    options: &Options,
    threads: &mut Vec<Thread<R>>,
    taps: &mut Vec<Tap>,
) -> Result<ClosedBooks, IntakeError>
    requires ready { AreReady R.told options.now readers.items }
    requires no_threads { threads.old.items ≡ [] }
    requires no_taps { taps.old.items ≡ [] }
    requires room { vec_len readers ≤ vec_capacity threads.old }
    ensures readers { OnOk result (map (λ h. h.promise.reader.value) threads.new.items
        ≡ readers.items) }
    ensures names { OnOk result (map (λ h. h.promise.feed.value.name) threads.new.items
        ≡ map (λ t. t.name) taps.new.items) }
    ensures terms { OnOk result (All (λ h. h.promise.options.value ≡ options.now)
        threads.new.items) }
    ensures ended { OnOk result (All IsDrained taps.new.items) }
    ensures books { IfOk result (λ books. AreClosed books
        (map (λ t. file_of t.taken) taps.new.items)) }
    ensures few { vec_len threads.new ≤ vec_len readers }
    ensures cause { IfErr result (IsCause taps.new.items) }
{
    start_all(rt, alloc, readers, options, threads, taps)?;
    match collect_books(rt, alloc, taps) {
        Ok(books) => Ok(books),
        Err(error) => Err(collect_error(error)),
    }
}

/// Reads the files by threads, joins these, and returns closed books. The options and the number of readers are in range.
fn gather<
    R: Source + Send + Drop + 'static,
    H: Threads + Wait + RandomSource + Clock + Copy + Send + 'static,
>(
    rt: &H,
    alloc: Global,
    readers: &mut Vec<R>,
    options: &Options,
) -> Result<ClosedBooks, IntakeError>
    requires ready { AreReady R.told options.now readers.old.items }
    ensures books { IfOk result (AreBooksOf R.told options.now readers.old.items
        readers.new.items) }
    ensures held { OnOk result
        (HoldEach R.told R.holds readers.old.items readers.new.items) }
    ensures late { IfErr result IsLate }
{
    let count = readers.len();
    let mut threads = with_room(alloc, count)?;
    let mut taps = with_room(alloc, count)?;
    let mut finished = with_room(alloc, count)?;
    let given = std::mem::replace(readers, with_room(alloc, count)?);
    match start_and_collect(rt, alloc, given, options, &mut threads, &mut taps) {
        Ok(books) => {
            settle_all(rt, threads, taps, readers, options);
            Ok(books)
        }
        Err(error) => {
            // Without the taps no thread waits for room in its relay, so all of them end.
            drop(taps);
            join_all(rt, threads, &mut finished);
            Err(first_error(error, wanted_memory(&finished)))
        }
    }
}

/// An empty list with room for this many items.
fn with_room<T>(alloc: Global, count: usize) -> Result<Vec<T>, IntakeError>
    ensures empty { IfOk result (λ v. v.items ≡ []) }
    ensures room { IfOk result (λ v. count ≤ vec_capacity v) }
    ensures cause { IfErr result (λ e. e ≡ IntakeError.Memory) }
    ensures late { IfErr result IsLate }
{
    match Vec::with_capacity(alloc, count) {
        Ok(v) => Ok(v),
        Err(_) => Err(IntakeError::Memory),
    }
}

/// The error of an intake whose collector stopped.
fn collect_error(error: CollectError) -> IntakeError
    ensures same { result ≡ intake_error_of error }
    ensures late { IsLate result }
{
    match error {
        CollectError::Memory => IntakeError::Memory,
        CollectError::Closed(k) => IntakeError::Broken(k),
    }
}

/// The error of an intake that stopped with this one: Memory comes first, if a thread was refused some.
fn first_error(error: IntakeError, memory: bool) -> IntakeError
    ensures same { result ≡ first_error error memory }
    ensures late { IsLate error → IsLate result }
{
    if memory { IntakeError::Memory } else { error }
}

/// Reads the files concurrently, with a thread for each, and returns closed books of them.
///
/// # Errors
///
/// `NoFiles`, `TooManyFiles`, `Capacity` and `Reads`, the first that applies: the readers are unchanged.
/// `Memory`, `Thread` and `Broken`: found later; the readers may be dropped.
pub(crate) fn read_books<
    R: Source + Send + Drop + 'static,
    H: Threads + Wait + RandomSource + Clock + Copy + Send + 'static,
>(
    rt: &H,
    alloc: Global,
    readers: &mut Vec<R>,
    options: &Options,
) -> Result<ClosedBooks, IntakeError>
    requires { All (λ r. (R.told r).failed ≡ false) readers.old.items }
    ensures books { IfOk result (AreBooksOf R.told options.now readers.old.items
        readers.new.items) }
    ensures held { OnOk result
        (HoldEach R.told R.holds readers.old.items readers.new.items) }
    ensures refused { MatchOption (refusal_of (vec_len readers.old) options.now)
        (IfErr result IsLate) (λ e. (result ≡ Err e) × (readers.new ≡ readers.old)) }
{
    if let Some(error) = refusal(readers.len(), options) {
        return Err(error);
    }
    gather(rt, alloc, readers, options)
}

/// Reads the files concurrently, with a thread for each, and returns their report.
///
/// # Errors
///
/// `NoFiles`, `TooManyFiles`, `Capacity` and `Reads`, the first that applies: the readers are unchanged.
/// `Memory`, `Thread` and `Broken`: found later; the readers may be dropped.
pub fn intake<
    R: Source + Send + Drop + 'static,
    H: Threads + Wait + RandomSource + Clock + Copy + Send + 'static,
>(rt: &H, alloc: Global, readers: &mut Vec<R>, options: Options) -> Result<Report, IntakeError>
    requires { All (λ r. (R.told r).failed ≡ false) readers.old.items }
    ensures report { IfOk result (IsReportOf R.told options readers.old.items readers.new.items) }
    ensures refused { MatchOption (refusal_of (vec_len readers.old) options) (IfErr result IsLate)
        (λ e. (result ≡ Err e) × (readers.new ≡ readers.old)) }
{
    let books = read_books(rt, alloc, readers, &options)?;
    match books.into_report() {
        Ok(report) => Ok(report),
        Err(NoMemory) => Err(IntakeError::Memory),
    }
}
