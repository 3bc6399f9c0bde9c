//! The collector: it takes the events of all files, books them, and closes the books or makes their report.
ghost use Rattle.std.specs.Prelude.{◌≡◌, ◌+◌, ◌<◌, ◌≤◌, ◌↔◌, ◌||◌, ◌++◌, true, false, List, [], length, map, All, OnOk, OnErr, IfOk, IfErr, IfSome, MatchOption, vec_len};
ghost use Rattle.dsr_events.specs.meaning.Orderly.{Placed, is_ended, has_ended};
ghost use Rattle.dsr_events.specs.layer.Orderly.{IsOrderly, MayStandAt};
ghost use Rattle.dsr_ledger.specs.inner.BooksWords.{Stands, files_count, AreClosed};
ghost use Rattle.dsr_ledger.specs.meaning.Reports.{report_of};
ghost use Rattle.dsr_ledger.specs.meaning.Files.{File};
ghost use Rattle.dsr_intake.specs.inner.Collecting.{is_clean_end, IsStopped, with_part, is_opening, first_file, IsGoing, Knows, Changes, IsNext, Opens, IsTapped, IsDrained, IsFollowed, TakesAll, IsStoppedAt, taken_count, HasMore};
ghost use Rattle.dsr_intake.specs.meaning.Texts.{file_of};

use crate::errors::CollectError;
use crate::options::MOST_READERS;
use crate::patience::Patience;
use dsr_cells::NoMemory;
use dsr_file::{Event, EventPart};
use dsr_ledger::{Books, ClosedBooks, Report};
use dsr_relay::{Batch, Closed, Tap};
use std::alloc::Global;
use std::random::RandomSource;
use std::sync::Wait;
use std::time::Clock;

/// The error that the relay of file k, counted from 0, closed early.
fn closed(k: u32) -> CollectError
    requires { k < MOST_READERS }
    ensures { result ≡ CollectError.Closed (k + 1) }
{
    CollectError::Closed(k + 1)
}

/// Books an event of file k after the first.
fn book_part(books: &mut Books, k: u32, part: &EventPart) -> Result<(), NoMemory>
    requires later { is_opening part.now ≡ false }
    requires file { (f : File) × Knows books.old k f × IsGoing f }
    ensures booked { OnOk result ((f : File)
        → Changes books.old books.new k f (with_part f part.now)) }
    ensures clean { OnOk result (is_ended part.now ≡ true → is_clean_end part.now ≡ true) }
    ensures files { files_count books.new ≡ files_count books.old }
{
    match part {
        EventPart::Opened(_) => unreachable!(),
        EventPart::Block(block) => {
            books.book(k, block)?;
            Ok(())
        }
        EventPart::Ended(outcome) => {
            if outcome.is_memory() {
                return Err(NoMemory);
            }
            books.end_file(k, *outcome)
        }
    }
}

/// Books further events of file k.
fn book_events(books: &mut Books, k: u32, events: &[Event]) -> Result<(), NoMemory>
    requires followed { (taken : List Placed) × IsFollowed taken events.now
        × Knows books.old k (file_of taken) }
    ensures booked { OnOk result ((taken : List Placed) → IsFollowed taken events.now
        → TakesAll books.old books.new k taken events.now) }
    ensures files { files_count books.new ≡ files_count books.old }
{
    for event in events {
        book_part(books, k, &event.part)?;
    }
    Ok(())
}

/// Takes a message of a file that has not ended, or the rest of one. If there is none, the call waits for one if `waits` is
/// true, and returns None otherwise.
fn take_batch<H: Wait>(rt: &H, tap: &mut Tap, waits: bool) -> Result<Option<Batch>, Closed>
    requires { has_ended tap.old.taken ≡ false }
    ensures taken { IfOk result (λ r. MatchOption r (tap.new ≡ tap.old)
        (λ b. tap.new ≡ record tap.old { taken = tap.old.taken ++ b; held = [] })) }
    ensures some { IfOk result (λ r. IfSome r (λ b. 0 < length b)) }
    ensures closed { OnErr result (tap.new ≡ tap.old) }
    ensures orderly { IsOrderly tap.new.taken }
{
    if waits {
        Ok(Some(tap.take_batch(rt)?))
    } else {
        Ok(tap.take_ready(rt))
    }
}

/// Takes a message of file k, or the rest of one, and books it, if the file has not ended. If there is none, the call waits
/// for one if `waits` is true. Returns whether a message was taken.
fn go_on<H: Wait>(
    rt: &H,
    books: &mut Books,
    k: u32,
    tap: &mut Tap,
    waits: bool,
) -> Result<bool, CollectError>
    requires tapped { IsTapped tap.old }
    requires number { k < MOST_READERS }
    requires file { Knows books.old k (file_of tap.old.taken) }
    ensures name { tap.new.name ≡ tap.old.name }
    ensures files { files_count books.new ≡ files_count books.old }
    ensures tapped { OnOk result (IsTapped tap.new) }
    ensures booked { OnOk result (Changes books.old books.new k (file_of tap.old.taken)
        (file_of tap.new.taken)) }
    ensures any { IfOk result (λ any. HasMore any (length tap.old.taken) (length tap.new.taken)) }
    ensures stopped { IfErr result (IsStoppedAt k tap.new) }
{
    if tap.ended() {
        return Ok(false);
    }
    let Ok(found) = take_batch(rt, tap, waits) else {
        return Err(closed(k));
    };
    let Some(batch) = found else {
        return Ok(false);
    };
    let answer = book_events(books, k, batch.events());
    tap.give_back(rt, batch);
    match answer {
        Ok(()) => Ok(true),
        Err(NoMemory) => Err(CollectError::Memory),
    }
}

/// Opens file k by its first part.
fn open_part(books: &mut Books, k: u32, part: EventPart) -> Result<(), NoMemory>
    requires first { MayStandAt 0 part }
    requires next { IsNext books.old k }
    ensures opened { OnOk result (Opens books.old books.new k (first_file part)) }
    ensures clean { OnOk result (is_ended part ≡ true → is_clean_end part ≡ true) }
    ensures files { files_count books.new ≡ files_count books.old }
{
    match part {
        EventPart::Opened(opening) => {
            books.open_next(Some(opening))?;
            Ok(())
        }
        EventPart::Block(_) => unreachable!(),
        EventPart::Ended(outcome) => {
            if outcome.is_memory() {
                return Err(NoMemory);
            }
            books.open_next(None)?;
            books.end_file(k, outcome)
        }
    }
}

/// Takes the first event of file k, and opens the file.
fn open_one<H: Wait>(rt: &H, books: &mut Books, k: u32, tap: &mut Tap) -> Result<(), CollectError>
    requires fresh { tap.old.taken ≡ [] }
    requires number { k < MOST_READERS }
    requires next { IsNext books.old k }
    ensures name { tap.new.name ≡ tap.old.name }
    ensures files { files_count books.new ≡ files_count books.old }
    ensures tapped { OnOk result (IsTapped tap.new) }
    ensures opened { OnOk result (Opens books.old books.new k (file_of tap.new.taken)) }
    ensures stopped { IfErr result (IsStoppedAt k tap.new) }
{
    let Ok(event) = tap.take(rt) else {
        return Err(closed(k));
    };
    match open_part(books, k, event.part) {
        Ok(()) => Ok(()),
        Err(NoMemory) => Err(CollectError::Memory),
    }
}

/// Takes the first event of each file, and opens the files in order.
fn open_all<H: Wait>(rt: &H, books: &mut Books, taps: &mut Vec<Tap>) -> Result<(), CollectError>
    requires most { vec_len taps.old ≤ MOST_READERS }
    requires fresh { All (λ t. t.taken ≡ []) taps.old.items }
    requires empty { Stands books.old [] }
    requires files { files_count books.old ≡ vec_len taps.old }
    ensures names { map (λ t. t.name) taps.new.items ≡ map (λ t. t.name) taps.old.items }
    ensures files { files_count books.new ≡ files_count books.old }
    ensures tapped { OnOk result (All IsTapped taps.new.items) }
    ensures stands { OnOk result (Stands books.new (map (λ t. file_of t.taken) taps.new.items)) }
    ensures stopped { IfErr result (IsStopped taps.new.items) }
{
    for k in 0..taps.len() {
        let tap = &mut taps[k];
        open_one(rt, books, k as u32, tap)?;
    }
    Ok(())
}

/// Takes a message of each file that has one. If `waits` is true, the call first waits for a message of the first file that
/// has not ended. Returns whether a message was taken.
fn go_round<H: Wait>(
    rt: &H,
    books: &mut Books,
    taps: &mut Vec<Tap>,
    waits: bool,
) -> Result<bool, CollectError>
    requires most { vec_len taps.old ≤ MOST_READERS }
    requires tapped { All IsTapped taps.old.items }
    requires stands { Stands books.old (map (λ t. file_of t.taken) taps.old.items) }
    ensures names { map (λ t. t.name) taps.new.items ≡ map (λ t. t.name) taps.old.items }
    ensures files { files_count books.new ≡ files_count books.old }
    ensures tapped { OnOk result (All IsTapped taps.new.items) }
    ensures stands { OnOk result (Stands books.new (map (λ t. file_of t.taken) taps.new.items)) }
    ensures any { IfOk result (λ any. HasMore any (taken_count taps.old.items)
        (taken_count taps.new.items)) }
    ensures stopped { IfErr result (IsStopped taps.new.items) }
{
    let mut any = false;
    for k in 0..taps.len() {
        let tap = &mut taps[k];
        let now = either(any, go_on(rt, books, k as u32, tap, waits && !any)?);
        any = now;
    }
    Ok(any)
}

/// Whether one of these is so.
fn either(one: bool, other: bool) -> bool
    ensures { result ≡ (one || other) }
{
    one || other
}

/// Whether every file has ended.
fn have_ended(taps: &Vec<Tap>) -> bool
    ensures { result ≡ true ↔ All (λ t. has_ended t.taken ≡ true) taps.now.items }
{
    for k in 0..taps.len() {
        if !taps[k].ended() {
            return false;
        }
    }
    true
}

/// Takes messages round by round until every file has ended. After rounds without a message it pauses before the next one,
/// and after some of them the next one waits for a message.
fn take_all<H: Wait + Clock>(
    rt: &H,
    books: &mut Books,
    taps: &mut Vec<Tap>,
) -> Result<(), CollectError>
    requires most { vec_len taps.old ≤ MOST_READERS }
    requires tapped { All IsTapped taps.old.items }
    requires stands { Stands books.old (map (λ t. file_of t.taken) taps.old.items) }
    ensures names { map (λ t. t.name) taps.new.items ≡ map (λ t. t.name) taps.old.items }
    ensures files { files_count books.new ≡ files_count books.old }
    ensures tapped { OnOk result (All IsTapped taps.new.items) }
    ensures ended { OnOk result (All (λ t. has_ended t.taken ≡ true) taps.new.items) }
    ensures stands { OnOk result (Stands books.new (map (λ t. file_of t.taken) taps.new.items)) }
    ensures stopped { IfErr result (IsStopped taps.new.items) }
{
    let mut patience = Patience::new();
    for _ in rt.forever() {
        if have_ended(taps) {
            return Ok(());
        }
        patience.pause(rt);
        if go_round(rt, books, taps, patience.has_ended())? {
            patience.note_message();
        } else {
            patience.note_none();
        }
    }
    unreachable!()
}

/// Takes all events of the taps into empty books.
fn book_all<H: Wait + Clock>(
    rt: &H,
    books: &mut Books,
    taps: &mut Vec<Tap>,
) -> Result<(), CollectError>
    requires most { vec_len taps.old ≤ MOST_READERS }
    requires fresh { All (λ t. t.taken ≡ []) taps.old.items }
    requires empty { Stands books.old [] }
    requires files { files_count books.old ≡ vec_len taps.old }
    ensures names { map (λ t. t.name) taps.new.items ≡ map (λ t. t.name) taps.old.items }
    ensures files { files_count books.new ≡ files_count books.old }
    ensures tapped { OnOk result (All IsTapped taps.new.items) }
    ensures ended { OnOk result (All (λ t. has_ended t.taken ≡ true) taps.new.items) }
    ensures stands { OnOk result (Stands books.new (map (λ t. file_of t.taken) taps.new.items)) }
    ensures stopped { IfErr result (IsStopped taps.new.items) }
{
    open_all(rt, books, taps)?;
    take_all(rt, books, taps)
}

/// The seed if there are no random bytes.
const FIXED_SEED: u64 = 0x9E37_79B9_7F4A_7C15;

/// A random seed, so that nobody can choose identifiers and names whose hashes collide. No report depends on it.
fn random_seed<H: RandomSource>(rt: &H) -> u64 {
    let mut bytes = [0u8; 8];
    match rt.fill_bytes(&mut bytes) {
        Ok(()) => u64::from_le_bytes(bytes),
        Err(_) => FIXED_SEED,
    }
}

/// Takes all events of the taps into books of their files, and closes them.
///
/// # Errors
///
/// - `CollectError::Memory`: out of memory for the books, or in the sender of an event.
/// - `CollectError::Closed`: the relay of this tap closed before the file had ended.
pub(crate) fn collect_books<H: Wait + RandomSource + Clock>(
    rt: &H,
    alloc: Global,
    taps: &mut Vec<Tap>,
) -> Result<ClosedBooks, CollectError>
    requires some { 0 < vec_len taps.old }
    requires most { vec_len taps.old ≤ MOST_READERS }
    requires fresh { All (λ t. t.taken ≡ []) taps.old.items }
    ensures names { map (λ t. t.name) taps.new.items ≡ map (λ t. t.name) taps.old.items }
    ensures ended { OnOk result (All IsDrained taps.new.items) }
    ensures books { IfOk result (λ books. AreClosed books
        (map (λ t. file_of t.taken) taps.new.items)) }
    ensures stopped { IfErr result (IsStopped taps.new.items) }
{
    let Ok(mut books) = Books::with_seed(alloc, taps.len() as u32, random_seed(rt)) else {
        return Err(CollectError::Memory);
    };
    if let Err(error) = book_all(rt, &mut books, taps) {
        drop(books);
        return Err(error);
    }
    match books.close() {
        Ok(books) => Ok(books),
        Err(NoMemory) => Err(CollectError::Memory),
    }
}

/// Takes all events of the taps, and makes the report of their files.
///
/// # Errors
///
/// - `CollectError::Memory`: out of memory for the books or the report, or in the sender of an event.
/// - `CollectError::Closed`: the relay of this tap closed before the file had ended.
pub fn collect<H: Wait + RandomSource + Clock>(
    rt: &H,
    alloc: Global,
    taps: &mut Vec<Tap>,
) -> Result<Report, CollectError>
    requires some { 0 < vec_len taps.old }
    requires most { vec_len taps.old ≤ MOST_READERS }
    requires fresh { All (λ t. t.taken ≡ []) taps.old.items }
    ensures names { map (λ t. t.name) taps.new.items ≡ map (λ t. t.name) taps.old.items }
    ensures ended { OnOk result (All IsDrained taps.new.items) }
    ensures report { IfOk result (λ r. r ≡ report_of (map (λ t. file_of t.taken) taps.new.items)) }
    ensures stopped { IfErr result (IsStopped taps.new.items) }
{
    let books = collect_books(rt, alloc, taps)?;
    match books.into_report() {
        Ok(report) => Ok(report),
        Err(NoMemory) => Err(CollectError::Memory),
    }
}
