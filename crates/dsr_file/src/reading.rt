//! Reading a file from a source to its end.
ghost use Rattle.std.specs.Prelude.{◌≡◌, [], ◌<◌, ◌≤◌, ◌^◌, false, None, IfOk, OnOk, IfErr};
ghost use Rattle.dsr_io.specs.meaning.Told.{HoldsGiven};
ghost use Rattle.dsr_records.specs.meaning.Records.{LayoutTable};
ghost use Rattle.dsr_file.specs.layer.Runs.{EndsWith};
ghost use Rattle.dsr_file.specs.layer.Sources.{IsRead, IsRefused, IsRefusal, refused_event};
ghost use Rattle.dsr_file.specs.inner.Standing.{Stands, bytes_used, ending_told};

use crate::closed::Closed;
use crate::feeding::{feed, finish_all};
use crate::reader::FileReader;
use crate::sink::Sink;
use dsr_events::{Ending, Event, Outcome};
use dsr_io::Source;
use dsr_records::Layout;
use std::alloc::Global;

/// The maximum number of bytes of a read.
const PIECE: usize = 4096;

/// Why a file was not read to its end.
#[derive(Drop)]
pub enum ReadFileError {
    /// Out of memory for the reader; nothing was read or put.
    Memory,
    /// The sink refused this event. It has those before it.
    Refused(Event),
}

/// Reads a file by a layout and puts its events into an empty sink. Returns the outcome, which was put last.
/// It makes at most `max_reads` reads, each of at most 4,096 bytes, and none after the file has ended.
/// Conditions: `max_reads` is 1 to 2^24, and no read of the source has failed.
///
/// # Errors
///
/// [`ReadFileError`]: out of memory for the reader, or an event that the sink refused.
pub fn read_file<R: Source, S: Sink>(
    alloc: Global,
    layout: &Layout,
    reader: &mut R,
    sink: &mut S,
    max_reads: u32,
) -> Result<Outcome, ReadFileError>
    requires some_reads { 0 < max_reads }
    requires few_reads { max_reads ≤ 2 ^ 24 }
    requires unfailed { (R.told reader.old).failed ≡ false }
    requires empty { S.list sink.old ≡ [] }
    ensures name { S.name sink.new ≡ S.name sink.old }
    ensures outcome { IfOk result (λ outcome. EndsWith (S.list sink.new) outcome) }
    ensures read { OnOk result
        (IsRead layout.now max_reads (R.told reader.old) (R.told reader.new) (S.list sink.new)) }
    ensures refused { IfErr result
        (IsRefusal layout.now max_reads (R.told reader.old) (R.told reader.new) (S.list sink.new)) }
    ensures held { HoldsGiven R.told R.holds reader.old reader.new }
{
    let Ok(mut file) = FileReader::new(alloc, layout) else {
        return Err(ReadFileError::Memory);
    };
    let mut part = file.nothing_closed();
    let answer = read_all(&mut file, &mut part, reader, sink, max_reads);
    drop(part);
    drop(file);
    error_of(answer)
}

/// The same result, with the event that the sink refused as a `ReadFileError`.
fn error_of(answer: Result<Outcome, Event>) -> Result<Outcome, ReadFileError>
    ensures { result ≡ refused_event answer }
{
    match answer {
        Ok(outcome) => Ok(outcome),
        Err(event) => Err(ReadFileError::Refused(event)),
    }
}

/// Reads up to the end, a failed read, the first fault or the limit on reads.
fn read_all<R: Source, S: Sink>(
    file: &mut FileReader,
    part: &mut Closed,
    reader: &mut R,
    sink: &mut S,
    max_reads: u32,
) -> Result<Outcome, Event>
    requires none { part.old ≡ None }
    requires reads { max_reads ≤ 2 ^ 24 }
    requires unfailed { (R.told reader.old).failed ≡ false }
    requires open { ending_told file.old ≡ None }
    requires new { bytes_used file.old ≡ 0 }
    requires empty { S.list sink.old ≡ [] }
    requires known { (layout : LayoutTable) × Stands layout file.old [] (S.list sink.old) }
    ensures name { S.name sink.new ≡ S.name sink.old }
    ensures read { IfOk result (λ outcome. (layout : LayoutTable)
        → Stands layout file.old [] (S.list sink.old) → EndsWith (S.list sink.new) outcome
        × IsRead layout max_reads (R.told reader.old) (R.told reader.new) (S.list sink.new)) }
    ensures refused { IfErr result (λ e. (layout : LayoutTable)
        → Stands layout file.old [] (S.list sink.old)
        → IsRefused layout max_reads (R.told reader.old) (R.told reader.new) (S.list sink.new) e) }
    ensures held { HoldsGiven R.told R.holds reader.old reader.new }
{
    let mut piece = [0u8; PIECE];
    for _ in 0..max_reads {
        match reader.read(&mut piece) {
            Err(_) => return finish_all(file, Ending::Read, sink),
            Ok(0) => return finish_all(file, Ending::Whole, sink),
            Ok(n) => feed(file, part, &piece[..n], sink)?,
        }
        if file.done() {
            return Ok(file.outcome());
        }
    }
    finish_all(file, Ending::Reads, sink)
}
