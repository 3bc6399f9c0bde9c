//! Feeding bytes to a reader, and its events to a sink.
ghost use Rattle.std.specs.Prelude.{◌≡◌, ◌++◌, ◌∷◌, [], ◌+◌, ◌≤◌, ◌^◌, length, None, OnOk, IfOk, IfErr, IfSome};
ghost use mathlib.Core.List.{IsPrefix};
ghost use Rattle.dsr_file.specs.inner.Standing.{bytes_used, ending_told};
ghost use Rattle.dsr_file.specs.inner.ReaderSteps.{IsKnown, Feeds, FeedsSome, Finishes, FinishesSome};

use crate::closed::Closed;
use crate::reader::FileReader;
use crate::sink::Sink;
use dsr_events::{Ending, Event, Outcome};

/// Gives a piece to a reader and its events to a sink, and notes the length of the piece in the sink.
pub(crate) fn feed<S: Sink>(
    file: &mut FileReader,
    part: &mut Closed,
    piece: &[u8],
    sink: &mut S,
) -> Result<(), Event>
    requires none { part.old ≡ None }
    requires open { ending_told file.old ≡ None }
    requires room { bytes_used file.old + length piece.now ≤ 2 ^ 36 }
    requires known { IsKnown file.old (S.list sink.old) }
    ensures open { ending_told file.new ≡ None }
    ensures none { part.new ≡ None }
    ensures used { OnOk result (bytes_used file.new ≤ bytes_used file.old + length piece.now) }
    ensures name { S.name sink.new ≡ S.name sink.old }
    ensures grows { IsPrefix (S.list sink.old) (S.list sink.new) }
    ensures fed { OnOk result
        (Feeds file.old file.new piece.now (S.list sink.old) (S.list sink.new)) }
    ensures refused { IfErr result (λ e.
        FeedsSome file.old piece.now (S.list sink.old) (S.list sink.new ++ e ∷ [])) }
{
    let mut used = 0;
    loop {
        let place = file.place();
        used += file.take_part(&piece[used..], part);
        if !part.is_some() {
            sink.note_bytes(piece.len());
            return Ok(());
        }
        if part.exchange_into(place, sink) {
            continue;
        }
        part.put_into(place, sink)?;
    }
}

/// Ends a reader's text, and gives the rest of its events to a sink. Returns the outcome.
pub(crate) fn finish_all<S: Sink>(
    file: &mut FileReader,
    ending: Ending,
    sink: &mut S,
) -> Result<Outcome, Event>
    requires open { ending_told file.old ≡ None }
    requires known { IsKnown file.old (S.list sink.old) }
    ensures name { S.name sink.new ≡ S.name sink.old }
    ensures grows { IsPrefix (S.list sink.old) (S.list sink.new) }
    ensures all { IfOk result (Finishes file.old ending (S.list sink.old) (S.list sink.new)) }
    ensures refused { IfErr result (λ e.
        FinishesSome file.old ending (S.list sink.old) (S.list sink.new ++ e ∷ [])) }
{
    loop {
        match file.finish(ending) {
            Some(event) => sink.put(event)?,
            None => return Ok(file.outcome()),
        }
    }
}
