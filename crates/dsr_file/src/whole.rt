//! All events of a text.
ghost use Rattle.std.specs.Prelude.{◌≡◌, ◌++◌, ◌+◌, ◌≤◌, ◌^◌, [], length, List, ℕ, Some, None, Ok, IfOk};
ghost use Rattle.dsr_records.specs.meaning.Records.{LayoutTable};
ghost use Rattle.dsr_file.specs.meaning.Texts.{text_events};
ghost use Rattle.dsr_file.specs.layer.Runs.{HasEvents, EndsWith};
ghost use Rattle.dsr_file.specs.inner.Standing.{Stands, bytes_used, ending_told};
ghost use Rattle.dsr_file.specs.inner.ReaderSteps.{IsKnown};

use crate::closed::Closed;
use crate::feeding::{feed, finish_all};
use crate::reader::FileReader;
use crate::sink::Sink;
use dsr_cells::NoMemory;
use dsr_events::{Ending, Event, EventList, Outcome};
use dsr_records::Layout;
use std::alloc::Global;

/// All events of the text with these bytes and this ending. Condition: at most 2^36 bytes.
///
/// # Errors
///
/// `NoMemory`: out of memory for the events, or for their content.
pub fn whole_events(
    alloc: Global,
    layout: &Layout,
    bytes: &[u8],
    ending: Ending,
) -> Result<EventList, NoMemory>
    requires { length bytes.now ≤ 2 ^ 36 }
    ensures { IfOk result (λ events. events ≡ text_events layout.now bytes.now ending) }
{
    let mut events = EventList::new(alloc);
    let outcome = read_whole(alloc, layout, bytes, ending, &mut events)?;
    if outcome.is_memory() {
        return Err(NoMemory);
    }
    Ok(events)
}

/// Puts all events of a text into a sink.
fn read_whole<S: Sink>(
    alloc: Global,
    layout: &Layout,
    bytes: &[u8],
    ending: Ending,
    sink: &mut S,
) -> Result<Outcome, NoMemory>
    requires room { length bytes.now ≤ 2 ^ 36 }
    requires empty { S.list sink.old ≡ [] }
    ensures { IfOk result (λ o. HasEvents layout.now bytes.now (Some ending) (S.list sink.new)
        × EndsWith (S.list sink.new) o) }
{
    let mut file = FileReader::new(alloc, layout)?;
    let mut part = file.nothing_closed();
    let answer = give_all(&mut file, &mut part, bytes, ending, sink);
    drop(part);
    drop(file);
    without_event(answer)
}

/// The same result, without the event that the sink refused.
fn without_event(answer: Result<Outcome, Event>) -> Result<Outcome, NoMemory>
    ensures { IfOk result (λ outcome. answer ≡ Ok outcome) }
{
    match answer {
        Ok(outcome) => Ok(outcome),
        Err(event) => {
            drop(event);
            Err(NoMemory)
        }
    }
}

/// Gives the rest of a text to a reader, and its events to a sink.
fn give_all<S: Sink>(
    file: &mut FileReader,
    part: &mut Closed,
    bytes: &[u8],
    ending: Ending,
    sink: &mut S,
) -> Result<Outcome, Event>
    requires none { part.old ≡ None }
    requires open { ending_told file.old ≡ None }
    requires room { bytes_used file.old + length bytes.now ≤ 2 ^ 36 }
    requires known { IsKnown file.old (S.list sink.old) }
    ensures { IfOk result (λ o. (layout : LayoutTable) (b : List ℕ)
        → Stands layout file.old b (S.list sink.old)
        → HasEvents layout (b ++ bytes.now) (Some ending) (S.list sink.new)
        × EndsWith (S.list sink.new) o) }
{
    feed(file, part, bytes, sink)?;
    if file.done() {
        return Ok(file.outcome());
    }
    finish_all(file, ending, sink)
}
