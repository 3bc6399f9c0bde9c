//! An example program: it reads one report file from standard input and prints its blocks.
//!
//! 1. `main` makes a reader with the standard layout.
//! 2. `drain` reads standard input piece by piece, and `feed` passes each piece to the reader.
//! 3. `show` prints each event, and `end` prints those that the end of the file gives.
#![tactic(auto)]

ghost use Rattle.std.specs.Prelude.{◌≡◌, ◌+◌, ◌≤◌, ◌^◌, None, length};
ghost use Rattle.dsr_file.specs.inner.Standing.{bytes_used, ending_told};

use dsr_file::{Ending, Event, EventPart, FileReader, Outcome};
use dsr_records::Layout;
use std::io::{self, Print, Read};

/// The most bytes that a reader takes.
const MOST: u64 = 1 << 36;

/// Prints an event.
fn show<P: Print>(rt: &P, event: &Event) -> io::Result<()> {
    match &event.part {
        EventPart::Opened(opening) => println!(rt; "report {}", opening.head.message_id.as_str()),
        EventPart::Block(block) => {
            let (id, isrc) = (block.id.as_str(), block.resource.isrc.as_str());
            println!(rt; "block {id}: {} usages of {isrc}", block.usages.len())
        }
        EventPart::Ended(Outcome::Whole) => println!(rt; "whole"),
        EventPart::Ended(_) => println!(rt; "not whole"),
    }
}

/// Prints an event that is no longer needed.
fn print_event<P: Print>(rt: &P, event: Event) -> io::Result<()> {
    let printed = show(rt, &event);
    drop(event);
    printed
}

/// Passes a piece to the reader, and prints each event that it returns.
fn feed<P: Print>(rt: &P, file: &mut FileReader, piece: &[u8]) -> io::Result<()>
    // the reader was not told yet that the file has ended
    requires open { ending_told file.old ≡ None }
    // with this piece it has been given at most 2^36 bytes, the most that it takes
    requires room { bytes_used file.old + length piece.now ≤ 2 ^ 36 }
    // it was still not told afterwards, so more pieces may follow
    ensures open { ending_told file.new ≡ None }
{
    let mut used = 0;
    for _ in 0..u64::MAX {
        let (more, event) = file.take(&piece[used..]);
        used += more;
        let Some(event) = event else {
            break;
        };
        print_event(rt, event)?;
    }
    Ok(())
}

/// Reads until the end, a failed read, the first fault or the limit. Returns how the text ends.
fn drain<P: Print, R: Read>(rt: &P, file: &mut FileReader, reader: &mut R) -> io::Result<Ending>
    // the file is not ended before its bytes are read, nor by this function: `end` does that
    requires open { ending_told file.old ≡ None }
    ensures open { ending_told file.new ≡ None }
{
    let mut piece = [0u8; 4096];
    for _ in 0..u64::MAX {
        if file.done() || file.given() + 4096 > MOST {
            break;
        }
        match reader.read(&mut piece) {
            Ok(0) => return Ok(Ending::Whole),
            Ok(count) => feed(rt, file, &piece[..count])?,
            Err(_) => return Ok(Ending::Read),
        }
    }
    Ok(Ending::Reads)
}

/// Reports the end of the text to the reader, and prints the remaining events.
fn end<P: Print>(rt: &P, file: &mut FileReader, ending: Ending) -> io::Result<()>
    // a file is ended once
    requires { ending_told file.old ≡ None }
{
    while let Some(event) = file.finish(ending) {
        print_event(rt, event)?;
    }
    Ok(())
}

/// Prints the events of a report.
fn print_events<P: Print, R: Read>(rt: &P, file: &mut FileReader, reader: &mut R) -> io::Result<()>
    requires { ending_told file.old ≡ None }
{
    let ending = drain(rt, file, reader)?;
    end(rt, file, ending)
}

fn main(rt: HostRuntime) -> io::Result<()> {
    let Ok(mut file) = FileReader::new(rt.alloc(), &Layout::standard()) else {
        return Err(io::ErrorKind::OutOfMemory.into());
    };
    let printed = print_events(&rt, &mut file, &mut rt.stdin());
    drop(file);
    printed
}
