//! The calls of a `FileReader`, which takes the text of the session in pieces.
ghost use Rattle.std.specs.Prelude.{◌≡◌, ◌+◌, ◌≤◌, ◌^◌, None, true, false, length};
ghost use Rattle.dsr_file.specs.inner.Standing.{bytes_used, ending_told};

use crate::answers::{ending_named, no_memory, say};
use crate::argument::numbered;
use crate::events::print_event;
use dsr_file::FileReader;
use dsr_records::Layout;
use std::alloc::Global;
use std::io::{self, Print};

/// The most bytes that a reader takes.
const MOST: u64 = 1 << 36;

/// A reader, and whether it was told the end.
#[derive(Drop)]
pub struct Reading {
    reader: FileReader,
    finished: bool,
    ghost open: { finished ≡ false → ending_told reader ≡ None },
}

/// Passes a piece to the reader, again and again until it is used and no event comes, and prints each event.
fn feed<P: Print>(rt: &P, word: &str, file: &mut FileReader, piece: &[u8]) -> io::Result<()>
    requires open { ending_told file.old ≡ None }
    requires room { bytes_used file.old + length piece.now ≤ 2 ^ 36 }
    ensures open { ending_told file.new ≡ None }
{
    let mut used = 0;
    for _ in 0..u64::MAX {
        let (more, event) = file.take(&piece[used..]);
        used += more;
        let Some(event) = event else {
            break;
        };
        print_event(rt, word, event)?;
    }
    Ok(())
}

/// Passes a piece to the reader once, and prints how many bytes it used, and the event.
fn feed_once<P: Print>(rt: &P, word: &str, file: &mut FileReader, piece: &[u8]) -> io::Result<()>
    requires open { ending_told file.old ≡ None }
    requires room { bytes_used file.old + length piece.now ≤ 2 ^ 36 }
    ensures open { ending_told file.new ≡ None }
{
    let (used, event) = file.take(piece);
    println!(rt; "{word}: used {used}")?;
    match event {
        Some(event) => print_event(rt, word, event),
        None => say(rt, word, "none"),
    }
}

impl Reading {
    /// A new reader.
    fn new(alloc: Global, layout: &Layout) -> io::Result<Reading> {
        Ok(Reading {
            reader: FileReader::new(alloc, layout).map_err(no_memory)?,
            finished: false,
        })
    }

    /// Whether the reader may take this many further bytes.
    fn has_room(&self, len: usize) -> bool
        ensures open { result ≡ true → self.now.finished ≡ false }
        ensures room { result ≡ true → bytes_used self.now.reader + len ≤ 2 ^ 36 }
    {
        !self.finished && len as u64 <= MOST && self.reader.given() <= MOST - len as u64
    }
}

impl Reading {
    /// Passes a text to the reader in pieces of this many bytes, all in one if it is 0.
    fn take_all<P: Print>(&mut self, rt: &P, word: &str, text: &[u8], size: u32) -> io::Result<()> {
        let size = if size == 0 { text.len() } else { size as usize };
        for piece in text.chunks(size.max(1)) {
            if !self.has_room(piece.len()) {
                return say(rt, word, "after the end");
            }
            feed(rt, word, &mut self.reader, piece)?;
        }
        Ok(())
    }

    /// Passes a text to the reader once.
    fn take<P: Print>(&mut self, rt: &P, word: &str, text: &[u8]) -> io::Result<()> {
        if !self.has_room(text.len()) {
            return say(rt, word, "after the end");
        }
        feed_once(rt, word, &mut self.reader, text)
    }

    /// Tells the reader the end, and prints one event.
    fn finish<P: Print>(&mut self, rt: &P, word: &str, ending: &str) -> io::Result<()> {
        self.finished = true;
        match self.reader.finish(ending_named(ending)) {
            Some(event) => print_event(rt, word, event),
            None => say(rt, word, "none"),
        }
    }

    /// Makes a call of this reader. Returns whether there is such a call.
    fn answer<P: Print>(
        &mut self,
        rt: &P,
        word: &str,
        argument: &str,
        text: &[u8],
    ) -> io::Result<bool> {
        match word {
            "take_all" => self.take_all(rt, word, text, numbered(argument).0)?,
            "FileReader::take" => self.take(rt, word, text)?,
            "FileReader::finish" => self.finish(rt, word, argument)?,
            "FileReader::given" => say(rt, word, self.reader.given())?,
            "FileReader::done" => say(rt, word, self.reader.done())?,
            _ => return Ok(false),
        }
        Ok(true)
    }
}

/// Makes a call. Returns whether there is such a call.
pub fn answer<P: Print>(
    rt: &P,
    alloc: Global,
    layout: &Layout,
    reading: &mut Option<Reading>,
    word: &str,
    argument: &str,
    text: &[u8],
) -> io::Result<bool> {
    if word == "FileReader::new" {
        *reading = Some(Reading::new(alloc, layout)?);
        return Ok(true);
    }
    match reading {
        Some(reading) => reading.answer(rt, word, argument, text),
        None => Ok(false),
    }
}
