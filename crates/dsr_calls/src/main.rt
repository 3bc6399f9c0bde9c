//! Makes the calls that standard input lists, one a line, and prints what they answer: the worked examples of the public
//! calls, as data. `stdin` has the calls, and `stdout` the answers, which were worked out by hand from docs/PROFILE.md and
//! never taken from this program.
//!
//! A line is a word and its argument, separated by a TAB; one that is empty or begins with `#` is skipped. The word is the
//! name of a call, or one of those below. The argument is the rest of the line, TABs included; where a call has a number
//! too, that comes first, with a TAB behind it. In an argument `\t`, `\n`, `\r`, `\\` and `\xHH` stand for one byte, and
//! `\{N}` repeats the byte before it until it stands N times (`argument`). What a call answers is printed behind its word
//! (`answers`).
//!
//! Files and layouts are made of the text of the `session`: `text` sets it to the argument, `line` appends the argument and
//! a line feed, `part` the argument alone, and `lines N` a line N times, with 1, 2 and so on in place of `@`.
//!
//! 1. `values` and `cells` make calls on the argument. `unescape` prints the values of a list cell, and `Texts::push` and
//!    `Shares::push` the list to which they were pushed, with its length.
//! 2. `records` makes calls on a line, by the layout of the session. `layouts`: `Layout::read` reads a layout from the text;
//!    it becomes that of the session, and so do `Layout::standard` and `Layout::copy`, the copy of the one before.
//! 3. `events`: `whole_events ENDING` prints the events of the text, by the layout of the session.
//! 4. `reading`: `FileReader::new` makes a reader, and its other calls are made on that. `FileReader::take` passes the text
//!    to it, and prints how many bytes it used and the event; `take_all N` passes pieces of N bytes, or one piece, each again
//!    and again until no event comes, and prints the events.
//! 5. `reports`: `Books::new N` makes books (`books`), and their other calls are made on those. `Books::open_next ENDING`
//!    opens a file by the events of the text, `open_without_opening` one without an opening; `Books::book K` books all blocks
//!    of file K, from 0; `Books::into_report` prints whether all files are ended and keeps their report.
//!    `report ENDING` makes that of the text as the only file. `statement`, `status` and `differences` tell the report.
//!    `cut FROM TO ENDING` prints the statement of the first FROM bytes of the text, and for which other numbers up to TO it
//!    is another one; `most_blocks FROM TO ENDING` the most blocks that are taken.
//! 6. `relays`: `open_relay N` makes a relay of N messages (`ends`) for the events of the text. `Feed::send N` sends the next
//!    N of them, and prints how many were sent and the one that came back; `drop_feed` and `drop_tap` drop an end.
#![tactic(auto)]

mod answers;
mod argument;
mod books;
mod cells;
mod ends;
mod events;
mod layouts;
mod reading;
mod records;
mod relays;
mod reports;
mod session;
mod values;

use session::Session;
use std::io::{self, BufRead, BufReader};

fn main(rt: HostRuntime) -> io::Result<()> {
    let alloc = rt.alloc();
    let mut session = Session::new(alloc);
    for line in BufReader::new(alloc, rt.reader())?.lines(alloc) {
        let line = line?;
        if !line.is_empty() && !line.starts_with('#') {
            session.answer(&rt, line.as_str())?;
        }
    }
    Ok(())
}
