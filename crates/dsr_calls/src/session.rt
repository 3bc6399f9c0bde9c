//! What one call leaves for the next: a text, a layout, a reader, books and a relay.
use crate::answers::say;
use crate::argument::{bytes_of, numbered};
use crate::reading::Reading;
use crate::relays::Relays;
use crate::reports::Reports;
use crate::{cells, events, layouts, reading, records, values};
use dsr_records::Layout;
use std::alloc::{AllocError, Global};
use std::io::{self, Print};
use std::sync::Wait;

/// What one call leaves for the next.
#[derive(Drop)]
pub struct Session {
    alloc: Global,
    /// The text, which words build line by line, and which layouts, files and readers are made of.
    text: Vec<u8>,
    layout: Layout,
    reading: Option<Reading>,
    reports: Reports,
    relays: Relays,
}

impl Session {
    /// An empty text and the standard layout.
    pub fn new(alloc: Global) -> Session {
        Session {
            alloc,
            text: Vec::new(alloc),
            layout: Layout::standard(),
            reading: None,
            reports: Reports::new(alloc),
            relays: Relays::new(alloc),
        }
    }

    /// Changes the text by these bytes. Returns whether there is such a word.
    fn build(&mut self, word: &str, bytes: &[u8]) -> io::Result<bool> {
        match word {
            "text" => {
                self.text.clear();
                self.text.extend_from_slice(bytes)?;
            }
            "line" => {
                self.text.extend_from_slice(bytes)?;
                self.text.push(b'\n')?;
            }
            "part" => self.text.extend_from_slice(bytes)?,
            _ => return Ok(false),
        }
        Ok(true)
    }

    /// Appends a line a number of times, with the number of each, from 1 on, in place of `@`.
    fn repeat(&mut self, argument: &str) -> Result<(), AllocError> {
        let (count, line) = numbered(argument);
        for i in 0..count {
            let number = format!(in self.alloc; "{}", i + 1)?;
            for byte in line.bytes() {
                if byte == b'@' {
                    self.text.extend_from_slice(number.as_bytes())?;
                } else {
                    self.text.push(byte)?;
                }
            }
            self.text.push(b'\n')?;
        }
        Ok(())
    }

    /// Makes a call on a text. Returns whether there is such a call.
    fn call<P: Print + Wait>(&mut self, rt: &P, word: &str, argument: &str) -> io::Result<bool> {
        if word == "lines" {
            self.repeat(argument)?;
            return Ok(true);
        }
        let alloc = self.alloc;
        let text = self.text.as_slice();
        Ok(
            values::answer(rt, alloc, word, argument)?
                || cells::answer(rt, alloc, word, argument)?
                || records::answer(rt, alloc, &self.layout, word, argument)?
                || layouts::answer(rt, &mut self.layout, word, text)?
                || events::answer(rt, alloc, &self.layout, word, argument, text)?
                || reading::answer(
                    rt,
                    alloc,
                    &self.layout,
                    &mut self.reading,
                    word,
                    argument,
                    text,
                )?
                || self.reports.answer(rt, &self.layout, word, argument, text)?
                || self.relays.answer(rt, &self.layout, word, argument, text)?,
        )
    }

    /// Makes the call of a line, and prints what it answers.
    ///
    /// # Errors
    ///
    /// Printing failed, or out of memory.
    pub fn answer<P: Print + Wait>(&mut self, rt: &P, line: &str) -> io::Result<()> {
        let (word, argument) = line.split_once('\t').unwrap_or((line, ""));
        let bytes = bytes_of(self.alloc, argument)?;
        if self.build(word, bytes.as_slice())? {
            return Ok(());
        }
        let is_made = match str::from_utf8(bytes.as_slice()) {
            Ok(argument) => self.call(rt, word, argument)?,
            Err(_) => false,
        };
        if !is_made {
            say(rt, word, "no such call")?;
        }
        Ok(())
    }
}
