//! The calls of `Books` on the texts of the session, and what their report says.
use crate::answers::{ending_named, no_memory, say, say_option, standing_name, verdict_name};
use crate::argument::numbered;
use crate::books::Accounts;
use crate::events::events_of;
use dsr_events::{Ending, EventList};
use dsr_ledger::Report;
use dsr_records::Layout;
use dsr_statement::{statement, status};
use std::alloc::Global;
use std::io::{self, Print};

/// Books, and the report that was made last.
#[derive(Drop)]
pub struct Reports {
    alloc: Global,
    accounts: Option<Accounts>,
    report: Option<Report>,
}

/// Prints the statement of a report, line by line.
fn show_statement<P: Print>(rt: &P, alloc: Global, word: &str, report: &Report) -> io::Result<()> {
    let bytes = statement(alloc, report).map_err(no_memory)?;
    show_lines(rt, word, bytes.as_slice())
}

/// Prints the lines of a statement.
fn show_lines<P: Print>(rt: &P, word: &str, bytes: &[u8]) -> io::Result<()> {
    for line in str::from_utf8(bytes).unwrap_or("").lines() {
        say(rt, word, line)?;
    }
    Ok(())
}

/// Prints the differences of a report: file, summary, usages and amounts, stated and found.
fn show_differences<P: Print>(rt: &P, word: &str, report: &Report) -> io::Result<()> {
    for difference in report.differences.as_slice() {
        let (file, id) = (difference.file, difference.summary_id.as_str());
        let (stated, found) = (difference.stated_usages, difference.found_usages);
        print!(rt; "{word}: file={file} summary_id=\"{id}\" stated_usages={stated}")?;
        print!(rt; " found_usages={found}")?;
        let (stated, found) = (difference.stated_amount, difference.found_amount);
        println!(rt; " stated_amount={stated} found_amount={found}")?;
    }
    Ok(())
}

/// The report of one file with these bytes and this ending; None if it is too long.
fn report_of(
    alloc: Global,
    layout: &Layout,
    bytes: &[u8],
    ending: Ending,
) -> io::Result<Option<Report>> {
    let Some(events) = events_of(alloc, layout, bytes, ending) else {
        return Ok(None);
    };
    let Some(mut accounts) = Accounts::new(alloc, 1).map_err(no_memory)? else {
        drop(events);
        return Ok(None);
    };
    let fed = feed(&mut accounts, events);
    match fed {
        Ok(()) => accounts.close(),
        Err(error) => {
            drop(accounts);
            Err(error)
        }
    }
}

/// Hands the events of the only file in.
fn feed(accounts: &mut Accounts, events: EventList) -> io::Result<()> {
    accounts.open(events)?;
    for _ in 0..u32::MAX {
        if accounts.book(0)?.is_none() {
            break;
        }
    }
    accounts.end(0)?;
    Ok(())
}

/// The statement of the first `len` bytes of a text, and the number of blocks taken.
fn cut(
    alloc: Global,
    layout: &Layout,
    text: &[u8],
    len: usize,
    ending: Ending,
) -> io::Result<(Vec<u8>, u64)> {
    let bytes = &text[..len.min(text.len())];
    let Some(report) = report_of(alloc, layout, bytes, ending)? else {
        return Ok((Vec::new(alloc), 0));
    };
    let blocks = report.files.get(0).map_or(0, |file| file.blocks);
    let written = statement(alloc, &report);
    drop(report);
    Ok((written.map_err(no_memory)?, blocks))
}

/// Prints the statement of the first `from` bytes of a text, the numbers up to `to` for which it is another, and the most
/// blocks of all of them.
fn show_cuts<P: Print>(
    rt: &P,
    alloc: Global,
    layout: &Layout,
    word: &str,
    argument: &str,
    text: &[u8],
) -> io::Result<()> {
    let (from, rest) = numbered(argument);
    let (to, ending) = numbered(rest);
    let ending = ending_named(ending);
    let (first, mut most) = cut(alloc, layout, text, from as usize, ending)?;
    if word == "cut" {
        show_lines(rt, word, first.as_slice())?;
    }
    for len in from..to.saturating_add(1) {
        let (statement, blocks) = cut(alloc, layout, text, len as usize, ending)?;
        most = most.max(blocks);
        if word == "cut" && statement.as_slice() != first.as_slice() {
            println!(rt; "{word}: another statement after {len} bytes")?;
        }
    }
    if word == "most_blocks" {
        say(rt, word, most)?;
    }
    Ok(())
}

impl Reports {
    /// No books and no report.
    pub fn new(alloc: Global) -> Reports {
        Reports {
            alloc,
            accounts: None,
            report: None,
        }
    }

    /// Opens the next file, by the events of a text or without an opening, and prints its standing.
    fn open<P: Print>(&mut self, rt: &P, word: &str, events: EventList) -> io::Result<()> {
        let Some(accounts) = &mut self.accounts else {
            drop(events);
            return say(rt, word, "no books");
        };
        say_option(
            rt,
            word,
            accounts
                .open(events)?
                .map(|standing| standing_name(standing)),
        )
    }

    /// Books the blocks of file k, and prints their verdicts.
    fn book<P: Print>(&mut self, rt: &P, word: &str, k: u32) -> io::Result<()> {
        let Some(accounts) = &mut self.accounts else {
            return say(rt, word, "no books");
        };
        for _ in 0..u32::MAX {
            let Some(verdict) = accounts.book(k)? else {
                break;
            };
            say(rt, word, verdict_name(verdict))?;
        }
        Ok(())
    }

    /// Ends file k, and prints whether it could be ended.
    fn end<P: Print>(&mut self, rt: &P, word: &str, k: u32) -> io::Result<()> {
        match &mut self.accounts {
            Some(accounts) => say(rt, word, accounts.end(k)?),
            None => say(rt, word, "no books"),
        }
    }

    /// Makes the report of the books, and prints whether there is one.
    fn close<P: Print>(&mut self, rt: &P, word: &str) -> io::Result<()> {
        self.report = match self.accounts.take() {
            Some(accounts) => accounts.close()?,
            None => None,
        };
        say(rt, word, self.report.is_some())
    }

    /// Makes a call on the report. Returns whether there is such a call.
    fn ask_report<P: Print>(&self, rt: &P, word: &str) -> io::Result<bool> {
        let Some(report) = &self.report else {
            return Ok(false);
        };
        match word {
            "statement" => show_statement(rt, self.alloc, word, report)?,
            "status" => println!(rt; "{word}: {:?}", status(report))?,
            "differences" => show_differences(rt, word, report)?,
            _ => return Ok(false),
        }
        Ok(true)
    }

    /// Makes a call of the books. Returns whether there is such a call.
    fn call<P: Print>(&mut self, rt: &P, word: &str, k: u32) -> io::Result<bool> {
        match word {
            "Books::new" => self.accounts = Accounts::new(self.alloc, k).map_err(no_memory)?,
            "Books::book" => self.book(rt, word, k)?,
            "Books::end_file" => self.end(rt, word, k)?,
            "Books::into_report" => self.close(rt, word)?,
            _ => {
                return match &self.accounts {
                    Some(accounts) => accounts.ask(rt, word, k),
                    None => Ok(false),
                };
            }
        }
        Ok(true)
    }

    /// Makes a call. Returns whether there is such a call.
    pub fn answer<P: Print>(
        &mut self,
        rt: &P,
        layout: &Layout,
        word: &str,
        argument: &str,
        text: &[u8],
    ) -> io::Result<bool> {
        let alloc = self.alloc;
        match word {
            "cut" | "most_blocks" => show_cuts(rt, alloc, layout, word, argument, text)?,
            "Books::open_next" => {
                match events_of(alloc, layout, text, ending_named(argument)) {
                    Some(events) => self.open(rt, word, events)?,
                    None => say(rt, word, "out of memory")?,
                }
            }
            "report" => {
                self.report = report_of(alloc, layout, text, ending_named(argument))?;
            }
            "open_without_opening" => self.open(rt, word, EventList::new(alloc))?,
            _ => return Ok(
                self.ask_report(rt, word)? || self.call(rt, word, numbered(argument).0)?,
            ),
        }
        Ok(true)
    }
}
