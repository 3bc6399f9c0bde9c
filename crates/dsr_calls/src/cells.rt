//! The calls of dsr_cells and dsr_texts.
use crate::answers::{no_memory, quote, quote_bytes, say};
use crate::argument::numbered;
use dsr_cells::{Isrc, NoMemory, Share, Shares, Text, Texts, cell, count_cells, unescape, values};
use std::alloc::Global;
use std::io::{self, Print};

/// Prints the raw parts of a list cell.
fn show_values<P: Print>(rt: &P, word: &str, cell: &str) -> io::Result<()> {
    print!(rt; "{word}:")?;
    for part in values(cell) {
        print!(rt; " \"{part}\"")?;
    }
    println!(rt; "")
}

/// Prints the values of a list cell, without their escapes.
fn show_unescaped<P: Print>(rt: &P, alloc: Global, word: &str, cell: &str) -> io::Result<()> {
    print!(rt; "{word}:")?;
    for part in values(cell) {
        let text = unescape(alloc, part).map_err(no_memory)?;
        let text = text.as_str();
        print!(rt; " \"{text}\"")?;
    }
    println!(rt; "")
}

/// Pushes a text to a list.
fn push_text(alloc: Global, texts: &mut Texts, part: &str) -> Result<(), NoMemory> {
    let text = unescape(alloc, part)?;
    match texts.push(text) {
        Ok(()) => Ok(()),
        Err(text) => {
            drop(text);
            Err(NoMemory)
        }
    }
}

/// Pushes the values of a list cell to a list, and prints its items.
fn show_texts<P: Print>(rt: &P, alloc: Global, word: &str, cell: &str) -> io::Result<()> {
    let mut texts = Texts::new(alloc);
    for part in values(cell) {
        push_text(alloc, &mut texts, part).map_err(no_memory)?;
    }
    print!(rt; "{word}: {}:", texts.len())?;
    for i in 0..texts.len() {
        if let Some(text) = texts.get(i) {
            print!(rt; " \"{}\"", text.as_str())?;
        }
    }
    println!(rt; "")
}

/// Pushes the shares of a list cell to a list, and prints its items.
fn show_shares<P: Print>(rt: &P, alloc: Global, word: &str, cell: &str) -> io::Result<()> {
    let mut shares = Shares::new(alloc);
    for part in values(cell) {
        if let Some(share) = Share::read(part) {
            shares.push(share).map_err(|_share| no_memory(NoMemory))?;
        }
    }
    print!(rt; "{word}: {}:", shares.len())?;
    for i in 0..shares.len() {
        if let Some(share) = shares.get(i) {
            print!(rt; " {}", share.parts())?;
        }
    }
    println!(rt; "")
}

/// Prints the copy of a text.
fn show_copy<P: Print>(rt: &P, alloc: Global, word: &str, text: &str) -> io::Result<()> {
    let copy = Text::copy_of(alloc, text).map_err(no_memory)?;
    quote(rt, word, Some(copy.as_str()))
}

/// Prints the bytes of an ISRC.
fn show_isrc<P: Print>(rt: &P, word: &str, text: &str) -> io::Result<()> {
    match Isrc::read(text) {
        Some(isrc) => quote_bytes(rt, word, isrc.as_bytes()),
        None => quote(rt, word, None),
    }
}

/// Makes a call. Returns whether there is such a call.
pub fn answer<P: Print>(rt: &P, alloc: Global, word: &str, text: &str) -> io::Result<bool> {
    match word {
        "cell" => {
            let (i, line) = numbered(text);
            quote(rt, word, cell(line, i as usize))?;
        }
        "count_cells" => say(rt, word, count_cells(text))?,
        "values" => show_values(rt, word, text)?,
        "unescape" => show_unescaped(rt, alloc, word, text)?,
        "Texts::push" => show_texts(rt, alloc, word, text)?,
        "Shares::push" => show_shares(rt, alloc, word, text)?,
        "Text::copy_of" => show_copy(rt, alloc, word, text)?,
        "Isrc::read" => show_isrc(rt, word, text)?,
        _ => return Ok(false),
    }
    Ok(true)
}
