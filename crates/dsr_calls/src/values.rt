//! The calls of dsr_cells on single values, and the two that write them.
use crate::answers::{no_memory, quote_bytes, say, say_option};
use crate::argument::numbered;
use dsr_cells::{
    Amount, Day, Share, is_currency, is_identifier, is_territory, is_use_type, read_number,
    read_usages, write_amount, write_day,
};
use std::alloc::Global;
use std::io::{self, Print};

/// Writes a number of units, given in decimal.
fn write_units<P: Print>(rt: &P, alloc: Global, word: &str, text: &str) -> io::Result<()> {
    let mut out = Vec::new(alloc);
    let total = text.parse::<i128>().unwrap_or(0);
    write_amount(total, &mut out).map_err(no_memory)?;
    quote_bytes(rt, word, out.as_slice())
}

/// Writes the day that a text spells.
fn write_date<P: Print>(rt: &P, alloc: Global, word: &str, text: &str) -> io::Result<()> {
    let mut out = Vec::new(alloc);
    if let Some(day) = Day::read(text) {
        write_day(day, &mut out).map_err(no_memory)?;
    }
    quote_bytes(rt, word, out.as_slice())
}

/// Makes a call that has a text and returns whether it has a spelling. Returns whether there is such a call.
fn answer_bool<P: Print>(rt: &P, word: &str, text: &str) -> io::Result<bool> {
    match word {
        "is_identifier" => {
            let (most, text) = numbered(text);
            say(rt, word, is_identifier(text, most as usize))?;
        }
        "is_territory" => say(rt, word, is_territory(text))?,
        "is_use_type" => say(rt, word, is_use_type(text))?,
        "is_currency" => say(rt, word, is_currency(text))?,
        _ => return Ok(false),
    }
    Ok(true)
}

/// Makes a call. Returns whether there is such a call.
pub fn answer<P: Print>(rt: &P, alloc: Global, word: &str, text: &str) -> io::Result<bool> {
    match word {
        "read_number" => say_option(rt, word, read_number(text))?,
        "read_usages" => say_option(rt, word, read_usages(text))?,
        "Amount::read" => say_option(rt, word, Amount::read(text).map(|amount| amount.units()))?,
        "Share::read" => say_option(rt, word, Share::read(text).map(|share| share.parts()))?,
        "Day::read" => say_option(rt, word, Day::read(text).map(|day| day.number()))?,
        "write_amount" => write_units(rt, alloc, word, text)?,
        "write_day" => write_date(rt, alloc, word, text)?,
        _ => return answer_bool(rt, word, text),
    }
    Ok(true)
}
