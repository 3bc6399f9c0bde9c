//! Reading all values of a list cell.
ghost use Rattle.std.specs.Prelude.{◌≡◌, ◌∷◌, IfOk, OnOk, length, map};
ghost use Rattle.dsr_cells.specs.inner.Parts.{parts_left};
ghost use Rattle.dsr_cells.specs.meaning.Cells.{parts_after, raw_parts, value_of};

use crate::cells::values;
use crate::escape::unescape;
use crate::parts::{first_part, plain_part};
use dsr_texts::{NoMemory, Text, Texts};
use std::alloc::Global;

/// The number of values of a list cell.
pub fn count_values(cell: &str) -> usize
    ensures { result ≡ length (raw_parts cell.now) }
{
    let mut count = 0;
    for _part in values(cell) {
        count += 1;
    }
    count
}

/// Writes the first value of a text over `value`, and returns the text after the pipe that ends its raw part.
fn read_first<'c>(
    alloc: Global,
    text: &'c str,
    value: &mut Text,
) -> Result<Option<&'c str>, NoMemory>
    ensures { IfOk result (λ rest. map value_of (parts_after 0 text.now)
        ≡ value.new ∷ map value_of (parts_left rest)) }
{
    if let Some((part, rest)) = plain_part(text) {
        value.assign(alloc, part)?;
        return Ok(rest);
    }
    let (part, rest) = first_part(text);
    *value = unescape(alloc, part)?;
    Ok(rest)
}

/// Writes the values of a list cell over the items of a list: what `unescape` returns for each part
/// of `values`.
///
/// # Errors
///
/// `NoMemory`: out of memory; the list may then have any items.
pub fn read_texts_into(alloc: Global, cell: &str, texts: &mut Texts) -> Result<(), NoMemory>
    ensures { OnOk result (texts.new ≡ map value_of (raw_parts cell.now)) }
{
    texts.restart();
    let mut rest = values(cell).rest;
    while let Some(text) = rest {
        let value = texts.next()?;
        rest = read_first(alloc, text, value)?;
    }
    Ok(())
}
