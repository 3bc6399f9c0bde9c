//! The calls that make a layout. The layout becomes that of the session.
use crate::answers::{layout_fault_name, say};
use dsr_records::Layout;
use std::io::{self, Print};

/// Reads a layout from the text of the session.
fn read<P: Print>(rt: &P, layout: &mut Layout, word: &str, text: &[u8]) -> io::Result<()> {
    match Layout::read(text) {
        Ok(found) => {
            *layout = found;
            say(rt, word, "Ok")
        }
        Err(error) => {
            let (line, fault) = (error.line, layout_fault_name(error.fault));
            println!(rt; "{word}: line {line} {fault}")
        }
    }
}

/// Makes a call. Returns whether there is such a call.
pub fn answer<P: Print>(rt: &P, layout: &mut Layout, word: &str, text: &[u8]) -> io::Result<bool> {
    match word {
        "Layout::read" => read(rt, layout, word, text)?,
        "Layout::standard" => *layout = Layout::standard(),
        "Layout::copy" => {
            let copy = layout.copy();
            *layout = copy;
        }
        _ => return Ok(false),
    }
    Ok(true)
}
