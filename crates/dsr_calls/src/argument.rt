//! The arguments of calls: bytes with escapes.
use std::alloc::{AllocError, Global};

/// The longest argument that `\{N}` makes.
const LONGEST: usize = 1 << 20;

/// Where an argument stands in an escape.
#[derive(Clone, Copy)]
enum State {
    /// In none.
    Plain,
    /// Behind the backslash.
    Escape,
    /// Behind `\x`.
    High,
    /// Behind `\x` and this digit.
    Low(u8),
    /// In `\{N}`, with this number so far.
    Count(usize),
}

/// The value of a hexadecimal digit; 0 for any other byte.
fn digit(byte: u8) -> u8 {
    match byte {
        b'0'..=b'9' => byte - b'0',
        b'a'..=b'f' => byte - b'a' + 10,
        b'A'..=b'F' => byte - b'A' + 10,
        _ => 0,
    }
}

/// Repeats the last byte, so that it stands `count` times.
fn repeat(out: &mut Vec<u8>, count: usize) -> Result<(), AllocError> {
    let last = out.pop().unwrap_or(b' ');
    let len = out.len().saturating_add(count).min(LONGEST);
    out.resize(len, last)
}

/// Appends the byte that a backslash and this byte stand for, or begins a longer escape.
fn escape(out: &mut Vec<u8>, byte: u8) -> Result<State, AllocError> {
    match byte {
        b'x' => return Ok(State::High),
        b'{' => return Ok(State::Count(0)),
        b't' => out.push(b'\t')?,
        b'n' => out.push(b'\n')?,
        b'r' => out.push(b'\r')?,
        _ => out.push(byte)?,
    }
    Ok(State::Plain)
}

/// Takes the next byte of an argument.
fn step(out: &mut Vec<u8>, state: State, byte: u8) -> Result<State, AllocError> {
    match state {
        State::Plain if byte == b'\\' => return Ok(State::Escape),
        State::Plain => out.push(byte)?,
        State::Escape => return escape(out, byte),
        State::High => return Ok(State::Low(digit(byte))),
        State::Low(high) => out.push(high.wrapping_mul(16).wrapping_add(digit(byte)))?,
        State::Count(count) if byte == b'}' => repeat(out, count)?,
        State::Count(count) => {
            let more = usize::from(digit(byte));
            return Ok(State::Count(count.saturating_mul(10).saturating_add(more)));
        }
    }
    Ok(State::Plain)
}

/// The bytes that an argument stands for.
///
/// # Errors
///
/// Out of memory.
pub fn bytes_of(alloc: Global, argument: &str) -> Result<Vec<u8>, AllocError> {
    let mut out = Vec::new(alloc);
    let mut state = State::Plain;
    for byte in argument.bytes() {
        state = step(&mut out, state, byte)?;
    }
    Ok(out)
}

/// A number and the argument behind it. The number is 0 if there is none.
pub fn numbered(text: &str) -> (u32, &str) {
    let (number, rest) = text.split_once('\t').unwrap_or((text, ""));
    (number.parse::<u32>().unwrap_or(0), rest)
}
