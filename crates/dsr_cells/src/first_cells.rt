//! The first cells of a line.
ghost use Rattle.std.specs.Prelude.{◌≡◌, ◌<◌, ◌≤◌, ◌+◌, ◌==◌, ◌∷◌, [], length, map, not, take, drop, slice_index, slice_index_or, MatchOption};
ghost use Rattle.std.specs.List.{prefix_len};
ghost use Rattle.std.specs.Simd.Lanes.{chunk, mask_l};
ghost use Rattle.memchr.specs.Find.{IsFirstByte, is_byte};
ghost use Rattle.dsr_cells.specs.meaning.Cells.{cells};

use arrayvec::ArrayVec;
use memchr::memchr;
use std::marker::Model;
use std::simd::prelude::*;

/// The text before the TAB at a place, and the text behind it.
#[inline(always)]
fn around(text: &str, place: usize) -> (&str, &str)
    requires within { place < length text.now }
    requires ascii { slice_index text.now place < 128 }
    ensures before { result.0.now ≡ take place text.now }
    ensures behind { result.1.now ≡ drop (place + 1) text.now }
{
    (&text[..place], &text[place + 1..])
}

/// The TABs of the first 16 bytes: bit k is set if byte k is one.
#[inline(always)]
fn tabs_of_16(bytes: &[u8]) -> u64
    requires { 16 ≤ length bytes.now }
    ensures { result ≡ mask_l (map (λ b. b == 9) (chunk 0 16 bytes.now)) }
{
    u8x16::from_slice(bytes)
        .simd_eq(u8x16::splat(b'\t'))
        .to_bitmask()
}

/// The number of bytes before the first TAB among the first 16; 16 if there is none.
#[inline(always)]
fn run_of_16(bytes: &[u8]) -> usize
    requires { 16 ≤ length bytes.now }
    ensures { result ≡ prefix_len (λ b. not (b == 9)) (chunk 0 16 bytes.now) }
{
    let tabs = tabs_of_16(bytes);
    if tabs == 0 {
        16
    } else {
        tabs.trailing_zeros() as usize
    }
}

/// The index of the first TAB. One look at 16 bytes finds that of most cells.
#[inline(always)]
fn first_tab(bytes: &[u8]) -> Option<usize>
    ensures { IsFirstByte (is_byte 9) bytes.now result }
{
    if bytes.len() >= 16 {
        let run = run_of_16(bytes);
        if run < 16 {
            return Some(run);
        }
    }
    memchr(b'\t', bytes)
}

/// The first cell of a line, and what follows its TAB; None if the line has no TAB, so that it is one cell.
#[inline(always)]
pub fn first_cell(line: &str) -> Option<(&str, &str)>
    ensures { MatchOption result (cells line.now ≡ line.now ∷ [])
        (λ cut. cells line.now ≡ cut.0.now ∷ cells cut.1.now) }
{
    match first_tab(line.as_bytes()) {
        Some(place) => Some(around(line, place)),
        None => None,
    }
}

/// How many cells are cut at once: no kind of record, and no line of a statement, has more.
const FIRST_CELLS: usize = 10;

/// The first ten cells of a line, or all if it has fewer. Contracts see it as their list.
#[derive(Drop)]
pub struct FirstCells<'l> {
    cells: ArrayVec<&'l str, FIRST_CELLS>,
}

impl<'l> Model for FirstCells<'l> {
    ghost use Rattle.std.specs.Prelude.{List, ℕ, map};

    ghost Value = { List (List ℕ) };

    ghost view = { λ r. map (λ c. c.now) r.cells.items };
}

impl<'l> FirstCells<'l> {
    /// The first cells of a line.
    #[inline(always)]
    pub fn of(line: &'l str) -> FirstCells<'l>
        ensures { result ≡ take 10 (cells line.now) }
    {
        let mut cells = ArrayVec::new();
        let mut rest = line;
        for index in 0..FIRST_CELLS {
            match first_cell(rest) {
                Some((cell, after)) => {
                    cells.push(cell);
                    rest = after;
                }
                None => {
                    cells.push(rest);
                    return FirstCells { cells };
                }
            }
        }
        FirstCells { cells }
    }

    /// How many there are.
    #[inline(always)]
    pub fn len(&self) -> usize
        ensures { result ≡ length self.now }
    {
        self.cells.len()
    }

    /// The cell at an index, from 0. Condition: there are more than `index`.
    #[inline(always)]
    pub fn at(&self, index: usize) -> &'l str
        requires { index < length self.now }
        ensures { result.now ≡ slice_index_or self.now index [] }
    {
        self.cells[index]
    }
}
