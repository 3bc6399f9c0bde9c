//! The cells of a line, found by one look at 64 bytes of a page.
ghost use Rattle.std.specs.Prelude.{◌≡◌, ◌+◌, ◌-◌, ◌<◌, ◌≤◌, ◌∷◌, [], ◌++◌, IfSome, IsTrue, IsUtf8, List, ℕ, length, slice_index, true};
ghost use Rattle.std.specs.List.{list_all};
ghost use Rattle.std.specs.Simd.Lanes.{chunk};
ghost use Rattle.dsr_cells.specs.meaning.Texts.{is_identifier_text};
ghost use Rattle.dsr_records.specs.inner.Usual.{BeginsWithType, IsFront, IsLineOf, is_printable, is_shown, odd_bits};

use crate::usual::PAGE;
use dsr_texts::text_of;
use std::simd::prelude::*;
use std::str;

/// The number of bytes that are looked at together.
const LOOK: usize = 64;

/// The last offset of a page from which on bytes are looked at.
const LAST_LOOK: usize = 64;

/// The bytes among the 64 from an offset of a page that are not printable ASCII.
#[inline(always)]
fn odd_of_64(page: &[u8], at: usize) -> u64
    requires { at + 64 ≤ length page.now }
    ensures { result ≡ odd_bits (chunk at 64 page.now) }
{
    (u8x64::from_slice(&page[at..]) - u8x64::splat(32))
        .simd_ge(u8x64::splat(95))
        .to_bitmask()
}

/// A cell of printable ASCII of a page, which has 32 bytes or more behind it.
#[derive(Clone, Copy)]
pub(crate) struct Cell<'p> {
    pub(crate) page: &'p [u8],
    pub(crate) at: usize,
    pub(crate) size: usize,
    ghost behind: { at + size + 32 ≤ length page.now },
    ghost printable: { list_all is_printable (chunk at size page.now) ≡ true },
}

impl<'p> Cell<'p> {
    /// The text of the cell.
    #[inline(always)]
    pub(crate) fn text(self) -> &'p str
        ensures { result.now ≡ chunk self.entry.at self.entry.size self.entry.page.now }
    {
        unsafe { str::from_utf8_unchecked(&self.page[self.at..self.at + self.size]) }
    }

    /// Whether the cell is an identifier of at most 32 bytes.
    #[inline(always)]
    pub(crate) fn is_identifier(self) -> bool
        ensures { IsTrue result → is_identifier_text 32
            (chunk self.entry.at self.entry.size self.entry.page.now) ≡ true }
    {
        0 < self.size && self.size <= 32
    }
}

/// What is left of a line: the cells from an offset of a page on.
#[derive(Clone, Copy)]
pub(crate) struct Cells<'p> {
    page: &'p [u8],
    at: usize,
    /// The end of the bytes that were looked at.
    end: usize,
    /// Bit k is set if byte k from the offset on, of those that were looked at, is not printable ASCII.
    odd: u64,
    ghost order: { at ≤ end },
    ghost few: { end ≤ at + 64 },
    ghost near: { end ≤ 128 },
    ghost behind: { end + 32 ≤ length page.now },
    ghost known: { odd ≡ odd_bits (chunk at (end - at) page.now) },
}

impl<'p> Cells<'p> {
    /// The cells behind the record type of a page, which has four bytes, and its TAB.
    #[inline(always)]
    pub(crate) fn behind_type(page: &'p [u8]) -> Cells<'p>
        requires { 96 ≤ length page.now }
        ensures { (name : List ℕ) → BeginsWithType page.now name
            → IsFront page.now result.page.now result.at (name ∷ []) }
    {
        Cells {
            page,
            at: 5,
            end: LOOK,
            odd: odd_of_64(page, 0) >> 5,
        }
    }

    /// The same cells, with the 64 bytes from their offset on looked at, if the page has them.
    #[inline(always)]
    pub(crate) fn look(self) -> Option<Cells<'p>>
        ensures { IfSome result (λ c. (page : List ℕ) (front : List (List ℕ))
            → IsFront page self.entry.page.now self.entry.at front
            → IsFront page c.page.now c.at front) }
    {
        if self.at > LAST_LOOK || self.page.len() < self.at + PAGE {
            return None;
        }
        Some(Cells {
            page: self.page,
            at: self.at,
            end: self.at + LOOK,
            odd: odd_of_64(self.page, self.at),
        })
    }

    /// The number of printable bytes, if another byte ends them.
    #[inline(always)]
    fn run(&self) -> Option<usize>
        ensures within { IfSome result (λ n. self.now.at + n < self.now.end) }
        ensures printable { IfSome result (λ n.
            list_all is_printable (chunk self.now.at n self.now.page.now) ≡ true) }
    {
        if self.odd == 0 {
            return None;
        }
        Some(self.odd.trailing_zeros() as usize)
    }

    /// What is left behind the byte at an offset, which was looked at.
    #[inline(always)]
    fn behind(self, end: usize) -> Cells<'p>
        requires from { self.at ≤ end }
        requires within { end < self.end }
        ensures page { result.page ≡ self.entry.page }
        ensures at { result.at ≡ end + 1 }
        ensures end { result.end ≡ self.entry.end }
    {
        Cells {
            page: self.page,
            at: end + 1,
            end: self.end,
            odd: (self.odd >> (end - self.at)) >> 1,
        }
    }

    /// The next cell, if it is printable ASCII and this byte ends it.
    #[inline(always)]
    fn cell_before(self, mark: u8) -> Option<Cell<'p>>
        ensures page { IfSome result (λ c. c.page ≡ self.entry.page) }
        ensures at { IfSome result (λ c. c.at ≡ self.entry.at) }
        ensures within { IfSome result (λ c. c.at + c.size < self.entry.end) }
        ensures mark { IfSome result (λ c. slice_index c.page.now (c.at + c.size) ≡ mark) }
    {
        let size = self.run()?;
        if self.page[self.at + size] != mark {
            return None;
        }
        Some(Cell {
            page: self.page,
            at: self.at,
            size,
        })
    }

    /// The next cell, if a TAB ends it, and what is left behind the TAB.
    #[inline(always)]
    pub(crate) fn next(self) -> Option<(Cell<'p>, Cells<'p>)>
        ensures { IfSome result (λ c. (page : List ℕ) (front : List (List ℕ))
            → IsFront page self.entry.page.now self.entry.at front
            → IsFront page c.1.page.now c.1.at (front ++ chunk c.0.at c.0.size c.0.page.now ∷ [])) }
    {
        let cell = self.cell_before(b'\t')?;
        Some((cell, self.behind(self.at + cell.size)))
    }

    /// The last cell, if a line feed ends it, and the length of the line.
    #[inline(always)]
    pub(crate) fn last(self) -> Option<(Cell<'p>, usize)>
        ensures { IfSome result (λ c. (page : List ℕ) (front : List (List ℕ))
            → IsFront page self.entry.page.now self.entry.at front
            → IsLineOf page c.1 (front ++ chunk c.0.at c.0.size c.0.page.now ∷ [])) }
    {
        let cell = self.cell_before(b'\n')?;
        Some((cell, self.at + cell.size))
    }

    /// The offset of the first byte that is neither printable ASCII nor past ASCII.
    #[inline(always)]
    fn text_end(self) -> Option<usize>
        ensures within { IfSome result (λ e. (self.entry.at ≤ e) × (e < self.entry.end)) }
        ensures shown { IfSome result (λ e.
            list_all is_shown (chunk self.entry.at (e - self.entry.at) self.entry.page.now) ≡ true) }
    {
        let mut left = self;
        loop {
            let end = left.at + left.run()?;
            if self.page[end] < 128 {
                return Some(end);
            }
            left = left.behind(end);
        }
    }

    /// The text up to an offset, if it is UTF-8.
    #[inline(always)]
    fn text_to(self, end: usize) -> Option<&'p str>
        requires from { self.at ≤ end }
        requires within { end < self.end }
        ensures { IfSome result (λ t. (t.now ≡ chunk self.entry.at (end - self.entry.at) self.entry.page.now)
            × IsUtf8 t.now) }
    {
        let bytes = &self.page[self.at..end];
        match self.run() {
            Some(size) if self.at + size == end => {
                Some(unsafe { str::from_utf8_unchecked(bytes) })
            }
            _ => text_of(bytes),
        }
    }

    /// The next text, if a TAB ends it, and what is left behind the TAB.
    #[inline(always)]
    pub(crate) fn next_text(self) -> Option<(&'p str, Cells<'p>)>
        ensures { IfSome result (λ c. (page : List ℕ) (front : List (List ℕ))
            → IsFront page self.entry.page.now self.entry.at front
            → IsFront page c.1.page.now c.1.at (front ++ c.0.now ∷ [])) }
    {
        let end = self.text_end()?;
        if self.page[end] != b'\t' {
            return None;
        }
        Some((self.text_to(end)?, self.behind(end)))
    }

    /// The last text, if a line feed ends it, and the length of the line.
    #[inline(always)]
    pub(crate) fn last_text(self) -> Option<(&'p str, usize)>
        ensures { IfSome result (λ c. (page : List ℕ) (front : List (List ℕ))
            → IsFront page self.entry.page.now self.entry.at front
            → IsLineOf page c.1 (front ++ c.0.now ∷ [])) }
    {
        let end = self.text_end()?;
        if self.page[end] != b'\n' {
            return None;
        }
        Some((self.text_to(end)?, end))
    }
}
