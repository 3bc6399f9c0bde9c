//! Texts that are short enough to be stored in the value itself (small string optimization).
ghost use Rattle.std.specs.Prelude.{◌≡◌, ◌≤◌, ◌+◌, length, take, drop};
ghost use Rattle.std.specs.Int.{w64, from_le_bytes};
ghost use Rattle.std.specs.Str.{bytes_eq};

use std::marker::Model;
use std::simd::Simd;
use std::str;

/// The maximum length of a short text, in bytes.
pub(crate) const SHORT: usize = 22;

/// A text of at most 22 bytes, stored in place. The unused bytes are zero, so two texts are compared by words.
#[derive(Drop)]
pub(crate) struct ShortText {
    bytes: [u8; SHORT],
    size: u8,
}

impl Model for ShortText {
    ghost use Rattle.std.specs.Prelude.{◌≤◌, List, ℕ, take, IsUtf8};
    ghost use Rattle.dsr_texts.specs.inner.Short.{HasZerosBehind};

    ghost Value = { List ℕ };

    ghost view = { λ s. take s.size s.bytes };

    ghost invariant = { λ s. (s.size ≤ 22) × HasZerosBehind s.size s.bytes
        × ∥ IsUtf8 (take s.size s.bytes) ∥₁ };
}

/// Copies a text of `HALF` to twice as many bytes to the front: its first and its last `HALF`, which may overlap. Each
/// is one load and one store; both loads come before the stores, so the compiler need not check for aliasing.
#[inline(always)]
fn copy_ends<const HALF: usize>(bytes: &mut [u8; SHORT], text: &[u8])
    requires long { HALF ≤ length text.now }
    requires short { length text.now ≤ HALF + HALF }
    requires room { length text.now ≤ 22 }
    ensures front { take (length text.now) bytes.new ≡ text.now }
    ensures rest { drop (length text.now) bytes.new ≡ drop (length text.now) bytes.old }
{
    let tail = text.len() - HALF;
    let front = Simd::<u8, HALF>::from_slice(text);
    let back = Simd::<u8, HALF>::from_slice(&text[tail..]);
    front.copy_to_slice(&mut bytes[..HALF]);
    back.copy_to_slice(&mut bytes[tail..tail + HALF]);
}

/// Copies a text to the front.
fn copy_short(bytes: &mut [u8; SHORT], text: &[u8])
    requires { length text.now ≤ 22 }
    ensures front { take (length text.now) bytes.new ≡ text.now }
    ensures rest { drop (length text.now) bytes.new ≡ drop (length text.now) bytes.old }
{
    if text.len() >= 16 {
        copy_ends::<16>(bytes, text);
    } else if text.len() >= 8 {
        copy_ends::<8>(bytes, text);
    } else if text.len() >= 4 {
        copy_ends::<4>(bytes, text);
    } else if text.len() >= 2 {
        copy_ends::<2>(bytes, text);
    } else if let Some(byte) = text.first() {
        bytes[0] = *byte;
    }
}

/// The eight bytes from offset `at`, as a little-endian number.
#[inline(always)]
fn word(bytes: &[u8; SHORT], at: usize) -> u64
    requires { at ≤ 14 }
    ensures { result ≡ from_le_bytes w64 (take 8 (drop at bytes.now)) }
{
    let b = &bytes[at..at + 8];
    u64::from_le_bytes([b[0], b[1], b[2], b[3], b[4], b[5], b[6], b[7]])
}

/// Whether all 22 bytes are equal. Three words are compared without a branch; the last two overlap.
#[inline(always)]
fn same_bytes(bytes: &[u8; SHORT], other: &[u8; SHORT]) -> bool
    ensures { result ≡ bytes_eq bytes.now other.now }
{
    let front = word(bytes, 0) == word(other, 0);
    let middle = word(bytes, 8) == word(other, 8);
    let back = word(bytes, 14) == word(other, 14);
    front & middle & back
}

impl ShortText {
    /// The same text, in place.
    #[inline(always)]
    pub(crate) fn copy_of(text: &str) -> ShortText
        requires { length text.now ≤ 22 }
        ensures { result ≡ text.now }
    {
        let mut bytes = [0; SHORT];
        copy_short(&mut bytes, text.as_bytes());
        ShortText {
            bytes,
            size: text.len() as u8,
        }
    }

    /// Writes another text over this one, in place.
    #[inline(always)]
    pub(crate) fn assign(&mut self, text: &str)
        requires { length text.now ≤ 22 }
        ensures { self.new ≡ text.now }
    {
        self.bytes = [0; SHORT];
        copy_short(&mut self.bytes, text.as_bytes());
        self.size = text.len() as u8;
    }

    /// A second text with the same bytes.
    #[inline(always)]
    pub(crate) fn copy(&self) -> ShortText
        ensures { result ≡ self.now }
    {
        ShortText {
            bytes: self.bytes,
            size: self.size,
        }
    }

    /// Whether the other text has the same bytes.
    #[inline(always)]
    pub(crate) fn equals(&self, other: &ShortText) -> bool
        ensures { result ≡ bytes_eq self.now other.now }
    {
        self.size == other.size && same_bytes(&self.bytes, &other.bytes)
    }

    /// The text.
    #[inline(always)]
    pub(crate) fn as_str(&self) -> &str
        ensures { result.now ≡ self.now }
    {
        unsafe { str::from_utf8_unchecked(&self.bytes[..self.size as usize]) }
    }
}
