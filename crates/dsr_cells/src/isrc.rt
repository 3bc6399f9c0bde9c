//! The International Standard Recording Code.
ghost use Rattle.std.specs.Prelude.{◌≡◌, ◌++◌, if◌then◌else◌, Some, None, true, length, take, drop, refl};
ghost use Rattle.std.specs.Cmp.{partial_equiv_from_equiv};
ghost use Rattle.std.specs.Cmp.Rules.{hashing};
ghost use Rattle.std.specs.Cmp.Lexicographic.{slice_cmp, nat_list_eq_equiv, nat_list_cmp_total, texts_po, texts_ties};
ghost use Rattle.std.specs.Ordering.{nat_cmp};
ghost use Rattle.std.specs.Str.{bytes_eq};
ghost use Rattle.std.specs.Hash as fed;
ghost use Rattle.std.proofs.Common.{rules};
ghost use Rattle.dsr_texts.specs.inner.Bytes.{AreBytes};
ghost use Rattle.dsr_cells.specs.inner.Parts.{number_of_bytes};
ghost use Rattle.dsr_cells.specs.meaning.Texts.{is_isrc_text};

use crate::spelling::is_isrc;
use std::cmp::Ordering;
use std::hash::{Hash, Hasher};
use std::marker::Model;

/// An International Standard Recording Code (ISO 3901): two capitals, three capitals or digits, two
/// digits of the year and five of the designation, with no hyphens.
///
/// Contracts see it as its twelve bytes. ISRCs are ordered by their bytes.
#[derive(Clone, Copy)]
pub struct Isrc {
    bytes: [u8; 12],
}

impl Model for Isrc {
    ghost use Rattle.std.specs.Prelude.{◌≡◌, List, ℕ, true};
    ghost use Rattle.dsr_cells.specs.meaning.Texts.{is_isrc_text};

    ghost Value = { List ℕ };

    ghost view = { λ a. a.bytes };

    ghost invariant = { λ a. is_isrc_text a.bytes ≡ true };

    ghost inverse = { λ t. record { bytes = t } };
}

/// The first eight bytes as a big-endian number, so that its order is that of the bytes.
#[inline(always)]
fn front_of(bytes: &[u8; 12]) -> u64
    ensures value { result ≡ number_of_bytes (take 8 bytes.now) }
    ensures bytes { AreBytes bytes.now }
{
    let b = bytes;
    u64::from_be_bytes([b[0], b[1], b[2], b[3], b[4], b[5], b[6], b[7]])
}

/// The last four bytes as a big-endian number.
#[inline(always)]
fn back_of(bytes: &[u8; 12]) -> u32
    ensures { result ≡ number_of_bytes (drop 8 bytes.now) }
{
    u32::from_be_bytes([bytes[8], bytes[9], bytes[10], bytes[11]])
}

impl Isrc {
    /// The ISRC that the text spells. None for every other text, such as one with hyphens.
    ///
    /// Not inlined: where it was, the bytes of an ISRC that `read_near` found by its hint were taken apart.
    #[inline(never)]
    pub fn read(text: &str) -> Option<Isrc>
        ensures { result ≡ (if is_isrc_text text.now then Some text.now else None) }
    {
        let bytes: [u8; 12] = text.as_bytes().try_into().ok()?;
        if !is_isrc(&bytes) {
            return None;
        }
        Some(Isrc { bytes })
    }

    /// The same as `read`. It is quicker if the text is that of `hint`, whose bytes need no test.
    #[inline(always)]
    pub fn read_near(text: &str, hint: Option<Isrc>) -> Option<Isrc>
        ensures { result ≡ (if is_isrc_text text.now then Some text.now else None) }
    {
        if let Some(isrc) = hint {
            if isrc.is_text(text) {
                return Some(isrc);
            }
        }
        Isrc::read(text)
    }

    /// Whether this is the text of the ISRC.
    #[inline(always)]
    fn is_text(&self, text: &str) -> bool
        ensures { result ≡ true → text.now ≡ self.now }
    {
        let Ok(bytes) = <[u8; 12]>::try_from(text.as_bytes()) else {
            return false;
        };
        front_of(&bytes) == self.front() && back_of(&bytes) == self.back()
    }

    /// The twelve bytes, in ASCII.
    pub fn as_bytes(&self) -> &[u8]
        ensures value { result.now ≡ self.now }
        ensures spelled { is_isrc_text result.now ≡ true }
    {
        &self.bytes
    }

    /// The number of the first eight bytes.
    fn front(&self) -> u64
        ensures value { result ≡ number_of_bytes (take 8 self.now) }
        ensures twelve { length self.now ≡ 12 }
        ensures bytes { AreBytes self.now }
    {
        front_of(&self.bytes)
    }

    /// The number of the last four bytes.
    fn back(&self) -> u32
        ensures { result ≡ number_of_bytes (drop 8 self.now) }
    {
        back_of(&self.bytes)
    }
}

/// Two ISRCs are compared by two numbers each, not byte by byte.
impl PartialEq for Isrc {
    ghost eq = { bytes_eq };

    ghost laws = { partial_equiv_from_equiv nat_list_eq_equiv };

    fn eq(&self, other: &Isrc) -> bool {
        self.cmp(other).is_eq()
    }
}

impl Eq for Isrc {
    ghost laws = { nat_list_eq_equiv };
}

impl Hash for Isrc {
    ghost hash_input = { λ x. fed.u64 (number_of_bytes (take 8 x)) ++ fed.u32
        (number_of_bytes (drop 8 x)) };

    ghost respects_eq = { Prim.search (hashing, rules) };

    fn hash<H: Hasher>(&self, state: &mut H) {
        state.write_u64(self.front());
        state.write_u32(self.back());
    }
}

impl PartialOrd for Isrc {
    ghost partial_cmp = { λ x y. Some (slice_cmp nat_cmp x y) };

    ghost laws = { texts_po };

    fn partial_cmp(&self, other: &Isrc) -> Option<Ordering> {
        Some(self.cmp(other))
    }
}

impl Ord for Isrc {
    ghost cmp = { slice_cmp nat_cmp };

    ghost total = { nat_list_cmp_total };

    ghost matches_partial_cmp = { λ x y. refl };

    ghost matches_eq = { texts_ties };

    fn cmp(&self, other: &Isrc) -> Ordering {
        let fronts = self.front().cmp(&other.front());
        fronts.then(self.back().cmp(&other.back()))
    }
}
