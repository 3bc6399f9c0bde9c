//! Numbers of a few digits, read eight at once from one word (SWAR), without a branch on their count.
ghost use Rattle.std.specs.Prelude.{◌≡◌, ℕ, ◌+◌, ◌*◌, ◌<◌, ◌≤◌, ◌^◌, if◌then◌else◌, IfSome, length, slice_index, List, true, Some};
ghost use Rattle.std.specs.Int.Bits.{bit_xor};
ghost use Rattle.std.specs.Int.{w64, from_le_bytes};
ghost use Rattle.std.specs.Simd.Lanes.{chunk};
ghost use Rattle.dsr_cells.specs.meaning.Numbers.{digits_of};
ghost use Rattle.dsr_cells.specs.inner.Digits.{word_of_eight, number_of_eight, IsWordOf, SpellsNumber, IsFilledUp};

/// The eight bytes from offset `at`, as a little-endian number.
#[inline(always)]
fn word_at(page: &[u8], at: usize) -> u64
    requires { at + 8 ≤ length page.now }
    ensures { result ≡ from_le_bytes w64 (chunk at 8 page.now) }
{
    let b = &page[at..at + 8];
    u64::from_le_bytes([b[0], b[1], b[2], b[3], b[4], b[5], b[6], b[7]])
}

/// Whether each byte of a word is below ten: neither it nor 118 more than it has the high bit, 128.
#[inline(always)]
fn are_below_ten(word: u64) -> bool
    ensures { (a b c d e f g h : ℕ) → a < 256 → b < 256 → c < 256 → d < 256
        → e < 256 → f < 256 → g < 256 → h < 256 → word ≡ word_of_eight a b c d e f g h
        → result ≡ true → ((a < 10) × (b < 10) × (c < 10) × (d < 10))
        × ((e < 10) × (f < 10) × (g < 10) × (h < 10)) }
{
    word & 0x8080_8080_8080_8080 == 0
        && word.wrapping_add(0x7676_7676_7676_7676) & 0x8080_8080_8080_8080 == 0
}

/// The number of eight digits, the first of them in the lowest byte. Ten times each digit plus the next gives four pairs,
/// a hundred times each pair plus the next two fours.
#[inline(always)]
fn number_of_eight(word: u64) -> u64
    ensures value { (a b c d e f g h : ℕ) → a < 10 → b < 10 → c < 10 → d < 10
        → e < 10 → f < 10 → g < 10 → h < 10 → word ≡ word_of_eight a b c d e f g h
        → result ≡ number_of_eight a b c d e f g h }
    ensures bound { result < 2 ^ 30 }
{
    let pairs = word.wrapping_mul(10).wrapping_add(word >> 8) & 0x00ff_00ff_00ff_00ff;
    let fours = (pairs * 100 + (pairs >> 16)) & 0x0000_ffff_0000_ffff;
    (fours & 0xffff) * 10_000 + (fours >> 32)
}

/// The number that eight bytes spell, if all are digits; each is given as the exclusive or with '0'.
#[inline(always)]
fn read_eight(word: u64) -> Option<u64>
    ensures value { (bytes : List ℕ) → IsWordOf bytes word → IfSome result (SpellsNumber bytes) }
    ensures bound { IfSome result (λ n. n < 2 ^ 30) }
{
    if !are_below_ten(word) {
        return None;
    }
    Some(number_of_eight(word))
}

/// The number that 1 to 8 digits at an offset of a page spell; None for others.
#[inline(always)]
pub fn usual_number(page: &[u8], at: usize, size: usize) -> Option<u64>
    requires { at + 8 ≤ length page.now }
    ensures value { IfSome result (λ n. digits_of 8 (chunk at size page.now) ≡ Some n) }
    ensures bound { IfSome result (λ n. n < 2 ^ 30) }
{
    if size == 0 || size > 8 {
        return None;
    }
    let word = word_at(page, at) ^ 0x3030_3030_3030_3030;
    read_eight(word << (64 - 8 * size))
}

/// The number that 1 to 8 digits at an offset of a page spell with zeros behind them, eight digits in all.
#[inline(always)]
fn filled_number(page: &[u8], at: usize, size: usize) -> Option<u64>
    requires within { at + 8 ≤ length page.now }
    requires some { 0 < size }
    requires few { size ≤ 8 }
    ensures value { IfSome result (IsFilledUp 8 (chunk at size page.now)) }
    ensures bound { IfSome result (λ n. n < 2 ^ 30) }
{
    let unused = 64 - 8 * size;
    let word = word_at(page, at) ^ 0x3030_3030_3030_3030;
    read_eight((word << unused) >> unused)
}

/// The number of the digit at an offset of a page, or 0 for none; more than 9 for any other byte.
#[inline(always)]
fn late_digit(page: &[u8], at: usize, is_there: bool) -> u64
    requires { at < length page.now }
    ensures digit { result ≡ (if is_there then bit_xor (slice_index page.now at) 48 else 0) }
    ensures bound { result < 256 }
{
    u64::from(page[at] ^ 48) * u64::from(is_there)
}

/// The number that 1 to 10 decimals at an offset of a page spell, in units of 10^-10; None for others.
#[inline(always)]
pub fn usual_decimals(page: &[u8], at: usize, size: usize) -> Option<u64>
    requires { at + 10 ≤ length page.now }
    ensures value { IfSome result (IsFilledUp 10 (chunk at size page.now)) }
    ensures bound { IfSome result (λ n. n < 10 ^ 10) }
{
    if size == 0 || size > 10 {
        return None;
    }
    let front = filled_number(page, at, size.min(8))?;
    let ninth = late_digit(page, at + 8, size > 8);
    let tenth = late_digit(page, at + 9, size > 9);
    if ninth > 9 || tenth > 9 {
        return None;
    }
    Some(front * 100 + ninth * 10 + tenth)
}
