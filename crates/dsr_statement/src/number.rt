//! The numbers that cells spell.
ghost use Rattle.std.specs.Prelude.{◌≡◌, ◌<◌, ◌≤◌, ◌^◌, ◌+◌, ◌++◌, length, IfSome, [], ◌∷◌, Some, pos, neg_ℤ};
ghost use Rattle.std.specs.Option.{option_map};
ghost use Rattle.dsr_cells.specs.meaning.Numbers.{digits_of};
ghost use Rattle.dsr_statement.specs.inner.Numbers.{below, has_leading_zero, number_in, usages_in, units_in, units_of_parts, amount_in, not_zero};

use crate::cut::at_point;
use dsr_cells::{read_number, usual_decimals, usual_number};

/// The number of the units of an amount of one.
const UNITS: u64 = 10_000_000_000;

/// Amounts have fewer units than this.
const MOST_UNITS: u128 = 1 << 123;

/// Whether more digits follow a zero.
fn leads_with_zero(text: &str) -> bool
    ensures { result ≡ has_leading_zero text.now }
{
    matches!(text.as_bytes(), [b'0', _, ..])
}

/// The number below the limit that digits spell, read one by one.
fn read_ones(bytes: &[u8], limit: u128) -> Option<u128>
    requires { limit ≤ 2 ^ 127 + 1 }
    ensures value { result ≡ below limit (digits_of (length bytes.now) bytes.now) }
    ensures bound { IfSome result (λ n. n < limit) }
{
    if bytes.is_empty() {
        return None;
    }
    let mut sum: u128 = 0;
    for byte in bytes {
        if !byte.is_ascii_digit() {
            return None;
        }
        let digit = u128::from(*byte - b'0');
        sum = sum.saturating_mul(10).saturating_add(digit);
    }
    if sum < limit { Some(sum) } else { None }
}

/// The number below the limit that digits spell.
fn read_digits(text: &str, limit: u128) -> Option<u128>
    requires { limit ≤ 2 ^ 127 + 1 }
    ensures value { result ≡ below limit (digits_of (length text.now) text.now) }
    ensures bound { IfSome result (λ n. n < limit) }
{
    if text.len() > 12 {
        return read_ones(text.as_bytes(), limit);
    }
    let number = u128::from(read_number(text)?);
    if number < limit { Some(number) } else { None }
}

/// The number below the limit that a text spells.
#[tactic(auto, unfolding(crate::specs::inner::Numbers::number_in))]
fn read_below(text: &str, limit: u128) -> Option<u128>
    requires { limit ≤ 2 ^ 127 + 1 }
    ensures value { result ≡ number_in limit text.now }
    ensures bound { IfSome result (λ n. n < limit) }
{
    if leads_with_zero(text) {
        return None;
    }
    read_digits(text, limit)
}

/// The number of 64 bits that a text spells.
pub(crate) fn read_u64(text: &str) -> Option<u64>
    ensures { result ≡ number_in (2 ^ 64) text.now }
{
    Some(read_below(text, 1 << 64)? as u64)
}

/// The number of 32 bits that a text spells.
pub(crate) fn read_u32(text: &str) -> Option<u32>
    ensures { result ≡ number_in (2 ^ 32) text.now }
{
    Some(read_below(text, 1 << 32)? as u32)
}

/// So many units; None for None.
fn positive(number: Option<u128>) -> Option<i128>
    requires { IfSome number (λ n. n < 2 ^ 127) }
    ensures { result ≡ option_map pos number }
{
    Some(number? as i128)
}

/// So many units below zero; None for None and for zero.
fn negative(number: Option<u128>) -> Option<i128>
    requires { IfSome number (λ n. n ≤ 2 ^ 127) }
    ensures { result ≡ option_map (λ n. neg_ℤ (pos n)) (not_zero number) }
{
    match number? {
        0 => None,
        units => Some(-((units - 1) as i128) - 1),
    }
}

/// The usages that a text spells.
pub(crate) fn read_usages(text: &str) -> Option<i128>
    ensures { result ≡ usages_in text.now }
{
    match text.strip_prefix('-') {
        Some(rest) => negative(read_below(rest, (1 << 127) + 1)),
        None => positive(read_below(text, 1 << 127)),
    }
}

/// The units that 1 to 8 digits and, behind a point, ten decimals of a text spell, read by words; None for others.
#[inline(always)]
fn usual_parts(text: &str, whole: &str, decimals: &str) -> Option<u64>
    requires text { text.now ≡ whole.now ++ 46 ∷ decimals.now }
    requires ten { length decimals.now ≡ 10 }
    ensures { IfSome result (λ n.
        units_of_parts (2 ^ 123) (whole.now ∷ decimals.now ∷ []) ≡ Some n) }
{
    if leads_with_zero(whole) {
        return None;
    }
    let front = usual_number(text.as_bytes(), 0, whole.len())?;
    let units = usual_decimals(decimals.as_bytes(), 0, 10)?;
    Some(front * UNITS + units)
}

/// The units that a whole part and ten decimals spell.
fn read_parts(whole: &str, decimals: &str) -> Option<u128>
    requires { length decimals.now ≡ 10 }
    ensures value { result ≡ units_of_parts (2 ^ 123) (whole.now ∷ decimals.now ∷ []) }
    ensures bound { IfSome result (λ n. n < 2 ^ 123) }
{
    let units = u128::from(read_number(decimals)?);
    let whole = read_below(whole, MOST_UNITS)?;
    let sum = whole.checked_mul(UNITS as u128)?.checked_add(units)?;
    if sum < MOST_UNITS { Some(sum) } else { None }
}

/// The units that a text without a sign spells.
fn read_units(text: &str) -> Option<u128>
    ensures value { result ≡ units_in (2 ^ 123) text.now }
    ensures bound { IfSome result (λ n. n < 2 ^ 123) }
{
    match at_point(text) {
        Some((whole, decimals)) => match usual_parts(text, whole, decimals) {
            Some(units) => Some(u128::from(units)),
            None => read_parts(whole, decimals),
        },
        None => None,
    }
}

/// The amount that a text spells, in units of 10^-10.
pub(crate) fn read_amount(text: &str) -> Option<i128>
    ensures { result ≡ amount_in text.now }
{
    match text.strip_prefix('-') {
        Some(rest) => negative(read_units(rest)),
        None => positive(read_units(text)),
    }
}
