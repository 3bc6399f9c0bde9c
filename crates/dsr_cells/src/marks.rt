//! Searching for the first pipe or backslash, several bytes at a time.
ghost use Rattle.std.specs.Prelude.{◌≡◌, ◌+◌, ◌≤◌, ◌<◌, ◌==◌, ◌||◌, IfSome, not, length, map};
ghost use Rattle.std.specs.List.{position, prefix_len};
ghost use Rattle.std.specs.Option.{unwrap_or};
ghost use Rattle.std.specs.Simd.Lanes.{mask_l, chunk};

use std::simd::Simd;
use std::simd::prelude::*;

/// The pipes and backslashes of the `N` bytes from offset `at`: bit k is set if byte k is one. The two differ in
/// the bit of value 32 alone, so with that bit set both are pipes.
#[inline(always)]
fn marks_of<const N: usize>(bytes: &[u8], at: usize) -> u64
    requires few { N ≤ 64 }
    requires within { at + N ≤ length bytes.now }
    ensures { result ≡ mask_l (map (λ b. (b == 124) || (b == 92)) (chunk at N bytes.now)) }
{
    let run = Simd::<u8, N>::from_slice(&bytes[at..]);
    (run | Simd::splat(32))
        .simd_eq(Simd::splat(b'|'))
        .to_bitmask()
}

/// How many of the `N` bytes from offset `at` come before the first pipe or backslash; None if there is none.
#[inline(always)]
fn plain_of<const N: usize>(bytes: &[u8], at: usize) -> Option<usize>
    requires few { N ≤ 64 }
    requires within { at + N ≤ length bytes.now }
    ensures count { unwrap_or result N
        ≡ prefix_len (λ b. not ((b == 124) || (b == 92))) (chunk at N bytes.now) }
    ensures few { IfSome result (λ n. n < N) }
{
    let marks = marks_of::<N>(bytes, at);
    if marks == 0 {
        return None;
    }
    Some(marks.trailing_zeros() as usize)
}

/// The index of the first pipe or backslash of `N` bytes or more. The last vector may overlap the one before it.
#[inline(always)]
fn first_by<const N: usize>(bytes: &[u8]) -> Option<usize>
    requires some { 0 < N }
    requires few { N ≤ 64 }
    requires long { N ≤ length bytes.now }
    ensures { result ≡ position (λ b. (b == 124) || (b == 92)) bytes.now }
{
    let last = bytes.len() - N;
    let mut at = 0;
    while at < last {
        if let Some(plain) = plain_of::<N>(bytes, at) {
            return Some(at + plain);
        }
        at += N;
    }
    let plain = plain_of::<N>(bytes, last)?;
    Some(last + plain)
}

/// The index of the first pipe or backslash.
#[inline(always)]
pub(crate) fn first_mark(bytes: &[u8]) -> Option<usize>
    ensures { result ≡ position (λ b. (b == 124) || (b == 92)) bytes.now }
{
    if bytes.len() >= 16 {
        return first_by::<16>(bytes);
    }
    if bytes.len() >= 8 {
        return first_by::<8>(bytes);
    }
    if bytes.len() >= 4 {
        return first_by::<4>(bytes);
    }
    bytes
        .iter()
        .position(|byte| *byte == b'|' || *byte == b'\\')
}
