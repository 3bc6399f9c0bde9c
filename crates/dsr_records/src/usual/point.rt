//! The point of an amount, found by one look at 16 bytes.
ghost use Rattle.std.specs.Prelude.{◌≡◌, ◌+◌, ◌≤◌, ◌==◌, not, length, map};
ghost use Rattle.std.specs.List.{prefix_len};
ghost use Rattle.std.specs.Simd.Lanes.{chunk, mask_l};

use std::simd::prelude::*;

/// How many of the 16 bytes from an offset of a page come before the first point; 16 if there is none.
#[inline(always)]
pub(crate) fn point_in_16(page: &[u8], at: usize) -> usize
    requires { at + 16 ≤ length page.now }
    ensures { result ≡ prefix_len (λ b. not (b == 46)) (chunk at 16 page.now) }
{
    let points = points_in_16(page, at);
    if points == 0 {
        16
    } else {
        points.trailing_zeros() as usize
    }
}

/// The points among the 16 bytes from an offset of a page: bit k is set if byte k is one.
#[inline(always)]
fn points_in_16(page: &[u8], at: usize) -> u64
    requires { at + 16 ≤ length page.now }
    ensures { result ≡ mask_l (map (λ b. b == 46) (chunk at 16 page.now)) }
{
    u8x16::from_slice(&page[at..])
        .simd_eq(u8x16::splat(b'.'))
        .to_bitmask()
}
