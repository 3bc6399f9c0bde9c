//! Shares of a work.
ghost use Rattle.std.specs.Prelude.{◌≡◌, ◌≤◌};
ghost use Rattle.dsr_cells.specs.meaning.Numbers.{share_of};

use crate::number::read_decimal;
use std::marker::Model;

/// A party's share of a work, from 0 to 100 percent.
///
/// Contracts see it as its units of 0.0001 percent, from 0 to 1,000,000.
#[derive(Clone, Copy, PartialEq, Eq)]
pub struct Share {
    parts: u32,
}

impl Model for Share {
    ghost use Rattle.std.specs.Prelude.{ℕ, ◌≤◌};

    ghost Value = { ℕ };

    ghost view = { λ a. a.parts };

    ghost invariant = { λ a. a.parts ≤ 1_000_000 };

    ghost inverse = { λ n. record { parts = n } };
}

impl Default for Share {
    ghost is_default = { λ share. share ≡ 0 };

    fn default() -> Share {
        Share { parts: 0 }
    }
}

impl Share {
    /// The share that the text spells, in percent: 1 to 3 digits and, optionally, a point and 1 to 4
    /// digits after it, at most 100. None for every other text.
    #[inline(always)]
    pub fn read(text: &str) -> Option<Share>
        ensures { result ≡ share_of text.now }
    {
        let (whole, decimals) = read_decimal(text.as_bytes(), 3, 4)?;
        let parts = whole * 10_000 + decimals;
        if parts > 1_000_000 {
            return None;
        }
        Some(Share {
            parts: parts as u32,
        })
    }

    /// The share in units of 0.0001 percent, from 0 to 1,000,000.
    pub fn parts(&self) -> u32
        ensures value { result ≡ self.now }
        ensures bound { result ≤ 1_000_000 }
    {
        self.parts
    }
}
