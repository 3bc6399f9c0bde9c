//! Hashers with a seed, against hash flooding.
use std::hash::{BuildHasher, FoldHasher, Hasher};

/// Builds hashers from a seed, so that whoever chooses the keys cannot make them collide.
#[derive(Clone, Copy)]
pub struct Seeded {
    first: FoldHasher,
}

impl Seeded {
    /// Hashers with this seed.
    pub fn with_seed(seed: u64) -> Seeded {
        let mut first = FoldHasher::default();
        first.write_u64(seed);
        Seeded { first }
    }
}

impl BuildHasher for Seeded {
    type Hasher = FoldHasher;

    ghost build_hasher = { λ s. s.first };

    fn build_hasher(&self) -> FoldHasher {
        self.first
    }
}
