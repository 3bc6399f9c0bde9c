//! Outlets: destinations of bytes.
ghost use Rattle.std.specs.Prelude.{◌≡◌, ◌<◌, ◌≤◌, ◌+◌, true, false, length, take, MatchResult};
ghost use Rattle.std.specs.Io.KnownBytes.{WriteAppends, Keeps};
ghost use Rattle.dsr_io.specs.meaning.Written.{Written, Counts, IsCut};
ghost use Rattle.dsr_io.specs.layer.Written.{IsTaken};

use crate::source::Failed;

/// A destination of bytes, which knows whether a write or a flush has failed and counts its bytes and flushes.
pub trait Outlet {
    /// What it holds, how many bytes it took, whether it has failed, how often it was flushed, and
    /// whether it has unflushed bytes.
    ghost told: { Self → Written };

    /// Takes one or more first bytes of a piece, which is not empty, and returns how many. An outlet
    /// that took 2^64 - 1 bytes takes no more.
    ///
    /// # Errors
    ///
    /// `Failed`: the write failed, and no byte of the piece was taken.
    fn write(&mut self, piece: &[u8]) -> Result<usize, Failed>
        requires { 0 < length piece.now }
        ensures count { MatchResult result
            (λ n. (0 < n) × (n ≤ length piece.now) × Counts n (told self.old) (told self.new))
            (λ _. (told self.new).taken ≡ (told self.old).taken) }
        ensures bytes { WriteAppends (told self.old).contents (told self.new).contents
            result piece.now }
        ensures failed { MatchResult result
            (λ _. (told self.new).failed ≡ (told self.old).failed)
            (λ _. (told self.new).failed ≡ true) }
        ensures flushes { ((told self.new).flushes ≡ (told self.old).flushes)
            × MatchResult result (λ _. (told self.new).unflushed ≡ true)
            (λ _. (told self.new).unflushed ≡ (told self.old).unflushed) };

    /// Flushes the bytes that it took.
    ///
    /// # Errors
    ///
    /// `Failed`: the flush failed. The bytes are still held.
    fn flush(&mut self) -> Result<(), Failed>
        ensures bytes { Keeps (told self.old).contents (told self.new).contents
            × ((told self.new).taken ≡ (told self.old).taken) }
        ensures failed { MatchResult result
            (λ _. (told self.new).failed ≡ (told self.old).failed)
            (λ _. (told self.new).failed ≡ true) }
        ensures flushes { MatchResult result
            (λ _. ((told self.new).flushes ≡ (told self.old).flushes + 1)
            × ((told self.new).unflushed ≡ false))
            (λ _. ((told self.new).flushes ≡ (told self.old).flushes)
            × ((told self.new).unflushed ≡ (told self.old).unflushed)) };

    /// Whether a write or a flush has failed.
    fn failed(&self) -> bool
        ensures { result ≡ (told self.now).failed };
}

/// Writes all bytes.
///
/// # Errors
///
/// How many of the bytes were written before a write failed.
pub fn write_all<W: Outlet>(out: &mut W, bytes: &[u8]) -> Result<(), usize>
    ensures written { MatchResult result
        (λ _. IsTaken bytes.now (W.told out.old) (W.told out.new))
        (λ n. (n ≤ length bytes.now) × IsCut (take n bytes.now) (W.told out.old) (W.told out.new)) }
{
    let mut written = 0;
    while written < bytes.len() {
        match out.write(&bytes[written..]) {
            Ok(n) => written += n,
            Err(Failed) => return Err(written),
        }
    }
    Ok(())
}
