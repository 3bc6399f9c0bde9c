//! What the bytes of a file hold: the end of a line, and texts of UTF-8 (RFC 3629).
ghost use Rattle.std.specs.Prelude.{◌≡◌, ◌≤◌, ◌==◌, length, MatchOption, IsUtf8};
ghost use Rattle.std.specs.List.{position_or_len};

use memchr::memchr;
use std::str;

/// The index of the first line feed, or the length if there is none.
pub fn line_end(bytes: &[u8]) -> usize
    ensures value { result ≡ position_or_len (λ b. b == 10) bytes.now }
    ensures bound { result ≤ length bytes.now }
{
    match memchr(b'\n', bytes) {
        Some(end) => end,
        None => bytes.len(),
    }
}

/// The bytes as a `str`, if they are UTF-8.
pub fn text_of(bytes: &[u8]) -> Option<&str>
    ensures { MatchOption result (¬ (IsUtf8 bytes.now))
        (λ t. (t.now ≡ bytes.now) × IsUtf8 bytes.now) }
{
    str::from_utf8(bytes).ok()
}
