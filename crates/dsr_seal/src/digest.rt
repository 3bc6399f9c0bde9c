//! The digest of bytes.
ghost use Rattle.std.specs.Prelude.{◌≡◌};
ghost use Rattle.hex.specs.Hex.{encode_lower};
ghost use Rattle.dsr_seal.specs.meaning.Digests.{digest_of};

use dsr_statement::DigestRef;
use hex::encode_to_slice;
use sha2::{Digest as _, Sha256};
use std::marker::Model;

/// How many bytes there are, and their SHA-256 (FIPS 180-4) as a text. Contracts see it as a `Digest` of dsr_statement.
#[derive(Drop)]
pub struct Digest {
    bytes: u64,
    sha256: [u8; 64],
}

impl Model for Digest {
    ghost use Rattle.std.specs.Prelude.{IsAscii};
    ghost use Rattle.dsr_statement.specs.meaning.Digests.{Digest};

    ghost Value = { Digest };

    ghost view = { λ d. record { bytes = d.bytes; sha256 = d.sha256 } };

    ghost invariant = { λ d. IsAscii d.sha256 };
}

impl Digest {
    /// The digest of these bytes.
    pub fn of(bytes: &[u8]) -> Digest
        ensures { result ≡ digest_of bytes.now }
    {
        Digest::new(bytes.len() as u64, &Sha256::digest(bytes))
    }

    /// The digest of so many bytes, which have this SHA-256.
    pub(crate) fn new(bytes: u64, sha256: &[u8; 32]) -> Digest
        ensures { result ≡ record { bytes = bytes; sha256 = encode_lower sha256.now } }
    {
        let mut text = [b'0'; 64];
        // There is room for two letters of each byte.
        let _ = encode_to_slice(sha256, &mut text);
        Digest {
            bytes,
            sha256: text,
        }
    }

    /// The same, as a line has it.
    pub fn as_ref(&self) -> DigestRef<'_>
        ensures { result ≡ self.now }
    {
        DigestRef {
            bytes: self.bytes,
            // SAFETY: the text is ASCII.
            sha256: unsafe { str::from_utf8_unchecked(&self.sha256) },
        }
    }
}
