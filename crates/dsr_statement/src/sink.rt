//! What takes the bytes of lines: bytes that grow, or a text that has to be the same.
ghost use Rattle.std.specs.Prelude.{◌≡◌, ◌≢◌, ◌↔◌, ◌++◌, [], true, ℕ, List, Some, MatchOption};
ghost use Rattle.std.specs.Option.{option_map};
ghost use Rattle.dsr_statement.specs.inner.Sinks.{Matches, matches_none, matches_both};

use std::marker::Model;

/// What takes bytes.
pub trait Sink {
    ghost took: { Self → List ℕ → Self → Type 0 };

    /// Takes these bytes.
    fn put(&mut self, bytes: &[u8])
        ensures { took self.old bytes.now self.new };

    ghost none: { (a : Self) → took a [] a };

    ghost both: { (a b c : Self) (x y : List ℕ) → took a x b → took b y c → took a (x ++ y) c };
}

/// What follows these bytes in a text that begins with them.
#[inline(always)]
fn rest_after<'t>(text: &'t [u8], bytes: &[u8]) -> Option<&'t [u8]>
    ensures { MatchOption result ((rest : List ℕ) → text.now ≢ bytes.now ++ rest)
        (λ rest. text.now ≡ bytes.now ++ rest.now) }
{
    let count = bytes.len();
    if count <= text.len() && &text[..count] == bytes {
        Some(&text[count..])
    } else {
        None
    }
}

/// What is left of a text after these bytes.
#[inline(always)]
fn rest_of<'t>(rest: Option<&'t [u8]>, bytes: &[u8]) -> Option<&'t [u8]>
    ensures { Matches (option_map (λ r. r.now) rest.entry) bytes.now (option_map (λ r. r.now) result) }
{
    match rest {
        Some(text) => rest_after(text, bytes),
        None => None,
    }
}

/// A text against which bytes are put. Contracts see it as what is left to be put, or None after other bytes.
#[derive(Drop)]
pub struct Match<'t> {
    rest: Option<&'t [u8]>,
}

impl<'t> Model for Match<'t> {
    ghost use Rattle.std.specs.Prelude.{ℕ, List, Option};
    ghost use Rattle.std.specs.Option.{option_map};

    ghost Value = { Option (List ℕ) };

    ghost view = { λ m. option_map (λ r. r.now) m.rest };
}

impl<'t> Match<'t> {
    /// All of the text is left to be put.
    pub fn new(text: &'t str) -> Match<'t>
        ensures { result ≡ Some text.now }
    {
        Match {
            rest: Some(text.as_bytes()),
        }
    }

    /// Whether exactly the text was put.
    pub fn is_done(&self) -> bool
        ensures { result ≡ true ↔ self.now ≡ Some [] }
    {
        match self.rest {
            Some(rest) => rest.is_empty(),
            None => false,
        }
    }
}

impl<'t> Sink for Match<'t> {
    ghost took = { Matches };

    #[inline(always)]
    fn put(&mut self, bytes: &[u8]) {
        self.rest = rest_of(self.rest, bytes);
    }

    ghost none = { matches_none };

    ghost both = { matches_both };
}
