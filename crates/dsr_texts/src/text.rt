//! Texts that outlive their line.
ghost use Rattle.std.specs.Prelude.{◌≡◌, [], IfOk, OnOk, OnErr, Some, refl};
ghost use Rattle.std.specs.String.{string_bytes};
ghost use Rattle.std.specs.Cmp.{partial_equiv_from_equiv};
ghost use Rattle.std.specs.Cmp.Rules.{hashing};
ghost use Rattle.std.specs.Cmp.Lexicographic.{slice_cmp, nat_list_eq_equiv, nat_list_cmp_total, texts_po, texts_ties};
ghost use Rattle.std.specs.Str.{bytes_eq};
ghost use Rattle.std.specs.Ordering.{nat_cmp};
ghost use Rattle.std.specs.Hash as fed;
ghost use Rattle.std.proofs.Common.{rules};

use crate::inline_items::InlineItems;
use crate::short::{SHORT, ShortText};
use std::alloc::{AllocError, AllocFailed, Global};
use std::cmp::Ordering;
use std::hash::{Hash, Hasher};
use std::marker::Model;
use std::mem::size_of;

/// The error of a call that allocates: memory was refused.
#[derive(Clone, Copy, Debug, PartialEq, Eq)]
pub struct NoMemory;

impl From<AllocError> for NoMemory {
    fn from(_error: AllocError) -> NoMemory {
        NoMemory
    }
}

impl<T: Drop> From<AllocFailed<T>> for NoMemory {
    fn from(_refused: AllocFailed<T>) -> NoMemory {
        NoMemory
    }
}

/// The bytes of a text: in place if there are at most 22, otherwise on the heap.
///
/// The string is boxed so that a text takes 24 bytes and not 32.
#[derive(Drop)]
enum Kept {
    Short(ShortText),
    Long(Box<String>),
}

/// A UTF-8 text that outlives its line. It takes 24 bytes, and stores up to 22 bytes of text in place.
///
/// Contracts see it as the list of its bytes. Texts are ordered by their bytes; a proper prefix of a
/// text comes before it.
pub struct Text {
    kept: Kept,
}

/// Written out, so that dropping one is a call: a derived drop is proved anew wherever it happens.
impl Drop for Text {
    fn drop(self) {
        let Text { kept: _ } = self;
    }
}

impl Model for Text {
    ghost use Rattle.std.specs.Prelude.{List, ℕ};
    ghost use Rattle.dsr_texts.specs.inner.Kept.{kept_bytes};

    ghost Value = { List ℕ };

    ghost view = { λ t. kept_bytes t.kept };
}

/// A list of texts.
pub type Texts = InlineItems<Text, 2>;

impl Text {
    /// The text of a string. If the text is long, it keeps the string's memory.
    ///
    /// # Errors
    ///
    /// `NoMemory`: out of memory.
    pub fn of_string(alloc: Global, string: String) -> Result<Text, NoMemory>
        ensures { IfOk result (λ t. t ≡ string_bytes string) }
    {
        if string.len() <= SHORT {
            return Ok(Text {
                kept: Kept::Short(ShortText::copy_of(string.as_str())),
            });
        }
        Ok(Text {
            kept: Kept::Long(Box::new(alloc, string)?),
        })
    }

    /// A text with the same bytes, on the heap.
    #[inline(never)]
    fn long_copy(alloc: Global, text: &str) -> Result<Text, NoMemory>
        ensures { IfOk result (λ t. t ≡ text.now) }
    {
        let string = String::from_str(alloc, text)?;
        Ok(Text {
            kept: Kept::Long(Box::new(alloc, string)?),
        })
    }

    /// A text with the same bytes.
    ///
    /// # Errors
    ///
    /// `NoMemory`: out of memory.
    #[inline(always)]
    pub fn copy_of(alloc: Global, text: &str) -> Result<Text, NoMemory>
        ensures { IfOk result (λ t. t ≡ text.now) }
    {
        if text.len() > SHORT {
            return Text::long_copy(alloc, text);
        }
        Ok(Text {
            kept: Kept::Short(ShortText::copy_of(text)),
        })
    }

    /// The text as a `str`; nothing is copied.
    pub fn as_str(&self) -> &str
        ensures { result.now ≡ self.now }
    {
        match &self.kept {
            Kept::Short(short) => short.as_str(),
            Kept::Long(string) => string.as_str(),
        }
    }

    /// A second text with the same bytes.
    ///
    /// # Errors
    ///
    /// `NoMemory`: out of memory.
    pub fn copy(&self, alloc: Global) -> Result<Text, NoMemory>
        ensures { IfOk result (λ t. t ≡ self.now) }
    {
        match &self.kept {
            Kept::Short(short) => Ok(Text {
                kept: Kept::Short(short.copy()),
            }),
            Kept::Long(string) => Text::long_copy(alloc, string.as_str()),
        }
    }

    /// Writes another text over this one. A long text written over a long one reuses its memory.
    ///
    /// # Errors
    ///
    /// `NoMemory`: out of memory; this text is unchanged.
    #[inline(always)]
    pub fn assign(&mut self, alloc: Global, text: &str) -> Result<(), NoMemory>
        ensures written { OnOk result (self.new ≡ text.now) }
        ensures refused { OnErr result (self.new ≡ self.old) }
    {
        if text.len() > SHORT {
            return self.assign_long(alloc, text);
        }
        match &mut self.kept {
            Kept::Short(short) => short.assign(text),
            Kept::Long(_) => self.kept = Kept::Short(ShortText::copy_of(text)),
        }
        Ok(())
    }

    /// Whether the other text has the same bytes; not inlined, for the rarer texts on the heap.
    #[inline(never)]
    fn equals_long(&self, other: &Text) -> bool
        ensures { result ≡ bytes_eq self.now other.now }
    {
        self.as_str() == other.as_str()
    }

    /// Writes a text over this one, on the heap.
    #[inline(never)]
    fn assign_long(&mut self, alloc: Global, text: &str) -> Result<(), NoMemory>
        ensures written { OnOk result (self.new ≡ text.now) }
        ensures refused { OnErr result (self.new ≡ self.old) }
    {
        match &mut self.kept {
            Kept::Long(string) => write_over(string, text),
            Kept::Short(_) => {
                *self = Text::long_copy(alloc, text)?;
                Ok(())
            }
        }
    }
}

/// Writes a text over a string, whose memory is reused.
fn write_over(string: &mut String, text: &str) -> Result<(), NoMemory>
    ensures written { OnOk result (string_bytes string.new ≡ text.now) }
    ensures refused { OnErr result (string_bytes string.new ≡ string_bytes string.old) }
{
    if string.capacity() < text.len() {
        string.reserve(text.len() - string.len())?;
    }
    string.clear();
    string.push_str(text)?;
    Ok(())
}

const _: () = prove!(size_of::<Text>() == 24);

impl Default for Text {
    ghost is_default = { λ t. t ≡ [] };

    fn default() -> Text {
        Text {
            kept: Kept::Short(ShortText::copy_of("")),
        }
    }
}

impl PartialEq for Text {
    ghost eq = { bytes_eq };

    ghost laws = { partial_equiv_from_equiv nat_list_eq_equiv };

    #[inline(always)]
    fn eq(&self, other: &Text) -> bool {
        match (&self.kept, &other.kept) {
            (Kept::Short(short), Kept::Short(other)) => short.equals(other),
            _ => self.equals_long(other),
        }
    }
}

impl Eq for Text {
    ghost laws = { nat_list_eq_equiv };
}

impl Hash for Text {
    ghost hash_input = { fed.str };

    ghost respects_eq = { Prim.search (hashing, rules) };

    fn hash<H: Hasher>(&self, state: &mut H) {
        self.as_str().hash(state);
    }
}

impl PartialOrd for Text {
    ghost partial_cmp = { λ x y. Some (slice_cmp nat_cmp x y) };

    ghost laws = { texts_po };

    fn partial_cmp(&self, other: &Text) -> Option<Ordering> {
        Some(self.cmp(other))
    }
}

impl Ord for Text {
    ghost cmp = { slice_cmp nat_cmp };

    ghost total = { nat_list_cmp_total };

    ghost matches_partial_cmp = { λ x y. refl };

    ghost matches_eq = { texts_ties };

    fn cmp(&self, other: &Text) -> Ordering {
        self.as_str().cmp(other.as_str())
    }
}
