//! Cutting the bytes of a text into lines.
ghost use Rattle.std.specs.Prelude.{◌≡◌, ◌++◌, ◌∷◌, [], ◌+◌, ◌<◌, ◌≤◌, length, List, ℕ, false, take, IfOk, IsTrue, vec_capacity};
ghost use Rattle.dsr_cells.specs.meaning.Lines.{line_limit, without_mark};

use dsr_cells::NoMemory;
use dsr_records::LINE_LIMIT;
use dsr_texts::line_end;
use std::alloc::Global;

/// The result of using bytes of a piece.
#[derive(Clone, Copy)]
pub(crate) enum Cut {
    /// The line continues.
    More,
    /// The line that is kept is complete.
    Kept,
    /// The bytes used are a complete line and its line feed.
    Here,
    /// The line is too long.
    Long,
}

/// The bytes of the line that is not complete yet.
#[derive(Drop)]
pub(crate) struct Cutter {
    pub(crate) bytes: Vec<u8>,
    /// The bytes may still become a byte order mark: they are all the bytes so far.
    pub(crate) fresh: bool,
    ghost room: { line_limit ≤ vec_capacity bytes },
    ghost short: { length bytes.items ≤ line_limit },
    ghost few: { IsTrue fresh → length bytes.items < 3 },
}

impl Cutter {
    ghost use Rattle.dsr_file.specs.inner.Cutting.{CutsTo, CutSteps, FitsCut, IsBetweenLines};

    /// An empty cutter, with room for the longest line.
    pub(crate) fn new(alloc: Global) -> Result<Cutter, NoMemory>
        ensures cuts { IfOk result (λ c. CutsTo c.bytes.items c.fresh [] []) }
        ensures empty { IfOk result (λ c. c.bytes.items ≡ []) }
    {
        let bytes = Vec::with_capacity(alloc, LINE_LIMIT)?;
        Ok(Cutter { bytes, fresh: true })
    }

    /// Uses bytes of a piece, up to the end of a line. Returns how many, and the result.
    pub(crate) fn take(&mut self, piece: &[u8]) -> (usize, Cut)
        requires { 0 < length piece.now }
        ensures some { 0 < result.0 }
        ensures bound { result.0 ≤ length piece.now }
        ensures cut { (b : List ℕ) (ps : List (List ℕ))
            → CutsTo self.old.bytes.items self.old.fresh b ps
            → CutSteps b (take result.0 piece.now) ps result.1 self.new }
        ensures fits { FitsCut result.1 (take result.0 piece.now) self.new }
        ensures kept { length self.new.bytes.items ≤ length self.old.bytes.items + result.0 }
    {
        if self.fresh {
            (1, self.first(piece[0]))
        } else {
            self.rest(piece)
        }
    }

    /// Uses a byte at the start of a text, which may belong to a byte order mark.
    fn first(&mut self, byte: u8) -> Cut
        requires { IsTrue self.old.fresh }
        ensures cut { (b : List ℕ) (ps : List (List ℕ))
            → CutsTo self.old.bytes.items self.old.fresh b ps
            → CutSteps b (byte ∷ []) ps result self.new }
        ensures fits { FitsCut result (byte ∷ []) self.new }
        ensures kept { length self.new.bytes.items ≤ length self.old.bytes.items + 1 }
    {
        if byte == b'\n' {
            self.fresh = false;
            return Cut::Kept;
        }
        self.bytes.push_reserved(byte);
        if self.bytes.len() == 3 {
            self.fresh = false;
            self.drop_mark();
        }
        Cut::More
    }

    /// Drops the bytes if they are the byte order mark.
    fn drop_mark(&mut self)
        requires few { length self.old.bytes.items ≡ 3 }
        requires fresh { self.old.fresh ≡ false }
        ensures bytes { self.new.bytes.items ≡ without_mark self.old.bytes.items }
        ensures kept { length self.new.bytes.items ≤ length self.old.bytes.items }
        ensures fresh { self.new.fresh ≡ false }
    {
        if self.bytes.as_slice() == [0xEF, 0xBB, 0xBF].as_slice() {
            self.bytes.clear();
        }
    }

    /// Uses bytes after the place of the mark, up to the end of a line.
    fn rest(&mut self, piece: &[u8]) -> (usize, Cut)
        requires some { 0 < length piece.now }
        requires fresh { self.old.fresh ≡ false }
        ensures some { 0 < result.0 }
        ensures bound { result.0 ≤ length piece.now }
        ensures cut { (b : List ℕ) (ps : List (List ℕ)) → CutsTo self.old.bytes.items false b ps
            → CutSteps b (take result.0 piece.now) ps result.1 self.new }
        ensures fits { FitsCut result.1 (take result.0 piece.now) self.new }
        ensures kept { length self.new.bytes.items ≤ length self.old.bytes.items + result.0 }
    {
        let end = line_end(piece);
        if end > LINE_LIMIT - self.bytes.len() {
            return (end, Cut::Long);
        }
        if end == piece.len() {
            self.append(piece);
            return (end, Cut::More);
        }
        if self.line().is_empty() {
            return (end + 1, Cut::Here);
        }
        self.append(&piece[..end]);
        (end + 1, Cut::Kept)
    }

    /// Appends bytes to the line. The room was allocated by `new`, so this cannot fail.
    fn append(&mut self, front: &[u8])
        requires short { length self.old.bytes.items + length front.now ≤ line_limit }
        requires fresh { self.old.fresh ≡ false }
        ensures bytes { self.new.bytes.items ≡ self.old.bytes.items ++ front.now }
        ensures fresh { self.new.fresh ≡ false }
    {
        let _ = self.bytes.extend_from_slice(front);
    }

    /// The bytes of the line so far.
    pub(crate) fn line(&self) -> &[u8]
        ensures value { result.now ≡ self.now.bytes.items }
        ensures short { length result.now ≤ line_limit }
    {
        self.bytes.as_slice()
    }

    /// Whether no byte of the next line is kept, and the place of the byte order mark is behind.
    #[inline(always)]
    pub(crate) fn is_between_lines(&self) -> bool
        ensures { IsTrue result → IsBetweenLines self.now }
    {
        !self.fresh && self.bytes.is_empty()
    }

    /// Begins the next line.
    pub(crate) fn clear(&mut self)
        ensures bytes { self.new.bytes.items ≡ [] }
        ensures fresh { self.new.fresh ≡ false }
    {
        self.bytes.clear();
        self.fresh = false;
    }
}
