//! Reading the lines of a statement one after another.
ghost use Rattle.std.specs.Prelude.{◌≡◌, ◌==◌, ◌-ℤ◌, true, false, [], ◌∷◌, suc, List, length, reverse, Some, None, Ok, IfOk, IfErr, IfSome, OnOk, MatchResult, MatchOption, if◌then◌else◌};
ghost use Rattle.dsr_statement.specs.declared.line.Line.{Line as LineValue};
ghost use Rattle.dsr_ledger.specs.meaning.Bookings.{key_eq};
ghost use Rattle.dsr_statement.specs.meaning.Lines.{is_line};
ghost use Rattle.dsr_statement.specs.meaning.Order.{is_placed, adds_up, seals, placed, is_no_report, is_sealed, of_latest, ledger_follows, party_follows, unclaimed_follows};
ghost use Rattle.dsr_statement.specs.meaning.Status.{first_remark, status_of_lines, status_eq};
ghost use Rattle.dsr_statement.specs.meaning.Readings.{IsLineOf, IsNextLine, end_fault};
ghost use Rattle.dsr_statement.specs.inner.Near.{HasKey, is_key};
ghost use Rattle.dsr_statement.specs.inner.After.{IsAfter, IsErrorOf, kept, noted};

use crate::fault::{ReadError, StatementFault};
use crate::last::{Last, LastKey};
use crate::left::Left;
use crate::line::{KeyRef, Line, PartyRef};
use crate::near::near_line;
use crate::reading::{LINE_LIMIT, read_line};
use crate::remarks::is_remark;
use crate::verdict::Status;
use dsr_cells::{NoMemory, Text};
use dsr_texts::text_of;
use std::alloc::Global;

/// The lines of a statement that were read so far, as far as the next one depends on them.
#[derive(Drop)]
pub struct StatementReader {
    alloc: Global,
    last: Last,
    key: LastKey,
    party: Text,
    left: Left,
    /// The number of the next line, from 1.
    next: u64,
    /// The number of FILE lines.
    files: u64,
    /// The number of the first remark's line, from 1.
    remark: Option<u64>,
}

/// Whether it is the line of no report.
fn is_no_report(line: &Line<'_>) -> bool
    ensures { result ≡ is_no_report line.now }
{
    matches!(line, Line::NoReport)
}

/// Whether two statuses are the same.
fn is_same(one: Status, other: Status) -> bool
    ensures { result ≡ status_eq one other }
{
    matches!(one, Status::Remarks) == matches!(other, Status::Remarks)
}

impl StatementReader {
    /// No line was read yet.
    pub fn new(alloc: Global) -> StatementReader
        ensures { IsAfter result [] }
    {
        StatementReader {
            alloc,
            last: Last::Start,
            key: LastKey::new(),
            party: Text::default(),
            left: Left::of(0),
            next: 1,
            files: 0,
            remark: None,
        }
    }

    /// Reads the next line, given without its line feed. After an error nothing more is to be read.
    ///
    /// # Errors
    ///
    /// `Fault`: the fault of the line. `Memory`: out of memory.
    pub fn line<'l>(&mut self, bytes: &'l [u8]) -> Result<Line<'l>, ReadError>
        ensures found { (before : List LineValue) → IsAfter self.old before
            → IfOk result (λ l. IsNextLine before bytes.now (Ok l)) }
        ensures after { (before : List LineValue) → IsAfter self.old before
            → IfOk result (λ l. IsAfter self.new (l ∷ before)) }
        ensures refused { (before : List LineValue) → IsAfter self.old before
            → IfErr result (λ e. IsErrorOf e (IsNextLine before bytes.now)) }
    {
        match self.near_line(bytes) {
            Some(line) => match self.place(&line, true) {
                Ok(()) => Ok(line),
                Err(error) => Err(error),
            },
            None => self.any_line(bytes),
        }
    }

    /// The line that bytes are, if it has the last key and stands below its ledger line.
    #[inline(always)]
    fn near_line<'l>(&self, bytes: &'l [u8]) -> Option<Line<'l>>
        ensures key { IfSome result (HasKey self.now.key) }
        ensures spelled { (before : List LineValue) → IsAfter self.now before
            → IfSome result (λ l. IsLineOf bytes.now (Ok l)) }
    {
        if bytes.len() > LINE_LIMIT || !self.is_within() {
            return None;
        }
        near_line(text_of(bytes)?, &self.key)
    }

    /// Reads the next line, whatever its key is.
    #[inline(never)]
    fn any_line<'l>(&mut self, bytes: &'l [u8]) -> Result<Line<'l>, ReadError>
        ensures found { (before : List LineValue) → IsAfter self.old before
            → IfOk result (λ l. IsNextLine before bytes.now (Ok l)) }
        ensures after { (before : List LineValue) → IsAfter self.old before
            → IfOk result (λ l. IsAfter self.new (l ∷ before)) }
        ensures refused { (before : List LineValue) → IsAfter self.old before
            → IfErr result (λ e. IsErrorOf e (IsNextLine before bytes.now)) }
    {
        let line = match read_line(bytes) {
            Ok(line) => line,
            Err(fault) => return Err(ReadError::Fault(fault)),
        };
        match self.place(&line, false) {
            Ok(()) => Ok(line),
            Err(error) => Err(error),
        }
    }

    /// Keeps what the next line depends on of a line, if it may stand here. One that has the last key (`is_near`) is not
    /// compared with it.
    #[inline(always)]
    fn place(&mut self, line: &Line<'_>, is_near: bool) -> Result<(), ReadError>
        requires { is_near ≡ true → HasKey self.old.key line.now }
        ensures placed { (before : List LineValue) → IsAfter self.old before
            → OnOk result (placed before line.now ≡ Ok line.now) }
        ensures after { (before : List LineValue) → IsAfter self.old before → is_line line.now ≡ true
            → OnOk result (IsAfter self.new (line.now ∷ before)) }
        ensures refused { (before : List LineValue) → IsAfter self.old before
            → IfErr result (λ e. IsErrorOf e (λ r. placed before line.now ≡ r)) }
    {
        if let Some(fault) = self.fault_of(line, is_near) {
            return Err(ReadError::Fault(fault));
        }
        match self.keep(line) {
            Ok(()) => Ok(()),
            Err(NoMemory) => Err(ReadError::Memory),
        }
    }

    /// The fault of a line after those before it.
    #[inline(always)]
    fn fault_of(&self, line: &Line<'_>, is_near: bool) -> Option<StatementFault>
        requires { is_near ≡ true → HasKey self.now.key line.now }
        ensures { (before : List LineValue) → IsAfter self.now before → MatchOption result
            ((is_placed before line.now ≡ true) × (placed before line.now ≡ Ok line.now))
            (λ f. placed before line.now ≡ Err f) }
    {
        if !self.fits(line, is_near) {
            return Some(StatementFault::Place);
        }
        if !self.adds_up(line) {
            return Some(StatementFault::Sum);
        }
        if !self.seals(line) {
            return Some(StatementFault::Seal);
        }
        if is_no_report(line) {
            return Some(StatementFault::NoReport);
        }
        None
    }

    /// Ends reading, given what follows the last line feed, and whether a read failed.
    ///
    /// # Errors
    ///
    /// The fault of the end.
    pub fn finish(&self, rest: &[u8], failed: bool) -> Result<(), StatementFault>
        ensures { (before : List LineValue) → IsAfter self.now before → MatchResult result
            (λ _. end_fault before rest.now failed ≡ None)
            (λ f. end_fault before rest.now failed ≡ Some f) }
    {
        if rest.len() > LINE_LIMIT {
            return Err(StatementFault::LongLine);
        }
        if failed {
            return Err(StatementFault::Read);
        }
        if !rest.is_empty() || !self.last.may_end() {
            return Err(StatementFault::Cut);
        }
        Ok(())
    }

    /// The number of the next line, from 1.
    pub fn next_line(&self) -> u64
        ensures { (before : List LineValue) → IsAfter self.now before → result ≡ suc (length before) }
    {
        self.next
    }

    /// The number of the first remark's line, from 1.
    pub fn remark(&self) -> Option<u64>
        ensures { (before : List LineValue) → IsAfter self.now before
            → result ≡ first_remark 1 (reverse before) }
    {
        self.remark
    }

    /// Whether the last line is END.
    pub fn is_sealed(&self) -> bool
        ensures { (before : List LineValue) → IsAfter self.now before → result ≡ is_sealed before }
    {
        self.last.is_end()
    }

    /// Whether it is the last key. One that is known to be (`is_near`) is not compared.
    #[inline(always)]
    fn has_key(&self, key: &KeyRef<'_>, is_near: bool) -> bool
        requires { is_near ≡ true → key.now ≡ self.now.key }
        ensures { result ≡ key_eq self.now.key key.now }
    {
        is_near || self.key.is(key)
    }

    /// Whether the last line is a ledger line or one of a party: then the last key is its key.
    fn is_within(&self) -> bool
        ensures { (before : List LineValue) → IsAfter self.now before
            → result ≡ true → is_key self.now.key ≡ true }
    {
        matches!(self.last, Last::Ledger | Last::Party)
    }

    /// Whether a ledger line with this key may stand next.
    fn precedes_ledger(&self, key: &KeyRef<'_>) -> bool
        ensures { (before : List LineValue) → IsAfter self.now before
            → result ≡ of_latest false (ledger_follows key.now) before }
    {
        match self.last {
            Last::Unclaimed => self.key.is_below(key),
            last => last.is_summary(),
        }
    }

    /// Whether the line of a party with this key may stand next.
    #[inline(always)]
    fn precedes_party(&self, key: &KeyRef<'_>, party: &PartyRef<'_>, is_near: bool) -> bool
        requires { is_near ≡ true → key.now ≡ self.now.key }
        ensures { (before : List LineValue) → IsAfter self.now before
            → result ≡ of_latest false (party_follows key.now party.now.party) before }
    {
        self.precedes_unclaimed(key, is_near)
            && (matches!(self.last, Last::Ledger) || self.party.as_str() < party.party)
    }

    /// Whether an unclaimed amount with this key may stand next.
    #[inline(always)]
    fn precedes_unclaimed(&self, key: &KeyRef<'_>, is_near: bool) -> bool
        requires { is_near ≡ true → key.now ≡ self.now.key }
        ensures { (before : List LineValue) → IsAfter self.now before
            → result ≡ of_latest false (unclaimed_follows key.now) before }
    {
        matches!(self.last, Last::Ledger | Last::Party) && self.has_key(key, is_near)
    }

    /// Whether the line may stand next.
    #[inline(always)]
    fn fits(&self, line: &Line<'_>, is_near: bool) -> bool
        requires { is_near ≡ true → HasKey self.now.key line.now }
        ensures { (before : List LineValue) → IsAfter self.now before
            → result ≡ is_placed before line.now }
    {
        match line {
            Line::Report(_) | Line::NoReport => self.last.is_start(),
            Line::File(place, _) => self.last.precedes_file(*place),
            Line::Missing(number) => self.last.precedes_missing(*number),
            Line::Summary(difference) => self.last.precedes_summary(difference.file),
            Line::Ledger(key, _, _) => self.precedes_ledger(key),
            Line::Party(key, party) => self.precedes_party(key, party, is_near),
            Line::Unclaimed(key, _) => self.precedes_unclaimed(key, is_near),
            Line::Reject(reject) => { self.last.precedes_reject(reject.file, reject.position) }
            Line::Layout(_) => self.last.is_reject(),
            Line::Input(place, _) => self.last.precedes_input(*place) && *place <= self.files,
            Line::End(_, _) => self.last.precedes_end(self.files),
        }
    }

    /// Whether an unclaimed amount is what the parties leave, where it may stand next.
    fn adds_up(&self, line: &Line<'_>) -> bool
        ensures { (before : List LineValue) → IsAfter self.now before → is_placed before line.now ≡ true
            → result ≡ adds_up before line.now }
    {
        match line {
            Line::Unclaimed(_, amount) => self.left.is(*amount),
            _ => true,
        }
    }

    /// Whether END has the number of the lines before it, and their status.
    fn seals(&self, line: &Line<'_>) -> bool
        ensures { (before : List LineValue) → IsAfter self.now before → result ≡ seals before line.now }
    {
        match line {
            Line::End(count, status) => self.is_count(*count) && is_same(*status, self.status()),
            _ => true,
        }
    }

    /// Whether this is the number of the lines.
    fn is_count(&self, count: u64) -> bool
        ensures { (before : List LineValue) → IsAfter self.now before → result ≡ (count == length before) }
    {
        count < self.next && self.next - count == 1
    }

    /// The status of the lines.
    #[tactic(auto, using(crate::proofs::RemarkLines::any_remark))]
    fn status(&self) -> Status
        ensures { (before : List LineValue) → IsAfter self.now before → result ≡ status_of_lines before }
    {
        if self.remark.is_some() {
            Status::Remarks
        } else {
            Status::Clean
        }
    }

    /// Keeps the key and the amount of a ledger line.
    fn keep_ledger(&mut self, key: &KeyRef<'_>, amount: i128) -> Result<(), NoMemory>
        ensures { OnOk result (self.new ≡ record self.old { key = key.now; left = amount }) }
    {
        self.key.assign(self.alloc, key)?;
        self.left = Left::of(amount);
        Ok(())
    }

    /// Keeps the name of a party, and what it leaves.
    fn keep_party(&mut self, party: &PartyRef<'_>) -> Result<(), NoMemory>
        ensures { OnOk result (self.new ≡ record self.old
            { party = party.now.party; left = self.old.left -ℤ party.now.amount }) }
    {
        self.left.subtract(party.amount)?;
        self.party.assign(self.alloc, party.party)?;
        Ok(())
    }

    /// Notes a line with this number: whether it is of a file, and whether it is the first remark.
    #[cold]
    #[inline(never)]
    fn note(&mut self, number: u64, line: &Line<'_>) -> Result<(), NoMemory>
        ensures { OnOk result (self.new ≡ noted number line.now self.old) }
    {
        if let Line::File(_, _) = line {
            self.files = self.files.checked_add(1).ok_or(NoMemory)?;
        }
        if self.remark.is_none() && is_remark(line) {
            self.remark = Some(number);
        }
        Ok(())
    }

    /// Counts a line, and keeps what the next line depends on of it. Memory is refused where the count is at its end, which
    /// takes 2^64 lines.
    fn keep(&mut self, line: &Line<'_>) -> Result<(), NoMemory>
        ensures { OnOk result (self.new ≡ kept self.old line.now) }
    {
        let number = self.next;
        self.next = number.checked_add(1).ok_or(NoMemory)?;
        self.last = Last::of(line);
        match line {
            Line::Ledger(key, _, amount) => self.keep_ledger(key, *amount),
            Line::Party(_, party) => self.keep_party(party),
            Line::Unclaimed(_, _) => Ok(()),
            _ => self.note(number, line),
        }
    }
}
