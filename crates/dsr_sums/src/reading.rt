//! Reading a statement from a source, and adding its lines to the totals.
ghost use Rattle.std.specs.Prelude.{◌≡◌, ◌≤◌, ◌||◌, [], false, suc, List, OnOk, IfOk, IfErr, drop, take, length};
ghost use Rattle.dsr_statement.specs.declared.line.Line.{Line as LineValue};
ghost use Rattle.dsr_statement.specs.inner.After.{IsAfter};
ghost use Rattle.dsr_statement.specs.meaning.Order.{is_sealed};
ghost use Rattle.dsr_sums.specs.meaning.Statements.{key_of_line, either};
ghost use Rattle.dsr_sums.specs.inner.Readings.{Reads, TakesLine, TakesLines, HasNoLineFeed, IsRefusedAt, IsRefusedIn, FinishesAt, IsReadFrom};

use crate::kept::Kept;
use crate::reports::{Role, StatementReport};
use crate::totals::Totals;
use dsr_cells::{NoMemory, Text};
use dsr_io::{Failed, Source};
use dsr_ledger::ReportKey;
use dsr_statement::{LINE_LIMIT, Line, ReadError, ReportRef, StatementFault, StatementReader};
use dsr_texts::line_end;
use std::alloc::Global;

/// Why a statement is not read to its end.
#[derive(Debug, Clone, Copy, PartialEq, Eq)]
pub(crate) enum ReadingError {
    /// The number of the line, from 1, and the fault.
    Refused(u64, StatementFault),
    /// Memory was refused.
    Memory,
}

/// A statement that is being read.
#[derive(Drop)]
pub(crate) struct Reading {
    alloc: Global,
    role: Role,
    reader: StatementReader,
    /// The report that the statement is of.
    key: Option<ReportKey>,
}

/// The key of a report.
fn copy_key(alloc: Global, report: &ReportRef<'_>) -> Result<ReportKey, NoMemory>
    ensures { IfOk result (λ key. key ≡ report.now) }
{
    Ok(ReportKey {
        message_id: Text::copy_of(alloc, report.message_id)?,
        number_of_files: report.number_of_files,
        first_day: report.first_day,
        last_day: report.last_day,
    })
}

/// The key of the report that a line names.
fn key_in(alloc: Global, line: &Line<'_>) -> Result<Option<ReportKey>, NoMemory>
    ensures { IfOk result (λ key. key ≡ key_of_line line.now) }
{
    match line {
        Line::Report(report) => Ok(Some(copy_key(alloc, report)?)),
        _ => Ok(None),
    }
}

/// Whether a statement is taken that ends here: it is sealed, or need not be.
fn is_taken(reader: &StatementReader, unsealed: bool) -> bool
    ensures { (before : List LineValue) → IsAfter reader.now before
        → result ≡ unsealed || is_sealed before }
{
    unsealed || reader.is_sealed()
}

impl Reading {
    /// Nothing was read yet.
    pub(crate) fn new(alloc: Global, role: Role) -> Reading
        ensures reads { Reads result [] }
        ensures role { result.role ≡ role }
    {
        Reading {
            alloc,
            role,
            reader: StatementReader::new(alloc),
            key: None,
        }
    }

    /// The number of the next line, from 1.
    fn next_line(&self) -> u64
        ensures { (done : List LineValue) → Reads self.now done → result ≡ suc (length done) }
    {
        self.reader.next_line()
    }

    /// Takes a line, given without its line feed, and adds it to the totals.
    fn take(&mut self, bytes: &[u8], totals: &mut Totals) -> Result<(), ReadingError>
        ensures role { self.new.role ≡ self.old.role }
        ensures taken { (done : List LineValue) → Reads self.old done → OnOk result
            (TakesLine self.old self.new totals.old totals.new done bytes.now) }
        ensures refused { (done : List LineValue) → Reads self.old done → IfErr result
            (IsRefusedAt done bytes.now) }
    {
        let next_line = self.next_line();
        match self.reader.line(bytes) {
            Ok(line) => {
                if let Err(NoMemory) = totals.add(&line, self.role) {
                    return Err(ReadingError::Memory);
                }
                match self.keep_key(&line) {
                    Ok(()) => Ok(()),
                    Err(NoMemory) => Err(ReadingError::Memory),
                }
            }
            Err(ReadError::Fault(fault)) => Err(ReadingError::Refused(next_line, fault)),
            Err(ReadError::Memory) => Err(ReadingError::Memory),
        }
    }

    /// Keeps the report that a line names.
    fn keep_key(&mut self, line: &Line<'_>) -> Result<(), NoMemory>
        ensures role { self.new.role ≡ self.old.role }
        ensures reader { self.new.reader ≡ self.old.reader }
        ensures key { OnOk result (self.new.key ≡ either self.old.key (key_of_line line.now)) }
    {
        if self.key.is_none() {
            self.key = key_in(self.alloc, line)?;
        }
        Ok(())
    }

    /// Takes the whole lines of bytes. Returns how many bytes they have, with their line feeds.
    fn take_lines(&mut self, bytes: &[u8], totals: &mut Totals) -> Result<usize, ReadingError>
        ensures role { self.new.role ≡ self.old.role }
        ensures within { IfOk result (λ used. used ≤ length bytes.now) }
        ensures rest { IfOk result (λ used. HasNoLineFeed (drop used bytes.now)) }
        ensures taken { (done : List LineValue) → Reads self.old done → IfOk result (λ used.
            TakesLines self.old self.new totals.old totals.new done (take used bytes.now)) }
        ensures refused { (done : List LineValue) → Reads self.old done → IfErr result
            (IsRefusedIn done bytes.now) }
    {
        let mut used = 0;
        'lines: loop {
            let end = line_end(&bytes[used..]);
            if end == bytes.len() - used {
                return Ok(used);
            }
            match self.take(&bytes[used..used + end], totals) {
                Ok(()) => used += end + 1,
                Err(error) => return Err(error),
            }
        }
    }

    /// Ends reading with what follows the last line feed. Without a seal it is refused unless `unsealed`.
    fn finish(
        self,
        rest: &[u8],
        failed: bool,
        unsealed: bool,
    ) -> Result<StatementReport, ReadingError>
        ensures { (done : List LineValue) → Reads self done
            → FinishesAt unsealed self.role done rest.now failed result }
    {
        let end = self.next_line();
        let Reading {
            alloc: _,
            role,
            reader,
            key,
        } = self;
        if let Err(fault) = reader.finish(rest, failed) {
            return Err(ReadingError::Refused(end, fault));
        }
        if !is_taken(&reader, unsealed) {
            return Err(ReadingError::Refused(end, StatementFault::Unsealed));
        }
        let remark = reader.remark();
        match key {
            Some(key) => Ok(StatementReport { role, key, remark }),
            None => Err(ReadingError::Refused(1, StatementFault::NoReport)),
        }
    }
}

/// Reads a statement to its end or its first fault, and adds its lines to the totals. One without a seal is refused unless
/// `unsealed`.
pub(crate) fn read_statement<R: Source>(
    alloc: Global,
    source: &mut R,
    role: Role,
    unsealed: bool,
    totals: &mut Totals,
) -> Result<StatementReport, ReadingError>
    requires { (R.told source.old).failed ≡ false }
    ensures { IsReadFrom (R.told source.old) (R.told source.new) unsealed role totals.old totals.new
        result }
{
    let mut kept = Kept::new();
    let mut reading = Reading::new(alloc, role);
    'reads: for _ in 0..u64::MAX {
        if kept.as_slice().len() > LINE_LIMIT {
            return reading.finish(kept.as_slice(), false, unsealed);
        }
        match kept.read_behind(source) {
            Ok(0) => return reading.finish(kept.as_slice(), false, unsealed),
            Ok(_) => {}
            Err(Failed) => return reading.finish(kept.as_slice(), true, unsealed),
        }
        match reading.take_lines(kept.as_slice(), totals) {
            Ok(used) => kept.drop_front(used),
            Err(error) => return Err(error),
        }
    }
    Err(ReadingError::Memory)
}
