//! Taking the lines of a file one after another, each with the event that it closes or the fault that ends the file.
ghost use Rattle.std.specs.Prelude.{◌≡◌, ◌+◌, ◌-◌, ◌<◌, ◌≤◌, ◌^◌, [], length, List, None, option_and_then};
ghost use Rattle.dsr_cells.specs.meaning.Lines.{line_limit};
ghost use Rattle.dsr_records.specs.inner.Rows.{record_seen};
ghost use Rattle.dsr_file.specs.meaning.Readings.{file_fault};
ghost use Rattle.dsr_file.specs.inner.Stages.{foot_in, summary_count};

use crate::closed::Closed;
use crate::stage::Stage;
use dsr_events::{Ending, EventPart, FileFault, Outcome};
use dsr_records::{CheckedLine, Foot, Layout, RecordFault, check_line, is_left_out, strip_return};
use dsr_texts::text_of;
use std::alloc::Global;

/// The result of taking a line.
#[derive(Clone, Copy)]
pub(crate) enum Step {
    /// The line is good.
    Good,
    /// The line ends the file with this fault.
    Faulty(FileFault),
    /// Memory was refused.
    NoMemory,
}

/// The lines so far, all of which were good.
#[derive(Drop)]
pub(crate) struct Grammar {
    pub(crate) stage: Stage,
    pub(crate) lines: u64,
    pub(crate) skipped_lines: u64,
    pub(crate) skipped_records: u64,
    pub(crate) records: u64,
    pub(crate) summaries: u64,
    pub(crate) blocks: u64,
    ghost all: { records + skipped_records + skipped_lines ≤ lines },
    ghost few_summaries: { summaries ≤ records },
    ghost few_blocks: { blocks ≤ records },
}

impl Grammar {
    ghost use Rattle.dsr_file.specs.declared.grammar.Step.{Step};
    ghost use Rattle.dsr_file.specs.meaning.Readings.{Reading, SkippedLine, Holds, reading, of_utf8};
    ghost use Rattle.dsr_events.specs.declared.record.Record.TheVariants as the;
    ghost use Rattle.dsr_file.specs.inner.Grammars.{Keeps, LineSteps, IsRecord, kept_count_fault};
    ghost use Rattle.dsr_file.specs.inner.Stages.{column_at, IsMember};
    ghost use Rattle.dsr_file.specs.meaning.Texts.{outcome_at};

    /// A grammar that has taken no line.
    pub(crate) fn new() -> Grammar
        ensures { Keeps result [] }
    {
        Grammar {
            stage: Stage::Start,
            lines: 0,
            skipped_lines: 0,
            skipped_records: 0,
            records: 0,
            summaries: 0,
            blocks: 0,
        }
    }

    /// The fault of FOOT's counts, if there is one. FOOT itself is already counted. Not inlined, since a file has one.
    #[inline(never)]
    fn count_fault(&self, foot: Foot) -> Option<FileFault>
        requires { self.now.lines < 2 ^ 40 }
        ensures { result ≡ kept_count_fault self.now foot }
    {
        let all = self.records + self.skipped_records;
        if foot.lines != all && foot.lines != all + self.skipped_lines {
            return Some(FileFault::FootLines);
        }
        if foot.summaries != self.summaries {
            return Some(FileFault::FootSummaries);
        }
        if foot.blocks != self.blocks {
            return Some(FileFault::FootBlocks);
        }
        None
    }

    /// Counts a record, with the summaries that it is (0 or 1) and the blocks that it closes (0 or 1).
    fn count(&mut self, summaries: u64, blocks: u64)
        requires lines { self.old.lines < 2 ^ 40 }
        requires summaries { summaries ≤ 1 }
        requires blocks { blocks ≤ 1 }
        ensures lines { self.new.lines ≡ self.old.lines + 1 }
        ensures records { self.new.records ≡ self.old.records + 1 }
        ensures summaries { self.new.summaries ≡ self.old.summaries + summaries }
        ensures blocks { self.new.blocks ≡ self.old.blocks + blocks }
        ensures skipped_lines { self.new.skipped_lines ≡ self.old.skipped_lines }
        ensures skipped_records { self.new.skipped_records ≡ self.old.skipped_records }
        ensures stage { self.new.stage ≡ self.old.stage }
    {
        self.lines += 1;
        self.records += 1;
        self.summaries += summaries;
        self.blocks += blocks;
    }

    /// Counts a skipped line.
    fn skip_line(&mut self)
        requires { self.old.lines < 2 ^ 40 - 1 }
        ensures steps { (ls : List Reading) → Keeps self.old ls
            → LineSteps ls SkippedLine Step.Good None self.new }
        ensures lines { self.new.lines ≡ self.old.lines + 1 }
    {
        self.lines += 1;
        self.skipped_lines += 1;
    }

    /// Counts a record of a skipped type.
    fn skip_record(&mut self)
        requires { self.old.lines < 2 ^ 40 - 1 }
        ensures steps { (ls : List Reading) → Keeps self.old ls
            → LineSteps ls (Holds the.Skipped) Step.Good None self.new }
        ensures lines { self.new.lines ≡ self.old.lines + 1 }
    {
        self.lines += 1;
        self.skipped_records += 1;
    }

    /// Takes a work or a usage, which closes nothing.
    #[inline(always)]
    fn member(&mut self, alloc: Global, line: CheckedLine<'_>) -> Step
        requires lines { self.old.lines < 2 ^ 40 - 1 }
        requires member { IsMember (record_seen line) }
        ensures steps { (ls : List Reading) → Keeps self.old ls
            → LineSteps ls (Holds (record_seen line.entry)) result None self.new }
        ensures counts { self.new.lines ≤ self.old.lines + 1 }
    {
        if let Some(wrong) = self.stage.fault(line.kind(), line.id()) {
            return Step::Faulty(wrong);
        }
        let Ok(()) = self.stage.add_member(alloc, &line) else {
            return Step::NoMemory;
        };
        self.count(0, 0);
        Step::Good
    }

    /// Takes a record that is not of a skipped type; `closed` becomes what it closes.
    #[inline(always)]
    fn record(&mut self, alloc: Global, line: CheckedLine<'_>, closed: &mut Closed) -> Step
        requires lines { self.old.lines < 2 ^ 40 - 1 }
        requires none { closed.old ≡ None }
        ensures steps { (ls : List Reading) → Keeps self.old ls → IsRecord (record_seen line.entry)
            → LineSteps ls (Holds (record_seen line.entry)) result closed.new self.new }
        ensures counts { self.new.lines ≤ self.old.lines + 1 }
    {
        if let Some(fault) = self.stage.fault(line.kind(), line.id()) {
            return Step::Faulty(fault);
        }
        let Ok(()) = self.stage.add(alloc, &line, closed) else {
            return Step::NoMemory;
        };
        self.count(summary_count(&line), closed.block_count());
        match self.fault_at_foot(&line) {
            Some(wrong) => Step::Faulty(wrong),
            None => Step::Good,
        }
    }

    /// The same as `record`, not inlined, for the few lines of a file that are in no block.
    #[inline(never)]
    fn record_apart(&mut self, alloc: Global, line: CheckedLine<'_>, closed: &mut Closed) -> Step
        requires lines { self.old.lines < 2 ^ 40 - 1 }
        requires none { closed.old ≡ None }
        ensures steps { (ls : List Reading) → Keeps self.old ls → IsRecord (record_seen line.entry)
            → LineSteps ls (Holds (record_seen line.entry)) result closed.new self.new }
        ensures counts { self.new.lines ≤ self.old.lines + 1 }
    {
        self.record(alloc, line, closed)
    }

    /// Takes a line whose cells have no fault; `closed` becomes what the line closes. What is inlined here, once for each kind
    /// that blocks are made of, need not match the kind again.
    #[inline(always)]
    pub(crate) fn checked(
        &mut self,
        alloc: Global,
        line: CheckedLine<'_>,
        closed: &mut Closed,
    ) -> Step
        requires lines { self.old.lines < 2 ^ 40 - 1 }
        requires none { closed.old ≡ None }
        ensures steps { (ls : List Reading) → Keeps self.old ls
            → LineSteps ls (Holds (record_seen line.entry)) result closed.new self.new }
        ensures counts { self.new.lines ≤ self.old.lines + 1 }
    {
        match line {
            CheckedLine::Usage(usage) => self.member(alloc, CheckedLine::Usage(usage)),
            CheckedLine::Work(work) => self.member(alloc, CheckedLine::Work(work)),
            CheckedLine::Resource(resource) => {
                self.record(alloc, CheckedLine::Resource(resource), closed)
            }
            CheckedLine::Skipped => {
                self.skip_record();
                Step::Good
            }
            line => self.record_apart(alloc, line, closed),
        }
    }

    /// Takes the text of the next line.
    #[inline(always)]
    fn text(&mut self, alloc: Global, layout: &Layout, text: &str, closed: &mut Closed) -> Step
        requires lines { self.old.lines < 2 ^ 40 - 1 }
        requires none { closed.old ≡ None }
        ensures steps { (ls : List Reading) → Keeps self.old ls
            → LineSteps ls (of_utf8 layout.now text.now) result closed.new self.new }
        ensures counts { self.new.lines ≤ self.old.lines + 1 }
    {
        if is_left_out(text) {
            self.skip_line();
            return Step::Good;
        }
        match check_line(layout, text) {
            Err(fault) => Step::Faulty(file_fault(fault)),
            Ok(line) => self.checked(alloc, line, closed),
        }
    }

    /// Takes the next line, which is not too long; `closed` becomes what the line closes.
    #[inline(never)]
    pub(crate) fn line(
        &mut self,
        alloc: Global,
        layout: &Layout,
        line: &[u8],
        closed: &mut Closed,
    ) -> Step
        requires lines { self.old.lines < 2 ^ 40 - 1 }
        requires none { closed.old ≡ None }
        requires short { length line.now ≤ line_limit }
        ensures steps { (ls : List Reading) → Keeps self.old ls
            → LineSteps ls (reading layout.now line.now) result closed.new self.new }
        ensures counts { self.new.lines ≤ self.old.lines + 1 }
    {
        match text_of(line) {
            Some(text) => self.text(alloc, layout, strip_return(text), closed),
            None => Step::Faulty(FileFault::NotUtf8),
        }
    }

    /// Takes the last line, which is not too long. Returns also what it closes.
    pub(crate) fn last_line(
        &mut self,
        alloc: Global,
        layout: &Layout,
        line: &[u8],
    ) -> (Step, Option<EventPart>)
        requires lines { self.old.lines < 2 ^ 40 - 1 }
        requires short { length line.now ≤ line_limit }
        ensures steps { (ls : List Reading) → Keeps self.old ls
            → LineSteps ls (reading layout.now line.now) result.0 result.1 self.new }
        ensures counts { self.new.lines ≤ self.old.lines + 1 }
    {
        let mut closed = Closed::new(alloc);
        let step = self.line(alloc, layout, line, &mut closed);
        let part = closed.take();
        drop(closed);
        (step, part)
    }

    /// The outcome of a text that ends after these lines.
    pub(crate) fn outcome(&self, ending: Ending) -> Outcome
        requires { self.now.lines < 2 ^ 40 }
        ensures { result ≡ outcome_at (column_at self.now.stage) ending (self.now.lines + 1) }
    {
        let line = self.lines + 1;
        match ending {
            Ending::Read => Outcome::Fault {
                line,
                fault: FileFault::Read,
            },
            Ending::Reads => Outcome::Fault {
                line,
                fault: FileFault::Reads,
            },
            Ending::Whole => match &self.stage {
                Stage::Start => Outcome::Fault {
                    line,
                    fault: FileFault::NoHead,
                },
                Stage::Front(_) | Stage::Open(_) => Outcome::Fault {
                    line,
                    fault: FileFault::NoFoot,
                },
                Stage::Closed => Outcome::Whole,
            },
        }
    }

    /// The fault of FOOT's counts, if the line is FOOT and has one.
    #[inline(always)]
    fn fault_at_foot(&self, line: &CheckedLine<'_>) -> Option<FileFault>
        requires { self.now.lines < 2 ^ 40 }
        ensures { result ≡ option_and_then (kept_count_fault self.now)
            (foot_in (record_seen line.now)) }
    {
        match line {
            CheckedLine::Foot(foot) => self.count_fault(*foot),
            _ => None,
        }
    }
}

/// The fault of a file that a fault of a line is.
fn file_fault(fault: RecordFault) -> FileFault
    ensures { result ≡ file_fault fault }
{
    match fault {
        RecordFault::Many => FileFault::ManyCells,
        RecordFault::Unknown => FileFault::UnknownRecord,
        RecordFault::Missing(column) => FileFault::MissingCell(column),
        RecordFault::Bad(column) => FileFault::BadCell(column),
        RecordFault::Uneven => FileFault::Uneven,
    }
}

/// 1 for a summary, otherwise 0.
#[inline(always)]
fn summary_count(line: &CheckedLine<'_>) -> u64
    ensures { result ≡ summary_count (record_seen line.now) }
{
    match line {
        CheckedLine::Summary(_) => 1,
        _ => 0,
    }
}
