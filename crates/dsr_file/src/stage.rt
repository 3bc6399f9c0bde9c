//! The stage of a file: what is open after its records so far.
ghost use Rattle.std.specs.Prelude.{◌≡◌, ◌<◌, true, None, OnOk, OnErr};
ghost use Rattle.std.specs.List.{list_any};
ghost use Rattle.std.specs.Str.{bytes_eq};
ghost use Rattle.std.specs.Option.{option_map};
ghost use Rattle.dsr_events.specs.declared.kinds.Kind.TheVariants as kinds;
ghost use Rattle.dsr_events.specs.declared.record.Record.TheVariants as Record;
ghost use Rattle.dsr_records.specs.inner.Rows.{record_seen};
ghost use Rattle.dsr_records.specs.layer.Values.{has_texts, kind_of_record};
ghost use Rattle.dsr_file.specs.meaning.Faults.{place, member_fault, summary_fault};
ghost use Rattle.dsr_file.specs.inner.Stages.{column_at, stage_fault, stage_after, given_by, part_given, kept_fault, block_length, IsFree, IsMember, IsNew};

use crate::closed::Closed;
use dsr_cells::NoMemory;
use dsr_events::{BoxedBlock, EventPart, FileFault, Opening, Summaries};
use dsr_records::{Block, CheckedLine, HeadLine, Kind, SummaryLine};
use std::alloc::Global;
use std::mem;

/// The maximum number of summaries of a file.
const MOST_SUMMARIES: usize = 1000;

/// The maximum number of records of a block.
const MOST_RECORDS: usize = 64;

/// What the last record is: the column of the place table.
#[derive(Clone, Copy)]
pub(crate) enum Before {
    /// There is no record.
    Nothing,
    /// HEAD or a summary.
    Front,
    /// A resource or a work.
    Open,
    /// A usage.
    Used,
    /// FOOT.
    Closed,
}

/// The stage of a file.
#[derive(Drop)]
pub(crate) enum Stage {
    /// There is no record yet.
    Start,
    /// There was HEAD, with any summaries.
    Front(Opening),
    /// A block is open.
    Open(BoxedBlock),
    /// There was FOOT.
    Closed,
}

/// The fault of a record of this kind in this column of the place table, if there is one.
#[inline(always)]
fn place_fault(before: Before, kind: Kind) -> Option<FileFault>
    ensures { result ≡ place before kind }
{
    match (before, kind) {
        (_, Kind::Skipped) => None,
        (Before::Closed, _) => Some(FileFault::AfterFoot),
        (Before::Nothing, Kind::Head) => None,
        (Before::Nothing, _) => Some(FileFault::NoHead),
        (_, Kind::Head) => Some(FileFault::SecondHead),
        (Before::Front, Kind::Work | Kind::Usage) => Some(FileFault::NoResource),
        (Before::Front, _) => None,
        (_, Kind::Summary) => Some(FileFault::LateSummary),
        (Before::Open, Kind::Resource | Kind::Foot) => Some(FileFault::NoUsage),
        (Before::Used, Kind::Work) => Some(FileFault::LateWork),
        _ => None,
    }
}

/// Whether one of these summaries has the identifier.
fn has_summary(summaries: &Summaries, id: &str) -> bool
    ensures { result ≡ list_any (λ s. bytes_eq s.id id.now) summaries.now }
{
    summaries.as_slice().iter().any(|s| s.id.as_str() == id)
}

/// The fault of one more summary, with this identifier, if there is one.
fn twice_or_many(summaries: &Summaries, id: &str) -> Option<FileFault>
    ensures { result ≡ summary_fault summaries.now id.now }
{
    if has_summary(summaries, id) {
        return Some(FileFault::SummaryTwice);
    }
    if summaries.len() >= MOST_SUMMARIES {
        Some(FileFault::ManySummaries)
    } else {
        None
    }
}

/// The fault of one more work or usage of a block, with this identifier, if there is one.
#[inline(always)]
fn number_or_long(block: &Block, id: &str) -> Option<FileFault>
    ensures { result ≡ member_fault block.now.id (block_length block.now) id.now }
{
    if id != block.id.as_str() {
        return Some(FileFault::BlockNumber);
    }
    if block.len() >= MOST_RECORDS {
        Some(FileFault::LongBlock)
    } else {
        None
    }
}

impl Stage {
    /// The column of the place table for the next record.
    #[inline(always)]
    fn before(&self) -> Before
        ensures { result ≡ column_at self.now }
    {
        match self {
            Stage::Start => Before::Nothing,
            Stage::Front(_) => Before::Front,
            Stage::Open(block) => if block.get().usages.len() == 0 {
                Before::Open
            } else {
                Before::Used
            },
            Stage::Closed => Before::Closed,
        }
    }

    /// The fault of a record of this kind and with this identifier that is in its place, if there is one.
    #[inline(always)]
    fn kept_fault(&self, kind: Kind, id: Option<&str>) -> Option<FileFault>
        ensures { result ≡ kept_fault self.now kind (option_map (λ i. i.now) id.entry) }
    {
        match (self, kind, id) {
            (Stage::Front(opening), Kind::Summary, Some(id)) => twice_or_many(
                &opening.summaries,
                id,
            ),
            (Stage::Open(block), Kind::Work | Kind::Usage, Some(id)) => number_or_long(
                block.get(),
                id,
            ),
            _ => None,
        }
    }

    /// The first fault of a record of this kind and with this identifier, if there is one.
    #[inline(always)]
    pub(crate) fn fault(&self, kind: Kind, id: Option<&str>) -> Option<FileFault>
        ensures { result ≡ stage_fault self.now kind (option_map (λ i. i.now) id.entry) }
    {
        match place_fault(self.before(), kind) {
            Some(fault) => Some(fault),
            None => self.kept_fault(kind, id),
        }
    }

    /// Changes to the next stage; `closed` becomes what was open. Not inlined, since most lines do not need it.
    #[inline(never)]
    fn close(&mut self, next: Stage, closed: &mut Closed)
        requires { closed.old ≡ None }
        ensures next { self.new ≡ next }
        ensures given { closed.new ≡ part_given self.old }
    {
        match mem::replace(self, next) {
            Stage::Start | Stage::Closed => {}
            Stage::Front(opening) => closed.set(EventPart::Opened(opening)),
            Stage::Open(block) => closed.set_block(block),
        }
    }

    /// Opens the block of a resource line, which has no fault, over the old block in `closed`, which
    /// becomes what the line closes.
    #[inline(always)]
    pub(crate) fn open(
        &mut self,
        line: &CheckedLine<'_>,
        closed: &mut Closed,
    ) -> Result<(), NoMemory>
        requires resource { kind_of_record (record_seen line.now) ≡ kinds.Resource }
        requires none { closed.old ≡ None }
        ensures next { OnOk result (self.new ≡ stage_after self.old (record_seen line.now)) }
        ensures given { OnOk result (closed.new ≡ given_by self.old (record_seen line.now)) }
        ensures memory { OnErr result (has_texts (record_seen line.now) ≡ true) }
    {
        if let Stage::Open(open) = self {
            return closed.open_next(line, open);
        }
        let block = closed.open_first(line)?;
        self.close(Stage::Open(block), closed);
        Ok(())
    }

    /// Begins the opening, with the texts of its head copied. Not inlined, since a file has one.
    #[inline(never)]
    fn begin(&mut self, alloc: Global, head: &HeadLine<'_>) -> Result<(), NoMemory>
        ensures next { OnOk result (self.new ≡ stage_after self.old (Record.Head head.now)) }
    {
        let head = head.copy(alloc)?;
        let front = Stage::Front(Opening {
            head,
            summaries: Summaries::new(alloc),
        });
        drop(mem::replace(self, front));
        Ok(())
    }

    /// Adds a summary to the opening, with its texts copied. Not inlined, since a file has few.
    #[inline(never)]
    fn add_summary(&mut self, alloc: Global, line: &SummaryLine<'_>) -> Result<(), NoMemory>
        requires { IsNew self.old line.now.id }
        ensures next { OnOk result (self.new ≡ stage_after self.old (Record.Summary line.now)) }
    {
        let Stage::Front(opening) = self else {
            return Ok(());
        };
        let summary = line.copy(alloc)?;
        match opening.summaries.push(summary) {
            Ok(()) => Ok(()),
            Err(refused) => {
                drop(refused);
                Err(NoMemory)
            }
        }
    }

    /// Takes the work or the usage of a line, which has no fault.
    #[inline(always)]
    pub(crate) fn add_member(
        &mut self,
        alloc: Global,
        line: &CheckedLine<'_>,
    ) -> Result<(), NoMemory>
        requires member { IsMember (record_seen line.now) }
        requires free { IsFree self.old (record_seen line.now) }
        ensures next { OnOk result (self.new ≡ stage_after self.old (record_seen line.now)) }
        ensures memory { OnErr result (has_texts (record_seen line.now) ≡ true) }
    {
        match self {
            Stage::Open(block) => line.append_to(alloc, block.get_mut()),
            _ => Ok(()),
        }
    }

    /// Takes a line that has no fault; `closed` becomes what it closes.
    #[inline(always)]
    pub(crate) fn add(
        &mut self,
        alloc: Global,
        line: &CheckedLine<'_>,
        closed: &mut Closed,
    ) -> Result<(), NoMemory>
        requires free { IsFree self.old (record_seen line.now) }
        requires none { closed.old ≡ None }
        ensures next { OnOk result (self.new ≡ stage_after self.old (record_seen line.now)) }
        ensures given { OnOk result (closed.new ≡ given_by self.old (record_seen line.now)) }
        ensures memory { OnErr result (has_texts (record_seen line.now) ≡ true) }
    {
        match line {
            CheckedLine::Work(_) | CheckedLine::Usage(_) => self.add_member(alloc, line),
            CheckedLine::Resource(_) => self.open(line, closed),
            CheckedLine::Head(head) => self.begin(alloc, head),
            CheckedLine::Summary(summary) => self.add_summary(alloc, summary),
            CheckedLine::Foot(_) => {
                self.close(Stage::Closed, closed);
                Ok(())
            }
            CheckedLine::Skipped => Ok(()),
        }
    }
}
