//! Checking lines, and copying the records of lines without a fault.
ghost use Rattle.std.specs.Prelude.{◌≡◌, ◌+◌, ◌<◌, true, length, Ok, Err, IfOk, IfSome, OnOk, OnErr, nat_lt, take};
ghost use Rattle.std.specs.Option.{option_map};
ghost use Rattle.dsr_cells.specs.meaning.Cells.{cells};
ghost use Rattle.dsr_events.specs.layer.Blocks.{OpensBlock, with_member};
ghost use Rattle.dsr_events.specs.declared.kinds.Kind.TheVariants as kinds;
ghost use Rattle.dsr_records.specs.inner.Rows.{found_by, record_seen};
ghost use Rattle.dsr_records.specs.inner.Usual.{BeginsWithLine};
ghost use Rattle.dsr_records.specs.meaning.Layouts.{standard_layout};
ghost use Rattle.dsr_records.specs.meaning.Values.{id_of_record, record_by_row, record_of};
ghost use Rattle.dsr_records.specs.layer.Values.{AnswersRecord, kind_of_record, has_texts, id_of, kind_of};

use crate::check::{
    HeadLine, ResourceLine, SummaryLine, UsageLine, WorkLine, check_foot, check_head,
    check_resource, check_summary, check_usage, check_work,
};
use crate::fault::{ReadRecordError, RecordFault};
use crate::layout::Layout;
use crate::row::Row;
use crate::usual::{usual_resource, usual_usage, usual_work};
use dsr_cells::{FirstCells, NoMemory, count_cells};
use dsr_events::{Block, Foot, Kind, Record};
use std::alloc::Global;

/// A line without a fault: its record, whose texts are borrowed from the line.
#[derive(Drop)]
pub enum CheckedLine<'l> {
    /// The line of a HEAD.
    Head(HeadLine<'l>),
    /// The line of a summary.
    Summary(SummaryLine<'l>),
    /// The line of a resource.
    Resource(ResourceLine<'l>),
    /// The line of a work.
    Work(WorkLine<'l>),
    /// The line of a usage.
    Usage(UsageLine<'l>),
    /// The line of a FOOT, which has no text.
    Foot(Foot),
    /// The line of a record of a skipped type.
    Skipped,
}

impl<'l> CheckedLine<'l> {
    /// The line that a page begins with, by the standard layout, and its length, if it is a resource, a work or a usage of
    /// the usual form. None says nothing. The bytes behind the line are read too. Nothing is allocated.
    #[inline(always)]
    pub fn usual(page: &'l [u8]) -> Option<(CheckedLine<'l>, usize)>
        ensures line { IfSome result (λ u. BeginsWithLine page.now u.1) }
        ensures record { IfSome result (λ u. record_of standard_layout (take u.1 page.now) ≡ Ok (record_seen u.0)) }
    {
        if let Some((usage, size)) = usual_usage(page) {
            return Some((CheckedLine::Usage(usage), size));
        }
        if let Some((resource, size)) = usual_resource(page) {
            return Some((CheckedLine::Resource(resource), size));
        }
        let (work, size) = usual_work(page)?;
        Some((CheckedLine::Work(work), size))
    }

    /// The kind of the line's record.
    #[inline(always)]
    pub fn kind(&self) -> Kind
        ensures { result ≡ kind_of_record (record_seen self.now) }
    {
        match self {
            CheckedLine::Head(_) => Kind::Head,
            CheckedLine::Summary(_) => Kind::Summary,
            CheckedLine::Resource(_) => Kind::Resource,
            CheckedLine::Work(_) => Kind::Work,
            CheckedLine::Usage(_) => Kind::Usage,
            CheckedLine::Foot(_) => Kind::Foot,
            CheckedLine::Skipped => Kind::Skipped,
        }
    }

    /// The identifier of a summary, or of the block of a resource, a work or a usage; None for other records.
    #[inline(always)]
    pub fn id(&self) -> Option<&'l str>
        ensures { option_map (λ i. i.now) result ≡ id_of_record (record_seen self.now) }
    {
        match self {
            CheckedLine::Summary(summary) => Some(summary.id),
            CheckedLine::Resource(resource) => Some(resource.block_id),
            CheckedLine::Work(work) => Some(work.block_id),
            CheckedLine::Usage(usage) => Some(usage.block_id),
            _ => None,
        }
    }

    /// The record, with its texts copied. For a FOOT and a skipped record nothing is allocated.
    ///
    /// # Errors
    ///
    /// `NoMemory`: out of memory for the record's texts.
    pub fn read(&self, alloc: Global) -> Result<Record, NoMemory>
        ensures value { IfOk result (λ r. r ≡ record_seen self.now) }
        ensures memory { OnErr result (has_texts (record_seen self.now) ≡ true) }
    {
        Ok(match self {
            CheckedLine::Head(head) => Record::Head(head.copy(alloc)?),
            CheckedLine::Summary(summary) => Record::Summary(summary.copy(alloc)?),
            CheckedLine::Resource(resource) => Record::Resource(resource.read(alloc)?),
            CheckedLine::Work(work) => Record::Work(work.read(alloc)?),
            CheckedLine::Usage(usage) => Record::Usage(usage.read(alloc)?),
            CheckedLine::Foot(foot) => Record::Foot(*foot),
            CheckedLine::Skipped => Record::Skipped,
        })
    }

    /// Writes a new block of the line's resource, without works and usages, over a block.
    /// Condition: the record is a resource.
    ///
    /// # Errors
    ///
    /// `NoMemory`: out of memory; the block may have any value.
    #[inline(always)]
    pub fn open_block(&self, alloc: Global, block: &mut Block) -> Result<(), NoMemory>
        requires resource { kind_of_record (record_seen self.now) ≡ kinds.Resource }
        ensures opened { OnOk result (OpensBlock (record_seen self.now) block.new) }
        ensures memory { OnErr result (has_texts (record_seen self.now) ≡ true) }
    {
        if let CheckedLine::Resource(resource) = self {
            return resource.open_block(alloc, block);
        }
        Ok(())
    }

    /// Appends the work or the usage of the line to a block of fewer than 64 records; for any other
    /// record nothing is appended.
    ///
    /// # Errors
    ///
    /// `NoMemory`: out of memory; the block is unchanged.
    #[inline(always)]
    pub fn append_to(&self, alloc: Global, block: &mut Block) -> Result<(), NoMemory>
        requires room { 1 + length block.old.works + length block.old.usages < 64 }
        ensures added { OnOk result (block.new ≡ with_member block.old (record_seen self.now)) }
        ensures refused { OnErr result (block.new ≡ block.old) }
        ensures memory { OnErr result (has_texts (record_seen self.now) ≡ true) }
    {
        match self {
            CheckedLine::Work(work) => work.append_to(alloc, block),
            CheckedLine::Usage(usage) => usage.append_to(alloc, block),
            _ => Ok(()),
        }
    }
}

/// The maximum number of cells of a line.
const MOST_CELLS: usize = 64;

/// Whether a line has more than 64 cells, given its first ten. They are counted only if it has ten.
#[inline(always)]
fn has_many_cells(line: &str, first: &FirstCells<'_>) -> bool
    requires { first.now ≡ take 10 (cells line.now) }
    ensures { result ≡ nat_lt 64 (length (cells line.now)) }
{
    first.len() == 10 && count_cells(line) > MOST_CELLS
}

/// Checks the cells of a kind's columns. Returns the line's record, not yet copied, or the first fault. Each arm
/// returns by itself, so that the caller, into which this is inlined, need not match the kind again.
#[inline(always)]
fn check_row<'l>(row: &Row<'_, 'l>, kind: Kind) -> Result<CheckedLine<'l>, RecordFault>
    ensures { found_by result ≡ record_by_row row.now kind }
{
    match kind {
        Kind::Head => return Ok(CheckedLine::Head(check_head(row)?)),
        Kind::Summary => return Ok(CheckedLine::Summary(check_summary(row)?)),
        Kind::Resource => return Ok(CheckedLine::Resource(check_resource(row)?)),
        Kind::Work => return Ok(CheckedLine::Work(check_work(row)?)),
        Kind::Usage => return Ok(CheckedLine::Usage(check_usage(row)?)),
        Kind::Foot => return Ok(CheckedLine::Foot(check_foot(row)?)),
        Kind::Skipped => Ok(CheckedLine::Skipped),
    }
}

/// Checks a line by a layout. Returns its record, not yet copied, or its first fault. Nothing is allocated.
///
/// # Errors
///
/// `Many`: the line has more than 64 cells. `Unknown`: the layout does not have its record type.
/// `Missing` and `Bad`: the first such column, in the order of the columns. `Uneven`: a work
/// has different numbers of parties and shares.
#[inline(always)]
pub fn check_line<'l>(layout: &Layout, line: &'l str) -> Result<CheckedLine<'l>, RecordFault>
    ensures { found_by result ≡ record_of layout.now line.now }
{
    let first = FirstCells::of(line);
    if has_many_cells(line, &first) {
        return Err(RecordFault::Many);
    }
    let name = first.at(0);
    match layout.role(name) {
        Some(role) => {
            let row = Row {
                line,
                first: &first,
                positions: role.positions.as_slice(),
            };
            check_row(&row, role.kind)
        }
        None if layout.skips(name) => Ok(CheckedLine::Skipped),
        None => Err(RecordFault::Unknown),
    }
}

/// The kind of a line by a layout, or its first fault.
///
/// # Errors
///
/// The fault that `check_line` returns.
pub fn check_record(layout: &Layout, line: &str) -> Result<Kind, RecordFault>
    ensures { result ≡ kind_of layout.now line.now }
{
    Ok(check_line(layout, line)?.kind())
}

/// The identifier of a line: that of a summary, or that of the block of a resource, a work or a
/// usage. A faulty line and any other record have none.
pub fn record_id<'l>(layout: &Layout, line: &'l str) -> Option<&'l str>
    ensures { option_map (λ i. i.now) result ≡ id_of layout.now line.now }
{
    check_line(layout, line).ok()?.id()
}

/// The record of a line by a layout, or its first fault.
///
/// # Errors
///
/// `Fault`: the fault that `check_line` returns. `Memory`: out of memory for the record's texts.
pub fn read_record(alloc: Global, layout: &Layout, line: &str) -> Result<Record, ReadRecordError>
    ensures { AnswersRecord (record_of layout.now line.now) result }
{
    match check_line(layout, line) {
        Err(fault) => Err(ReadRecordError::Fault(fault)),
        Ok(checked) => match checked.read(alloc) {
            Ok(record) => Ok(record),
            Err(NoMemory) => Err(ReadRecordError::Memory),
        },
    }
}
