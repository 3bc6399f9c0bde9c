//! MW01: a work of a block.
ghost use Rattle.std.specs.Prelude.{◌≡◌, ◌<◌, ◌+◌, Ok, Err, MatchResult, IfOk, OnOk, OnErr, [], true, length};
ghost use Rattle.dsr_events.specs.declared.kinds.Kind.TheVariants as kinds;
ghost use Rattle.dsr_events.specs.declared.record.Record.TheVariants as records;
ghost use Rattle.dsr_events.specs.layer.Blocks.{with_member};
ghost use Rattle.dsr_records.specs.meaning.Values.{record_by_row, shares_of, values_of};
ghost use Rattle.std.specs.List.{list_all};
ghost use Rattle.dsr_cells.specs.meaning.Cells.{raw_parts};
ghost use Rattle.dsr_records.specs.meaning.Tables.{is_share};

use crate::fault::RecordFault;
use crate::row::Row;
use crate::spelled::{FirstShares, read_identifier, read_share_count};
use arrayvec::ArrayVec;
use dsr_cells::{NoMemory, Share, Shares, Texts, count_values, read_texts_into, values};
use dsr_events::{Block, Column, Work};
use std::alloc::Global;
use std::default::MadeWith;
use std::marker::Model;

/// A work whose texts and list cells are borrowed from its line. Contracts see it as the work.
#[derive(Drop)]
pub struct WorkLine<'l> {
    pub(crate) block_id: &'l str,
    pub(crate) work_id: &'l str,
    pub(crate) title: &'l str,
    pub(crate) parties: &'l str,
    pub(crate) shares: &'l str,
    pub(crate) first_shares: FirstShares,
}

impl<'l> Model for WorkLine<'l> {
    ghost use Rattle.std.specs.Prelude.{◌≡◌, true, length, take};
    ghost use Rattle.std.specs.List.{list_all};
    ghost use Rattle.dsr_cells.specs.meaning.Cells.{raw_parts};
    ghost use Rattle.dsr_records.specs.meaning.Tables.{is_share};
    ghost use Rattle.dsr_records.specs.meaning.Values.{values_of, shares_of};
    ghost use Rattle.dsr_events.specs.meaning.Works.{WorkParts};

    ghost Value = { WorkParts };

    ghost view = { λ w. record {
      block_id = w.block_id.now;
      work_id = w.work_id.now;
      title = w.title.now;
      parties = values_of w.parties.now;
      shares = shares_of w.shares.now;
    } };

    ghost invariant = { λ w. (list_all is_share (raw_parts w.shares.now) ≡ true)
        × (length (raw_parts w.parties.now) ≡ length (raw_parts w.shares.now))
        × (w.first_shares.items ≡ take 4 (shares_of w.shares.now)) };
}

/// The work that a row spells, or its first fault.
#[inline(always)]
pub(crate) fn check_work<'l>(row: &Row<'_, 'l>) -> Result<WorkLine<'l>, RecordFault>
    ensures { MatchResult result (λ w. record_by_row row.now kinds.Work ≡ Ok (records.Work w))
        (λ fault. record_by_row row.now kinds.Work ≡ Err fault) }
{
    let block_id = read_identifier(row, 0, Column::BlockId, 32)?;
    let parties = row.text(3);
    let mut first_shares = ArrayVec::new();
    let count = read_share_count(row, 4, &mut first_shares)?;
    if count_values(parties) != count {
        return Err(RecordFault::Uneven);
    }
    Ok(WorkLine {
        block_id,
        work_id: row.text(1),
        title: row.text(2),
        parties,
        shares: row.text(4),
        first_shares,
    })
}

/// Writes the shares of a list cell over the items of a list.
fn read_shares_into(cell: &str, shares: &mut Shares) -> Result<(), NoMemory>
    requires { list_all is_share (raw_parts cell.now) ≡ true }
    ensures { OnOk result (shares.new ≡ shares_of cell.now) }
{
    shares.restart();
    for part in values(cell) {
        let share = shares.next()?;
        *share = Share::read(part).unwrap();
    }
    Ok(())
}

/// Copies shares over the items of a list.
fn copy_shares(from: &[Share], shares: &mut Shares) -> Result<(), NoMemory>
    ensures { OnOk result (shares.new ≡ from.now) }
{
    shares.restart();
    for share in from {
        let copy = shares.next()?;
        *copy = *share;
    }
    Ok(())
}

impl<'l> WorkLine<'l> {
    /// Writes the shares over a list. If there may be more than the first ones, their cell is read again.
    fn write_shares(&self, shares: &mut Shares) -> Result<(), NoMemory>
        ensures { OnOk result (shares.new ≡ self.now.shares) }
    {
        if self.first_shares.is_full() {
            return read_shares_into(self.shares, shares);
        }
        copy_shares(self.first_shares.as_slice(), shares)
    }

    /// Writes the parties and their shares over two lists. If memory is refused, both become empty.
    fn write_parties(
        &self,
        alloc: Global,
        parties: &mut Texts,
        shares: &mut Shares,
    ) -> Result<(), NoMemory>
        ensures parties { OnOk result (parties.new ≡ self.now.parties) }
        ensures shares { OnOk result (shares.new ≡ self.now.shares) }
        ensures refused { OnErr result ((parties.new ≡ []) × (shares.new ≡ [])) }
    {
        if read_texts_into(alloc, self.parties, parties).is_ok()
            && self.write_shares(shares).is_ok()
        {
            return Ok(());
        }
        parties.restart();
        shares.restart();
        Err(NoMemory)
    }

    /// The work, with its texts copied.
    pub(crate) fn read(&self, alloc: Global) -> Result<Work, NoMemory>
        ensures { IfOk result (λ w. w ≡ self.now) }
    {
        let mut work = Work::made_with(alloc);
        self.write(alloc, &mut work)?;
        Ok(work)
    }

    /// Writes the work over another one.
    #[inline(always)]
    pub(crate) fn write(&self, alloc: Global, work: &mut Work) -> Result<(), NoMemory>
        ensures { OnOk result (work.new ≡ self.now) }
    {
        work.block_id.assign(alloc, self.block_id)?;
        work.work_id.assign(alloc, self.work_id)?;
        work.title.assign(alloc, self.title)?;
        self.write_parties(alloc, &mut work.parties, &mut work.shares)
    }

    /// Appends the work to a block of fewer than 64 records. If memory is refused, the block is unchanged.
    pub(crate) fn append_to(&self, alloc: Global, block: &mut Block) -> Result<(), NoMemory>
        requires { 1 + length block.old.works + length block.old.usages < 64 }
        ensures added { OnOk result (block.new ≡ with_member block.old (records.Work self.now)) }
        ensures refused { OnErr result (block.new ≡ block.old) }
    {
        let next = block.works.next()?;
        if self.write(alloc, next).is_ok() {
            return Ok(());
        }
        block.works.shorten();
        Err(NoMemory)
    }
}
