//! SU01: a usage of a block's resource.
ghost use Rattle.std.specs.Prelude.{◌≡◌, ◌<◌, ◌+◌, Ok, Err, MatchResult, IfOk, OnOk, OnErr, length};
ghost use Rattle.dsr_events.specs.declared.kinds.Kind.TheVariants as kinds;
ghost use Rattle.dsr_events.specs.declared.record.Record.TheVariants as records;
ghost use Rattle.dsr_events.specs.layer.Blocks.{with_member};
ghost use Rattle.dsr_records.specs.meaning.Values.{record_by_row};

use crate::fault::RecordFault;
use crate::row::Row;
use crate::spelled::{read_amount, read_identifier, read_usage_count};
use dsr_cells::{Amount, NoMemory};
use dsr_events::{Block, Column, Usage};
use std::alloc::Global;
use std::default::MadeWith;
use std::marker::Model;

/// A usage whose texts are borrowed from its line. Contracts see it as the usage.
#[derive(Drop)]
pub struct UsageLine<'l> {
    pub(crate) block_id: &'l str,
    pub(crate) summary_id: &'l str,
    pub(crate) usages: i64,
    pub(crate) amount: Amount,
}

impl<'l> Model for UsageLine<'l> {
    ghost use Rattle.dsr_events.specs.declared.record.Usage.{Usage as UsageRecord};

    ghost Value = { UsageRecord };

    ghost view = { λ u. record {
      block_id = u.block_id.now;
      summary_id = u.summary_id.now;
      usages = u.usages;
      amount = u.amount;
    } };
}

/// The usage that a row spells, or its first fault.
#[inline(always)]
pub(crate) fn check_usage<'l>(row: &Row<'_, 'l>) -> Result<UsageLine<'l>, RecordFault>
    ensures { MatchResult result (λ u. record_by_row row.now kinds.Usage ≡ Ok (records.Usage u))
        (λ fault. record_by_row row.now kinds.Usage ≡ Err fault) }
{
    Ok(UsageLine {
        block_id: read_identifier(row, 0, Column::BlockId, 32)?,
        summary_id: read_identifier(row, 1, Column::SummaryRecordId, 32)?,
        usages: read_usage_count(row, 2)?,
        amount: read_amount(row, 3)?,
    })
}

impl<'l> UsageLine<'l> {
    /// The usage, with its texts copied.
    pub(crate) fn read(&self, alloc: Global) -> Result<Usage, NoMemory>
        ensures { IfOk result (λ u. u ≡ self.now) }
    {
        let mut usage = Usage::made_with(alloc);
        self.write(alloc, &mut usage)?;
        Ok(usage)
    }

    /// Writes the usage over another one.
    #[inline(always)]
    pub(crate) fn write(&self, alloc: Global, usage: &mut Usage) -> Result<(), NoMemory>
        ensures { OnOk result (usage.new ≡ self.now) }
    {
        usage.block_id.assign(alloc, self.block_id)?;
        usage.summary_id.assign(alloc, self.summary_id)?;
        usage.usages = self.usages;
        usage.amount = self.amount;
        Ok(())
    }

    /// Appends the usage to a block of fewer than 64 records. If memory is refused, the block is unchanged.
    #[inline(always)]
    pub(crate) fn append_to(&self, alloc: Global, block: &mut Block) -> Result<(), NoMemory>
        requires { 1 + length block.old.works + length block.old.usages < 64 }
        ensures added { OnOk result (block.new ≡ with_member block.old (records.Usage self.now)) }
        ensures refused { OnErr result (block.new ≡ block.old) }
    {
        let next = block.usages.next()?;
        if self.write(alloc, next).is_ok() {
            return Ok(());
        }
        block.usages.shorten();
        Err(NoMemory)
    }
}
