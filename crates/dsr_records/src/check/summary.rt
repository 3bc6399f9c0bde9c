//! SY01: a summary of usages.
ghost use Rattle.std.specs.Prelude.{◌≡◌, Ok, Err, MatchResult, IfOk};
ghost use Rattle.dsr_events.specs.declared.kinds.Kind.TheVariants as kinds;
ghost use Rattle.dsr_events.specs.declared.record.Record.TheVariants as records;
ghost use Rattle.dsr_records.specs.meaning.Values.{record_by_row};

use crate::fault::RecordFault;
use crate::row::Row;
use crate::spelled::{
    read_amount, read_currency, read_identifier, read_territory, read_usage_count, read_use_type,
};
use dsr_cells::{Amount, NoMemory, Text};
use dsr_events::{Column, Summary};
use std::alloc::Global;
use std::marker::Model;

/// A summary whose texts are borrowed from its line. Contracts see it as the summary.
#[derive(Drop)]
pub struct SummaryLine<'l> {
    pub(crate) id: &'l str,
    territory: &'l str,
    use_type: &'l str,
    currency: &'l str,
    usages: i64,
    amount: Amount,
}

impl<'l> Model for SummaryLine<'l> {
    ghost use Rattle.dsr_events.specs.declared.record.Summary.{Summary as SummaryRecord};

    ghost Value = { SummaryRecord };

    ghost view = { λ s. record {
      id = s.id.now;
      territory = s.territory.now;
      use_type = s.use_type.now;
      currency = s.currency.now;
      usages = s.usages;
      amount = s.amount;
    } };
}

/// The summary that a row spells, or its first fault.
#[inline(always)]
pub(crate) fn check_summary<'l>(row: &Row<'_, 'l>) -> Result<SummaryLine<'l>, RecordFault>
    ensures { MatchResult result (λ s. record_by_row row.now kinds.Summary ≡ Ok (records.Summary s))
        (λ fault. record_by_row row.now kinds.Summary ≡ Err fault) }
{
    Ok(SummaryLine {
        id: read_identifier(row, 0, Column::SummaryRecordId, 32)?,
        territory: read_territory(row, 1)?,
        use_type: read_use_type(row, 2)?,
        currency: read_currency(row, 3)?,
        usages: read_usage_count(row, 4)?,
        amount: read_amount(row, 5)?,
    })
}

impl<'l> SummaryLine<'l> {
    /// The summary, with its texts copied.
    ///
    /// # Errors
    ///
    /// `NoMemory`: out of memory for the summary's texts.
    pub fn copy(&self, alloc: Global) -> Result<Summary, NoMemory>
        ensures { IfOk result (λ r. r ≡ self.now) }
    {
        Ok(Summary {
            id: Text::copy_of(alloc, self.id)?,
            territory: Text::copy_of(alloc, self.territory)?,
            use_type: Text::copy_of(alloc, self.use_type)?,
            currency: Text::copy_of(alloc, self.currency)?,
            usages: self.usages,
            amount: self.amount,
        })
    }
}
