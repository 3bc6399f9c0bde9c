//! The key that a summary gives to its usages.
ghost use Rattle.std.specs.Prelude.{◌≡◌, IfOk};
ghost use Rattle.dsr_ledger.specs.meaning.Bookings.{summary_key_of};

use dsr_cells::{NoMemory, Text};
use dsr_events::Summary;
use std::alloc::Global;

/// The key that a summary gives to its usages: a ledger line's key without the recording.
#[derive(PartialEq, Eq, PartialOrd, Ord, Hash, Drop)]
pub(crate) struct SummaryKey {
    pub(crate) territory: Text,
    pub(crate) use_type: Text,
    pub(crate) currency: Text,
}

impl SummaryKey {
    /// The key of a summary.
    pub(crate) fn of(alloc: Global, summary: &Summary) -> Result<SummaryKey, NoMemory>
        ensures { IfOk result (λ key. key ≡ summary_key_of summary.now) }
    {
        Ok(SummaryKey {
            territory: summary.territory.copy(alloc)?,
            use_type: summary.use_type.copy(alloc)?,
            currency: summary.currency.copy(alloc)?,
        })
    }
}
