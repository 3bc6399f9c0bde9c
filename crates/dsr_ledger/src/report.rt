//! The report that the books make.
ghost use Rattle.std.specs.Prelude.{◌≡◌, ◌++◌, ◌∷◌, [], MatchResult};

use crate::verdict::{Reason, Standing};
use dsr_cells::{Day, Isrc, NoMemory, Text};
use dsr_events::Outcome;
use dsr_texts::{InlineItems, Items};

/// The key of a report.
#[derive(Drop)]
pub struct ReportKey {
    /// MessageId, which all files of a report share: 1 to 64 bytes of printable ASCII.
    pub message_id: Text,
    /// NumberOfFiles: 1 to 9,999.
    pub number_of_files: u32,
    /// UsageStartDate.
    pub first_day: Day,
    /// UsageEndDate, not before the first day.
    pub last_day: Day,
}

/// A file, in the order given.
#[derive(Drop)]
pub struct FileLine {
    /// FileNumber of its opening, 1 to 9,999; None if it has no opening.
    pub number: Option<u32>,
    /// Whether it counts, and why not.
    pub standing: Standing,
    /// The number of blocks taken from it, at most 2^37.
    pub blocks: u64,
    /// How it ended.
    pub outcome: Outcome,
}

/// A summary that states other usages or another amount than the usages that name it add up to.
#[derive(Drop)]
pub struct Difference {
    /// The file's place in the order given, from 1.
    pub file: u32,
    /// SummaryRecordId: 1 to 32 bytes of printable ASCII.
    pub summary_id: Text,
    /// The usages that the summary states, below 10^12 either way.
    pub stated_usages: i64,
    /// The sum of the usages of the records that name it, in blocks booked or rejected.
    pub found_usages: i128,
    /// The amount that the summary states, in units of 10^-10 of its currency.
    pub stated_amount: i128,
    /// The sum of the amounts of these records, in units of 10^-10 of its currency.
    pub found_amount: i128,
}

/// A party's part of a ledger line's amount.
#[derive(Default, Drop)]
pub struct PartyLine {
    /// The name of the party, as the works spell it.
    pub party: Text,
    /// What the party is owed, in units of 10^-10 of the line's currency.
    pub amount: i128,
}

/// The parties of a ledger line, by the bytes of their names; up to two are stored in the line itself.
pub type Parties = InlineItems<PartyLine, 2>;

/// The sums of the booked usages of a recording under a territory, a use type and a currency.
#[derive(Drop)]
pub struct LedgerLine {
    /// The recording (ISO 3901).
    pub isrc: Isrc,
    /// Territory of the summaries that the usages name.
    pub territory: Text,
    /// UseType of these summaries.
    pub use_type: Text,
    /// Currency of these summaries (ISO 4217).
    pub currency: Text,
    /// The sum of the booked usages, which may be below zero.
    pub usages: i128,
    /// The sum of their amounts, in units of 10^-10 of the currency.
    pub amount: i128,
    /// The parties that have a part, by the bytes of their names.
    pub parties: Parties,
    /// The amount minus the amounts of the parties, in units of 10^-10 of the currency.
    pub unclaimed: i128,
}

/// A rejected block.
#[derive(Drop)]
pub struct Reject {
    /// The file's place in the order given, from 1.
    pub file: u32,
    /// The block's place among the file's blocks, from 1.
    pub position: u64,
    /// BlockId: 1 to 32 bytes of printable ASCII.
    pub block_id: Text,
    /// Why it is rejected.
    pub reason: Reason,
}

/// The files' lines, in the order given.
pub type FileLines = Items<FileLine>;

/// The numbers of missing files, ascending.
pub type Numbers = Items<u32>;

/// The differences, by file and then in file order.
pub type Differences = Items<Difference>;

/// The ledger's lines, by the bytes of ISRC, territory, use type and currency.
pub type LedgerLines = Items<LedgerLine>;

/// The rejected blocks, by file and then in file order.
pub type Rejects = Items<Reject>;

/// The report of a list of files.
pub struct Report {
    /// The key of the first file, in the order given, that has an opening; None if no file has.
    pub key: Option<ReportKey>,
    /// The line of each file, in the order given.
    pub files: FileLines,
    /// The numbers from 1 to NumberOfFiles that no file with the standing Ours has, ascending; none without a key.
    pub missing: Numbers,
    /// The differences of the files that are Ours and ended whole, by file and then in file order.
    pub differences: Differences,
    /// The ledger: the booked usages and amounts, and each party's part.
    pub ledger: LedgerLines,
    /// The rejected blocks.
    pub rejects: Rejects,
}

/// Written out, so that dropping one is a call: a derived drop is proved anew wherever it happens.
impl Drop for Report {
    fn drop(self) {
        let Report {
            key: _,
            files: _,
            missing: _,
            differences: _,
            ledger: _,
            rejects: _,
        } = self;
    }
}

/// Appends an item. If memory is refused, the item is dropped and the list is unchanged.
pub(crate) fn append<T: Drop>(items: &mut Items<T>, item: T) -> Result<(), NoMemory>
    ensures { MatchResult result (λ _. items.new ≡ items.old ++ item ∷ [])
        (λ _. items.new ≡ items.old) }
{
    let Ok(()) = items.push(item) else {
        return Err(NoMemory);
    };
    Ok(())
}
