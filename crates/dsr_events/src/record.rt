//! The records.
ghost use Rattle.std.specs.Prelude.{◌≡◌};

use dsr_cells::{Amount, Day, Shares, Text, Texts};
use std::alloc::Global;
use std::default::MadeWith;
use std::marker::Model;

/// The first record of a file.
#[derive(Drop)]
pub struct Head {
    /// MessageId, which names the report: 1 to 64 bytes of printable ASCII.
    pub message_id: Text,
    /// FileNumber: the number of this file in the report, from 1 to `number_of_files`.
    pub file_number: u32,
    /// NumberOfFiles: the number of files of the report, at most 9,999.
    pub number_of_files: u32,
    /// UsageStartDate: the first day of the usages.
    pub first_day: Day,
    /// UsageEndDate: the last day of the usages, not before the first.
    pub last_day: Day,
    /// Sender: any text, empty if the cell is missing.
    pub sender: Text,
    /// Recipient: any text, empty if the cell is missing.
    pub recipient: Text,
}

/// A summary of usages.
#[derive(Drop)]
pub struct Summary {
    /// SummaryRecordId, to which usages refer: 1 to 32 bytes of printable ASCII.
    pub id: Text,
    /// Territory, such as `GB`.
    pub territory: Text,
    /// UseType, such as `OnDemandStream`.
    pub use_type: Text,
    /// Currency: three capitals, as in ISO 4217.
    pub currency: Text,
    /// Usages: the stated number, between -(10^12 - 1) and 10^12 - 1.
    pub usages: i64,
    /// Amount: the stated amount, in units of 10^-10 of the currency.
    pub amount: Amount,
}

/// The resource of a block.
#[derive(Drop)]
pub struct Resource {
    /// BlockId: 1 to 32 bytes of printable ASCII.
    pub block_id: Text,
    /// Isrc: the text of its cell, which may be empty or not an ISRC.
    pub isrc: Text,
    /// Titles: the values of a list cell.
    pub titles: Texts,
    /// Artists: the values of a list cell.
    pub artists: Texts,
}

/// An empty resource, to be overwritten.
impl MadeWith<Global> for Resource {
    ghost use Rattle.dsr_events.specs.layer.Blocks.{empty_resource};

    ghost is_made_with = { λ r. r ≡ empty_resource };

    fn made_with(alloc: Global) -> Resource {
        Resource {
            block_id: Text::default(),
            isrc: Text::default(),
            titles: Texts::new(alloc),
            artists: Texts::new(alloc),
        }
    }
}

/// A work of a block, with one share for each party.
#[derive(Drop)]
pub struct Work {
    /// BlockId: 1 to 32 bytes of printable ASCII.
    pub block_id: Text,
    /// WorkId: any text.
    pub work_id: Text,
    /// Title: any text.
    pub title: Text,
    /// Parties: the values of a list cell.
    pub parties: Texts,
    /// Shares: one for each party, in units of 0.0001 percent.
    pub shares: Shares,
}

impl Model for Work {
    ghost use Rattle.std.specs.Prelude.{◌≡◌, length};
    ghost use Rattle.dsr_events.specs.meaning.Works.{WorkParts};

    ghost Value = { WorkParts };

    ghost view = { λ a. record {
      block_id = a.block_id;
      work_id = a.work_id;
      title = a.title;
      parties = a.parties;
      shares = a.shares;
    } };

    ghost invariant = { λ a. length a.parties ≡ length a.shares };
}

/// An empty work, to be overwritten.
impl MadeWith<Global> for Work {
    fn made_with(alloc: Global) -> Work {
        Work {
            block_id: Text::default(),
            work_id: Text::default(),
            title: Text::default(),
            parties: Texts::new(alloc),
            shares: Shares::new(alloc),
        }
    }
}

/// A usage of a block's resource.
#[derive(Drop)]
pub struct Usage {
    /// BlockId: 1 to 32 bytes of printable ASCII.
    pub block_id: Text,
    /// SummaryRecordId: the summary that it belongs to, 1 to 32 bytes of printable ASCII.
    pub summary_id: Text,
    /// Usages: their number, between -(10^12 - 1) and 10^12 - 1.
    pub usages: i64,
    /// Amount: the amount owed, in units of 10^-10 of the currency.
    pub amount: Amount,
}

/// An empty usage, to be overwritten.
impl MadeWith<Global> for Usage {
    fn made_with(_alloc: Global) -> Usage {
        Usage {
            block_id: Text::default(),
            summary_id: Text::default(),
            usages: 0,
            amount: Amount::default(),
        }
    }
}

/// The last record of a file, which states how many lines, summaries and blocks the file has.
#[derive(Clone, Copy)]
pub struct Foot {
    /// NumberOfLinesInFile, below 10^12.
    pub lines: u64,
    /// NumberOfSummaryRecords, below 10^12.
    pub summaries: u64,
    /// NumberOfBlocksInFile, below 10^12.
    pub blocks: u64,
}

/// A record; each kind is named here by its record type in the standard layout.
#[derive(Drop)]
pub enum Record {
    /// HEAD.
    Head(Head),
    /// SY01.
    Summary(Summary),
    /// AS01.
    Resource(Resource),
    /// MW01.
    Work(Work),
    /// SU01.
    Usage(Usage),
    /// FOOT.
    Foot(Foot),
    /// A record of a type that the layout skips.
    Skipped,
}
