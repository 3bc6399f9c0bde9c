//! The lines of a statement, which borrow their texts from the text that was read.
use crate::verdict::Status;
use dsr_cells::Day;
use dsr_ledger::{FileLine, Reason};
use std::marker::Model;

/// The report that a statement is of. Contracts see it as a `ReportKey`.
#[derive(Drop)]
pub struct ReportRef<'a> {
    /// MessageId: 1 to 64 bytes of printable ASCII.
    pub message_id: &'a str,
    /// NumberOfFiles.
    pub number_of_files: u32,
    /// UsageStartDate.
    pub first_day: Day,
    /// UsageEndDate, not before the first day.
    pub last_day: Day,
}

impl<'a> Model for ReportRef<'a> {
    ghost use Rattle.dsr_ledger.specs.declared.report.ReportKey.{ReportKey};

    ghost Value = { ReportKey };

    ghost view = { λ read. record {
      message_id = read.message_id.now;
      number_of_files = read.number_of_files;
      first_day = read.first_day;
      last_day = read.last_day;
    } };
}

/// A summary that states other usages or another amount than was found. Contracts see it as a `Difference`.
#[derive(Drop)]
pub struct DifferenceRef<'a> {
    /// The file's place in the order given, from 1.
    pub file: u64,
    /// SummaryRecordId: 1 to 32 bytes of printable ASCII.
    pub summary_id: &'a str,
    /// The usages that the summary states.
    pub stated_usages: i128,
    /// The usages that were found for it.
    pub found_usages: i128,
    /// The amount that the summary states, in units of 10^-10 of its currency.
    pub stated_amount: i128,
    /// The amount that was found for it, in units of 10^-10 of its currency.
    pub found_amount: i128,
}

impl<'a> Model for DifferenceRef<'a> {
    ghost use Rattle.dsr_ledger.specs.declared.report.Difference.{Difference};

    ghost Value = { Difference };

    ghost view = { λ read. record {
      file = read.file;
      summary_id = read.summary_id.now;
      stated_usages = read.stated_usages;
      found_usages = read.found_usages;
      stated_amount = read.stated_amount;
      found_amount = read.found_amount;
    } };
}

/// The key of a ledger line. Contracts see it as a `Key`.
#[derive(Drop)]
pub struct KeyRef<'a> {
    /// The recording (ISO 3901).
    pub isrc: &'a str,
    /// Territory of the summaries that the usages name.
    pub territory: &'a str,
    /// UseType of these summaries.
    pub use_type: &'a str,
    /// Currency of these summaries (ISO 4217).
    pub currency: &'a str,
}

impl<'a> Model for KeyRef<'a> {
    ghost use Rattle.dsr_ledger.specs.meaning.Bookings.{Key};

    ghost Value = { Key };

    ghost view = { λ read. record {
      isrc = read.isrc.now;
      territory = read.territory.now;
      use_type = read.use_type.now;
      currency = read.currency.now;
    } };
}

/// A party and its part of a ledger line's amount. Contracts see it as a `PartyLine`.
#[derive(Drop)]
pub struct PartyRef<'a> {
    /// The name of the party.
    pub party: &'a str,
    /// What the party is owed, in units of 10^-10 of the line's currency.
    pub amount: i128,
}

impl<'a> Model for PartyRef<'a> {
    ghost use Rattle.dsr_ledger.specs.declared.report.PartyLine.{PartyLine};

    ghost Value = { PartyLine };

    ghost view = { λ read. record { party = read.party.now; amount = read.amount } };
}

/// A rejected block. Contracts see it as a `Reject`.
#[derive(Drop)]
pub struct RejectRef<'a> {
    /// The file's place in the order given, from 1.
    pub file: u64,
    /// The block's place among the file's blocks, from 1.
    pub position: u64,
    /// BlockId: 1 to 32 bytes of printable ASCII.
    pub block_id: &'a str,
    /// Why it is rejected.
    pub reason: Reason,
}

impl<'a> Model for RejectRef<'a> {
    ghost use Rattle.dsr_ledger.specs.declared.report.Reject.{Reject};

    ghost Value = { Reject };

    ghost view = { λ read. record {
      file = read.file;
      position = read.position;
      block_id = read.block_id.now;
      reason = read.reason;
    } };
}

/// How many bytes a file has, and their SHA-256. Contracts see it as a `Digest`.
#[derive(Drop)]
pub struct DigestRef<'a> {
    /// The number of bytes.
    pub bytes: u64,
    /// Their SHA-256 (FIPS 180-4): 64 digits and small letters a to f.
    pub sha256: &'a str,
}

impl<'a> Model for DigestRef<'a> {
    ghost use Rattle.dsr_statement.specs.meaning.Digests.{Digest};

    ghost Value = { Digest };

    ghost view = { λ read. record { bytes = read.bytes; sha256 = read.sha256.now } };
}

/// A line of a statement, or of its seal.
#[derive(Drop)]
pub enum Line<'a> {
    /// The report.
    Report(ReportRef<'a>),
    /// No file has an opening.
    NoReport,
    /// A file, with its place in the order given, from 1.
    File(u64, FileLine),
    /// The number of a missing file.
    Missing(u32),
    /// A difference.
    Summary(DifferenceRef<'a>),
    /// A ledger line: its key, its usages, and its amount in units of 10^-10 of its currency.
    Ledger(KeyRef<'a>, i128, i128),
    /// A party's part of the ledger line.
    Party(KeyRef<'a>, PartyRef<'a>),
    /// What no party has of the ledger line, in units of 10^-10 of its currency.
    Unclaimed(KeyRef<'a>, i128),
    /// A rejected block.
    Reject(RejectRef<'a>),
    /// The bytes of the layout.
    Layout(DigestRef<'a>),
    /// The bytes of a file, with its place in the order given, from 1.
    Input(u64, DigestRef<'a>),
    /// The number of lines before it, and their status.
    End(u64, Status),
}

/// The kind of a line.
#[derive(Clone, Copy, PartialEq, Eq)]
pub enum LineKind {
    /// The report.
    Report,
    /// No report.
    NoReport,
    /// A file.
    File,
    /// A missing file.
    Missing,
    /// A difference.
    Summary,
    /// The sums of a ledger line.
    Ledger,
    /// A party's part of a ledger line.
    Party,
    /// What no party has of a ledger line.
    Unclaimed,
    /// A rejected block.
    Reject,
    /// The bytes of the layout.
    Layout,
    /// The bytes of a file.
    Input,
    /// The end of a sealed statement.
    End,
}
