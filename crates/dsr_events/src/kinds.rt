//! The kinds of record and their columns. The columns are those of docs/PROFILE.md, a profile
//! of DDEX's Digital Sales Report (DSR). The record types of the standard layout have no version suffix; a layout may
//! name types that have one (`AS01.01`).
ghost use Rattle.std.specs.Prelude.{◌≡◌};
ghost use Rattle.dsr_events.specs.meaning.Names.{column_name};

/// The kinds of record, each with its record type in the standard layout.
#[derive(Clone, Copy, PartialEq, Eq)]
pub enum Kind {
    /// The first record of a file: HEAD.
    Head,
    /// A summary of usages: SY01.
    Summary,
    /// The resource of a block: AS01.
    Resource,
    /// A work of a block: MW01.
    Work,
    /// A usage of a block: SU01.
    Usage,
    /// The last record of a file: FOOT.
    Foot,
    /// A record of a type that the layout skips.
    Skipped,
}

/// The columns of the records, each with its record types and positions in the standard layout.
#[derive(Clone, Copy, PartialEq, Eq)]
pub enum Column {
    /// HEAD 1: 1 to 64 bytes of printable ASCII.
    MessageId,
    /// HEAD 2: 1 to 9999.
    FileNumber,
    /// HEAD 3: from the file number to 9999.
    NumberOfFiles,
    /// HEAD 4: a day of the Gregorian calendar, `YYYY-MM-DD`.
    UsageStartDate,
    /// HEAD 5: a day, not before the start date.
    UsageEndDate,
    /// HEAD 6: any text.
    Sender,
    /// HEAD 7: any text.
    Recipient,
    /// SY01 1 and SU01 2: 1 to 32 bytes of printable ASCII.
    SummaryRecordId,
    /// SY01 2: 1 to 16 letters, digits or hyphens.
    Territory,
    /// SY01 3: 1 to 64 letters or digits.
    UseType,
    /// SY01 4: three capitals, as in ISO 4217.
    Currency,
    /// SY01 5 and SU01 3: a whole number between -(10^12 - 1) and 10^12 - 1.
    Usages,
    /// SY01 6 and SU01 4: a decimal number with at most 12 digits before the point and 10 after it.
    Amount,
    /// AS01 1, MW01 1 and SU01 1: 1 to 32 bytes of printable ASCII.
    BlockId,
    /// AS01 2: any text; the books decide whether it is an ISRC (ISO 3901).
    Isrc,
    /// AS01 3: a list of texts.
    Titles,
    /// AS01 4: a list of texts.
    Artists,
    /// MW01 2: any text.
    WorkId,
    /// MW01 3: any text.
    Title,
    /// MW01 4: a list of texts.
    Parties,
    /// MW01 5: a list of percentages of at most 100 with at most 4 decimals, one for each party.
    Shares,
    /// FOOT 1: a whole number below 10^12.
    NumberOfLinesInFile,
    /// FOOT 2: a whole number below 10^12.
    NumberOfSummaryRecords,
    /// FOOT 3: a whole number below 10^12.
    NumberOfBlocksInFile,
}

impl Column {
    /// The name of the column.
    pub fn name(self) -> &'static str
        ensures { result.now ≡ column_name self }
    {
        match self {
            Column::MessageId => "MessageId",
            Column::FileNumber => "FileNumber",
            Column::NumberOfFiles => "NumberOfFiles",
            Column::UsageStartDate => "UsageStartDate",
            Column::UsageEndDate => "UsageEndDate",
            Column::Sender => "Sender",
            Column::Recipient => "Recipient",
            Column::SummaryRecordId => "SummaryRecordId",
            Column::Territory => "Territory",
            Column::UseType => "UseType",
            Column::Currency => "Currency",
            Column::Usages => "Usages",
            Column::Amount => "Amount",
            Column::BlockId => "BlockId",
            Column::Isrc => "Isrc",
            Column::Titles => "Titles",
            Column::Artists => "Artists",
            Column::WorkId => "WorkId",
            Column::Title => "Title",
            Column::Parties => "Parties",
            Column::Shares => "Shares",
            Column::NumberOfLinesInFile => "NumberOfLinesInFile",
            Column::NumberOfSummaryRecords => "NumberOfSummaryRecords",
            Column::NumberOfBlocksInFile => "NumberOfBlocksInFile",
        }
    }
}
