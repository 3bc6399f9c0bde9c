//! The cells of lines.
ghost use Rattle.std.specs.Prelude.{◌≡◌};
ghost use Rattle.dsr_statement.specs.meaning.Cells.{days_in};

use crate::line::LineKind;
use crate::verdict::Status;
use dsr_cells::Day;
use dsr_events::{Column, FileFault};
use dsr_ledger::{Reason, Standing};
use std::marker::Model;

/// A text in a cell. Contracts see it as the text.
#[derive(Drop)]
pub(crate) struct Word<'a> {
    pub(crate) text: &'a str,
}

impl<'a> Model for Word<'a> {
    ghost use Rattle.std.specs.Prelude.{List, ℕ};

    ghost Value = { List ℕ };

    ghost view = { λ word. word.text.now };
}

/// A cell of a line.
#[derive(Drop)]
pub(crate) enum Cell<'a> {
    /// The name of the line.
    Name(LineKind),
    /// A number of 64 bits.
    Number64(u64),
    /// A number of 32 bits.
    Number32(u32),
    /// The number of a file, or a hyphen.
    FileNumber(Option<u32>),
    /// Usages.
    Usages(i128),
    /// Units of 10^-10.
    Amount(i128),
    /// A day.
    OnDay(Day),
    /// How many days there are from the first to the last, inclusive.
    DaysIn(Day, Day),
    /// A text of at most so many bytes.
    Identifier(usize, Word<'a>),
    /// A recording.
    Isrc(Word<'a>),
    /// A territory.
    Territory(Word<'a>),
    /// A use type.
    UseType(Word<'a>),
    /// A currency.
    Currency(Word<'a>),
    /// The name of a party.
    PartyName(Word<'a>),
    /// Whether a file counts.
    Stands(Standing),
    /// Why a block is rejected.
    Why(Reason),
    /// That a file ended whole.
    Whole,
    /// That a file ended with a fault.
    Faulty,
    /// The name of a file's fault.
    FaultName(FileFault),
    /// The name of a column.
    ColumnName(Column),
    /// A SHA-256.
    Sha256(Word<'a>),
    /// A status.
    StatusName(Status),
}

/// How many days there are from the first to the last, inclusive.
pub(crate) fn days_in(first: Day, last: Day) -> i128
    ensures { result ≡ days_in first last }
{
    i128::from(last.number()) - i128::from(first.number()) + 1
}
