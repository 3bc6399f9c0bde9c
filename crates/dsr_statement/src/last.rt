//! What is kept of the lines read so far.
ghost use Rattle.std.specs.Prelude.{◌≡◌, List, IfSome, OnOk};
ghost use Rattle.dsr_ledger.specs.meaning.Bookings.{key_eq};
ghost use Rattle.dsr_statement.specs.declared.line.Line.{Line as LineValue};
ghost use Rattle.dsr_statement.specs.meaning.Order.{is_key_below, file_follows, missing_follows, summary_follows, reject_follows, input_follows, end_follows, follows_file, follows_missing, follows_summary, follows_ledger, follows_reject, may_end, is_end};
ghost use Rattle.dsr_statement.specs.meaning.Status.{is_nil};
ghost use Rattle.dsr_statement.specs.inner.After.{last_line, last_of, Settles};
ghost use Rattle.dsr_statement.specs.inner.Near.{key_before};

use crate::cut::after_cell;
use crate::line::{KeyRef, Line};
use dsr_cells::{NoMemory, Text};
use std::alloc::Global;
use std::marker::Model;

/// The last line that was read, as far as the next one depends on it.
#[derive(Clone, Copy)]
pub(crate) enum Last {
    /// None was.
    Start,
    /// REPORT.
    Report,
    /// FILE, with its place.
    File(u64),
    /// MISSING, with its number.
    Missing(u32),
    /// SUMMARY, with its file.
    Summary(u64),
    /// LEDGER.
    Ledger,
    /// PARTY.
    Party,
    /// UNCLAIMED.
    Unclaimed,
    /// REJECT, with its file and position.
    Reject(u64, u64),
    /// LAYOUT.
    Layout,
    /// INPUT, with its place.
    Input(u64),
    /// END.
    End,
}

impl Last {
    /// As the last line.
    pub(crate) fn of(line: &Line<'_>) -> Last
        ensures { result ≡ last_line line.now }
    {
        match line {
            Line::Report(_) | Line::NoReport => Last::Report,
            Line::File(place, _) => Last::File(*place),
            Line::Missing(number) => Last::Missing(*number),
            Line::Summary(difference) => Last::Summary(difference.file),
            Line::Ledger(_, _, _) => Last::Ledger,
            Line::Party(_, _) => Last::Party,
            Line::Unclaimed(_, _) => Last::Unclaimed,
            Line::Reject(reject) => Last::Reject(reject.file, reject.position),
            Line::Layout(_) => Last::Layout,
            Line::Input(place, _) => Last::Input(*place),
            Line::End(_, _) => Last::End,
        }
    }

    /// Whether a statement begins here.
    pub(crate) fn is_start(self) -> bool
        ensures { (before : List LineValue) → self ≡ last_of before → result ≡ is_nil before }
    {
        matches!(self, Last::Start)
    }

    /// Whether a statement may end here.
    pub(crate) fn may_end(self) -> bool
        ensures { Settles self may_end result }
    {
        self.is_end() || self.is_reject()
    }

    /// Whether it is END.
    pub(crate) fn is_end(self) -> bool
        ensures { Settles self is_end result }
    {
        matches!(self, Last::End)
    }

    /// Whether the line of the file at this place may stand next.
    pub(crate) fn precedes_file(self, place: u64) -> bool
        ensures { Settles self (file_follows place) result }
    {
        match self {
            Last::Report => place == 1,
            Last::File(before) => before < place && place - before == 1,
            _ => false,
        }
    }

    /// Whether it is the line of a file.
    fn is_file(self) -> bool
        ensures { Settles self follows_file result }
    {
        matches!(self, Last::File(_))
    }

    /// Whether it is the line of a file or of a missing one.
    fn is_missing(self) -> bool
        ensures { Settles self follows_missing result }
    {
        matches!(self, Last::Missing(_)) || self.is_file()
    }

    /// Whether it is the line of a file, of a missing one or of a difference.
    pub(crate) fn is_summary(self) -> bool
        ensures { Settles self follows_summary result }
    {
        matches!(self, Last::Summary(_)) || self.is_missing()
    }

    /// Whether it is one of these or the last of a ledger line.
    fn is_unclaimed(self) -> bool
        ensures { Settles self follows_ledger result }
    {
        matches!(self, Last::Unclaimed) || self.is_summary()
    }

    /// Whether a statement that is not sealed may end with it.
    pub(crate) fn is_reject(self) -> bool
        ensures { Settles self follows_reject result }
    {
        matches!(self, Last::Reject(_, _)) || self.is_unclaimed()
    }

    /// Whether the line of the bytes of the file at this place may stand next.
    pub(crate) fn precedes_input(self, place: u64) -> bool
        ensures { Settles self (input_follows place) result }
    {
        match self {
            Last::Input(before) => before < place && place - before == 1,
            Last::Layout => place == 1,
            _ => self.is_reject() && place == 1,
        }
    }

    /// Whether END may stand next, after so many files.
    pub(crate) fn precedes_end(self, files: u64) -> bool
        ensures { Settles self (end_follows files) result }
    {
        match self {
            Last::Input(place) => place == files,
            _ => false,
        }
    }

    /// Whether the line of this missing file may stand next.
    pub(crate) fn precedes_missing(self, number: u32) -> bool
        ensures { Settles self (missing_follows number) result }
    {
        match self {
            Last::Missing(before) => before < number,
            _ => self.is_file(),
        }
    }

    /// Whether the line of a difference of this file may stand next.
    pub(crate) fn precedes_summary(self, file: u64) -> bool
        ensures { Settles self (summary_follows file) result }
    {
        match self {
            Last::Summary(before) => before <= file,
            _ => self.is_missing(),
        }
    }

    /// Whether the line of this rejected block may stand next.
    pub(crate) fn precedes_reject(self, file: u64, position: u64) -> bool
        ensures { Settles self (reject_follows file position) result }
    {
        match self {
            Last::Reject(last, before) => { last < file || (last == file && before < position) }
            _ => self.is_unclaimed(),
        }
    }
}

/// The key of the last ledger line. Contracts see it as a `Key`.
#[derive(Drop)]
pub(crate) struct LastKey {
    isrc: Text,
    territory: Text,
    use_type: Text,
    currency: Text,
}

impl Model for LastKey {
    ghost use Rattle.dsr_ledger.specs.meaning.Bookings.{Key};

    ghost Value = { Key };

    ghost view = { λ k. record {
      isrc = k.isrc;
      territory = k.territory;
      use_type = k.use_type;
      currency = k.currency;
    } };
}

impl LastKey {
    /// A key of empty texts.
    pub(crate) fn new() -> LastKey {
        LastKey {
            isrc: Text::default(),
            territory: Text::default(),
            use_type: Text::default(),
            currency: Text::default(),
        }
    }

    /// Writes another key over this one.
    pub(crate) fn assign(&mut self, alloc: Global, key: &KeyRef<'_>) -> Result<(), NoMemory>
        ensures { OnOk result (self.new ≡ key.now) }
    {
        self.isrc.assign(alloc, key.isrc)?;
        self.territory.assign(alloc, key.territory)?;
        self.use_type.assign(alloc, key.use_type)?;
        self.currency.assign(alloc, key.currency)?;
        Ok(())
    }

    /// Whether it is this key.
    pub(crate) fn is(&self, key: &KeyRef<'_>) -> bool
        ensures { result ≡ key_eq self.now key.now }
    {
        self.isrc.as_str() == key.isrc
            && self.territory.as_str() == key.territory
            && self.use_type.as_str() == key.use_type
            && self.currency.as_str() == key.currency
    }

    /// Its cells at the front of a text, if they are there, with a TAB behind each, and the text behind them.
    #[inline(always)]
    pub(crate) fn cut<'t>(&self, text: &'t str) -> Option<(KeyRef<'t>, &'t str)>
        ensures key { IfSome result (λ cut. cut.0 ≡ self.now) }
        ensures behind { IfSome result (λ cut. text.now ≡ key_before self.now cut.1.now) }
    {
        let (isrc, text) = after_cell(text, self.isrc.as_str())?;
        let (territory, text) = after_cell(text, self.territory.as_str())?;
        let (use_type, text) = after_cell(text, self.use_type.as_str())?;
        let (currency, text) = after_cell(text, self.currency.as_str())?;
        Some((
            KeyRef {
                isrc,
                territory,
                use_type,
                currency,
            },
            text,
        ))
    }

    /// Whether it is below this key.
    pub(crate) fn is_below(&self, key: &KeyRef<'_>) -> bool
        ensures { result ≡ is_key_below self.now key.now }
    {
        let isrcs = self.isrc.as_str().cmp(key.isrc);
        let territories = self.territory.as_str().cmp(key.territory);
        let use_types = self.use_type.as_str().cmp(key.use_type);
        let currencies = self.currency.as_str().cmp(key.currency);
        isrcs
            .then(territories.then(use_types.then(currencies)))
            .is_lt()
    }
}
