//! HEAD: the first record of a file.
ghost use Rattle.std.specs.Prelude.{◌≡◌, Ok, Err, MatchResult, IfOk};
ghost use Rattle.dsr_events.specs.declared.kinds.Kind.TheVariants as kinds;
ghost use Rattle.dsr_events.specs.declared.record.Record.TheVariants as records;
ghost use Rattle.dsr_records.specs.meaning.Values.{record_by_row};

use crate::fault::RecordFault;
use crate::row::Row;
use crate::spelled::{
    read_file_number, read_first_day, read_identifier, read_last_day, read_number_of_files,
};
use dsr_cells::{Day, NoMemory, Text};
use dsr_events::{Column, Head};
use std::alloc::Global;
use std::marker::Model;

/// A head whose texts are borrowed from its line. Contracts see it as the head.
#[derive(Drop)]
pub struct HeadLine<'l> {
    message_id: &'l str,
    file_number: u32,
    number_of_files: u32,
    first_day: Day,
    last_day: Day,
    sender: &'l str,
    recipient: &'l str,
}

impl<'l> Model for HeadLine<'l> {
    ghost use Rattle.dsr_events.specs.declared.record.Head.{Head as HeadRecord};

    ghost Value = { HeadRecord };

    ghost view = { λ h. record {
      message_id = h.message_id.now;
      file_number = h.file_number;
      number_of_files = h.number_of_files;
      first_day = h.first_day;
      last_day = h.last_day;
      sender = h.sender.now;
      recipient = h.recipient.now;
    } };
}

/// The head that a row spells, or its first fault.
#[inline(always)]
pub(crate) fn check_head<'l>(row: &Row<'_, 'l>) -> Result<HeadLine<'l>, RecordFault>
    ensures { MatchResult result (λ h. record_by_row row.now kinds.Head ≡ Ok (records.Head h))
        (λ fault. record_by_row row.now kinds.Head ≡ Err fault) }
{
    let message_id = read_identifier(row, 0, Column::MessageId, 64)?;
    let file_number = read_file_number(row, 1)?;
    let number_of_files = read_number_of_files(row, 2, file_number)?;
    let first_day = read_first_day(row, 3)?;
    let last_day = read_last_day(row, 4, first_day)?;
    Ok(HeadLine {
        message_id,
        file_number,
        number_of_files,
        first_day,
        last_day,
        sender: row.text(5),
        recipient: row.text(6),
    })
}

impl<'l> HeadLine<'l> {
    /// The head, with its texts copied.
    ///
    /// # Errors
    ///
    /// `NoMemory`: out of memory for the head's texts.
    pub fn copy(&self, alloc: Global) -> Result<Head, NoMemory>
        ensures { IfOk result (λ r. r ≡ self.now) }
    {
        Ok(Head {
            message_id: Text::copy_of(alloc, self.message_id)?,
            file_number: self.file_number,
            number_of_files: self.number_of_files,
            first_day: self.first_day,
            last_day: self.last_day,
            sender: Text::copy_of(alloc, self.sender)?,
            recipient: Text::copy_of(alloc, self.recipient)?,
        })
    }
}
