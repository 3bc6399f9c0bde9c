//! Reading a layout from its text.
ghost use Rattle.std.specs.Prelude.{◌≡◌, ◌<◌, ◌≤◌, ◌∷◌, length, Ok, Err, MatchResult, Some, None, slice_get, if◌then◌else◌};
ghost use Rattle.std.specs.List.{list_all};
ghost use Rattle.std.specs.Option.{option_map};
ghost use Rattle.std.specs.Str.{is_utf8};
ghost use Rattle.dsr_cells.specs.meaning.Cells.{cells};
ghost use Rattle.dsr_cells.specs.meaning.Lines.{without_mark, without_return};
ghost use Rattle.dsr_records.specs.inner.Rows.{pieces_left};
ghost use Rattle.dsr_records.specs.meaning.Layouts.{empty_layout, is_type_text, is_type_byte, kind_named, position_of, positions_from, with_line, with_text, with_piece, with_lines, layout_of, cell_at};

use crate::column::{MOST_COLUMNS, column_may_be_empty, columns};
use crate::fault::{LayoutError, LayoutFault};
use crate::layout::line::{RoleLine, TypeName};
use crate::layout::{Layout, place};
use crate::line::{LINE_LIMIT, is_left_out, strip_return};
use arrayvec::ArrayVec;
use dsr_cells::{cell, read_number};
use dsr_events::{Column, Kind};
use dsr_texts::{line_end, text_of};

/// The maximum number of bytes of a layout.
const MOST_BYTES: usize = 65536;

/// The greatest position of a column.
const LAST_POSITION: u64 = 63;

/// The kind that a role's name stands for.
fn read_kind_name(name: &str) -> Option<Kind>
    ensures { result ≡ kind_named name.now }
{
    match name {
        "HEAD" => Some(Kind::Head),
        "SY" => Some(Kind::Summary),
        "AS" => Some(Kind::Resource),
        "MW" => Some(Kind::Work),
        "SU" => Some(Kind::Usage),
        "FOOT" => Some(Kind::Foot),
        "SKIP" => Some(Kind::Skipped),
        _ => None,
    }
}

/// Whether a text is a record type: 1 to 16 letters, digits or dots.
fn is_type(name: &str) -> bool
    ensures { result ≡ is_type_text name.now }
{
    all_of_type(name.as_bytes()) && 1 <= name.len() && name.len() <= 16
}

/// Whether each byte is a letter, a digit or a dot.
fn all_of_type(bytes: &[u8]) -> bool
    ensures { result ≡ list_all is_type_byte bytes.now }
{
    bytes
        .iter()
        .all(|byte| byte.is_ascii_alphanumeric() || *byte == b'.')
}

/// The position of a column; Some(None) for a hyphen if the column may be empty.
fn read_position(column: Column, text: &str) -> Option<Option<u8>>
    ensures { result ≡ position_of column text.now }
{
    if text == "-" && column_may_be_empty(column) {
        return Some(None);
    }
    let position = read_number(text)?;
    if position < 1 || position > LAST_POSITION {
        return None;
    }
    Some(Some(position as u8))
}

/// The positions of the columns, from cell 2 of a layout line.
fn read_positions(line: &str, columns: &[Column]) -> Option<ArrayVec<Option<u8>, MOST_COLUMNS>>
    requires { length columns.now ≤ 7 }
    ensures { option_map (λ p. p.items) result ≡ positions_from line.now columns.now 2 }
{
    let mut positions = ArrayVec::new();
    for (i, column) in columns.iter().enumerate() {
        positions.push(read_position(*column, cell(line, i + 2)?)?);
    }
    Some(positions)
}

impl Layout {
    /// Adds a line for a kind, or for a record type to be skipped.
    fn add_line(&mut self, kind: Kind, line: &str) -> Result<(), LayoutFault>
        ensures { MatchResult result (λ _. with_line self.old kind
            (cell_at line.now 1) line.now ≡ Ok self.new)
            (λ fault. with_line self.old kind (cell_at line.now 1) line.now ≡ Err fault) }
    {
        let name = cell(line, 1).unwrap_or("");
        let is_role = place(kind) < 6;
        if !is_type(name) {
            return Err(LayoutFault::BadType);
        }
        if is_role && self.has_kind(kind) {
            return Err(LayoutFault::RoleTwice);
        }
        if self.has_type(name) {
            return Err(LayoutFault::TypeTwice);
        }
        if !is_role {
            return self.add_skipped(name);
        }
        match read_positions(line, columns(kind)) {
            Some(positions) => {
                self.add_role(RoleLine {
                    kind,
                    name: TypeName::new(name),
                    positions,
                });
                Ok(())
            }
            None => Err(LayoutFault::BadPosition),
        }
    }

    /// Adds a line of text. An empty line and one that begins with `#` change nothing.
    fn add_text(&mut self, line: &str) -> Result<(), LayoutFault>
        ensures { MatchResult result (λ _. with_text self.old line.now ≡ Ok self.new)
            (λ fault. with_text self.old line.now ≡ Err fault) }
    {
        if is_left_out(line) {
            return Ok(());
        }
        match read_kind_name(cell(line, 0).unwrap_or("")) {
            Some(kind) => self.add_line(kind, line),
            None => Err(LayoutFault::UnknownRole),
        }
    }

    /// Adds a line, given as bytes.
    fn add_piece(&mut self, piece: &[u8]) -> Result<(), LayoutFault>
        ensures { MatchResult result (λ _. with_piece self.old piece.now ≡ Ok self.new)
            (λ fault. with_piece self.old piece.now ≡ Err fault) }
    {
        if piece.len() > LINE_LIMIT {
            return Err(LayoutFault::LongLine);
        }
        match read_text(piece) {
            Some(text) => self.add_text(text),
            None => Err(LayoutFault::NotUtf8),
        }
    }

    /// The layout that the lines of a text spell, or its first fault.
    ///
    /// # Errors
    ///
    /// The first faulty line, and its fault.
    #[tactic(auto, using(crate::proofs::Cuts::few_bytes))]
    pub fn read(bytes: &[u8]) -> Result<Layout, LayoutError>
        ensures { result ≡ layout_of bytes.now }
    {
        if bytes.len() > MOST_BYTES {
            return Err(LayoutError {
                line: 1,
                fault: LayoutFault::Large,
            });
        }
        read_lines(without_byte_order_mark(bytes))
    }
}

/// The text of a piece without a carriage return at its end, if it is UTF-8.
fn read_text(piece: &[u8]) -> Option<&str>
    ensures { option_map (λ t. t.now) result
        ≡ (if is_utf8 piece.now then Some (without_return piece.now) else None) }
{
    match text_of(piece) {
        Some(text) => Some(strip_return(text)),
        None => None,
    }
}

/// The bytes without a byte order mark.
fn without_byte_order_mark(bytes: &[u8]) -> &[u8]
    ensures { result.now ≡ without_mark bytes.now }
{
    if bytes.starts_with(&[0xEF, 0xBB, 0xBF]) {
        &bytes[3..]
    } else {
        bytes
    }
}

/// The first line of a text that is not empty, and what is behind its line feed.
fn first_line(text: &[u8]) -> (&[u8], &[u8])
    requires { 0 < length text.now }
    ensures cut { pieces_left text.now ≡ result.0.now ∷ pieces_left result.1.now }
    ensures shorter { length result.1.now < length text.now }
{
    let end = line_end(text);
    if end < text.len() {
        (&text[..end], &text[end + 1..])
    } else {
        (text, &[])
    }
}

/// The layout that the lines of a text spell.
fn read_lines(text: &[u8]) -> Result<Layout, LayoutError>
    requires { length text.now ≤ 65536 }
    ensures { result ≡ with_lines 1 (pieces_left text.now) empty_layout }
{
    let mut layout = Layout::empty();
    let mut rest = text;
    let mut line = 1;
    while !rest.is_empty() {
        let (first, behind) = first_line(rest);
        if let Err(fault) = layout.add_piece(first) {
            return Err(LayoutError { line, fault });
        }
        rest = behind;
        line += 1;
    }
    if !layout.is_whole() {
        return Err(LayoutError {
            line,
            fault: LayoutFault::MissingRole,
        });
    }
    Ok(layout)
}
