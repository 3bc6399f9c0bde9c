//! The lines of a seal, read leniently.
ghost use Rattle.std.specs.Prelude.{◌≡◌, ℕ, Some, length};
ghost use Rattle.dsr_statement.specs.declared.verdict.Status.{Status as StatusValue};
ghost use Rattle.dsr_statement.specs.meaning.Digests.{Digest};
ghost use Rattle.dsr_statement.specs.inner.Lenient.{ReadsKind};

use crate::line::{DigestRef, Line, LineKind};
use crate::names::status_named;
use crate::number::read_u64;
use crate::verdict::Status;
use dsr_cells::FirstCells;

/// The line of the layout with these parts.
fn layout_of<'l>(bytes: Option<u64>, sha256: &'l str) -> Option<Line<'l>>
    ensures { (d : Digest) → bytes ≡ Some d.bytes → sha256.now ≡ d.sha256 → result ≡ Some (Line.Layout d) }
{
    let bytes = bytes?;
    Some(Line::Layout(DigestRef { bytes, sha256 }))
}

/// The line of the layout.
pub(crate) fn read_layout<'l>(row: &FirstCells<'l>) -> Option<Line<'l>>
    requires { length row.now ≡ 3 }
    ensures { ReadsKind LineKind.Layout row.now result }
{
    layout_of(read_u64(row.at(1)), row.at(2))
}

/// The line of a file's bytes with these parts.
fn input_of<'l>(place: Option<u64>, bytes: Option<u64>, sha256: &'l str) -> Option<Line<'l>>
    ensures { (at : ℕ) (d : Digest) → place ≡ Some at → bytes ≡ Some d.bytes → sha256.now ≡ d.sha256
        → result ≡ Some (Line.Input at d) }
{
    let (place, bytes) = (place?, bytes?);
    Some(Line::Input(place, DigestRef { bytes, sha256 }))
}

/// The line of a file's bytes.
pub(crate) fn read_input<'l>(row: &FirstCells<'l>) -> Option<Line<'l>>
    requires { length row.now ≡ 4 }
    ensures { ReadsKind LineKind.Input row.now result }
{
    input_of(read_u64(row.at(1)), read_u64(row.at(2)), row.at(3))
}

/// The last line of a sealed statement with these parts.
fn end_of<'l>(count: Option<u64>, status: Option<Status>) -> Option<Line<'l>>
    ensures { (n : ℕ) (s : StatusValue) → count ≡ Some n → status ≡ Some s → result ≡ Some (Line.End n s) }
{
    Some(Line::End(count?, status?))
}

/// The last line of a sealed statement.
pub(crate) fn read_end<'l>(row: &FirstCells<'l>) -> Option<Line<'l>>
    requires { length row.now ≡ 3 }
    ensures { ReadsKind LineKind.End row.now result }
{
    end_of(read_u64(row.at(1)), status_named(row.at(2)))
}
