//! Writing the seal of a statement.
ghost use Rattle.std.specs.Prelude.{◌≡◌, ◌≤◌, ◌+◌, ◌-◌, ◌^◌, length, min, take, OnOk, IfErr};
ghost use Rattle.std.specs.Option.{option_map};
ghost use Rattle.dsr_io.specs.meaning.Written.{IsFlushed, IsCut};
ghost use Rattle.dsr_statement.specs.inner.Pieces.{Puts};
ghost use Rattle.dsr_statement.specs.meaning.Seals.{inputs_from, layout_lines, origin_lines, seal_lines};
ghost use Rattle.dsr_statement.specs.meaning.Statement.{text_of};

use crate::digest::Digest;
use dsr_io::Outlet;
use dsr_statement::{Line, Pieces, Status, put_line};

/// Room for this many bytes that wait, to be written at once.
const PIECE: usize = 4096;

/// Writes the seal of a statement in pieces, and then flushes. It stands behind the statement, which has so many lines and this
/// status; so the outlet took at least as many bytes.
///
/// # Errors
///
/// How many of its bytes were written before a write or the flush failed.
pub fn write_seal<W: Outlet>(
    out: &mut W,
    layout: Option<&Digest>,
    inputs: &[Digest],
    lines: u64,
    status: Status,
) -> Result<(), u64>
    requires { lines ≤ (W.told out.old).taken }
    ensures whole { let seal = text_of (seal_lines (option_map (λ d. d.now) layout.entry) inputs.now lines status) in
        OnOk result (IsFlushed seal (W.told out.old) (W.told out.new)) }
    ensures part { let seal = text_of (seal_lines (option_map (λ d. d.now) layout.entry) inputs.now lines status) in
        IfErr result (λ n. (n ≤ length seal) × IsCut (take n seal) (W.told out.old) (W.told out.new)) }
{
    let mut room = [0; PIECE];
    let mut pieces = Pieces::new(out, &mut room);
    put_layout(&mut pieces, layout);
    put_inputs(&mut pieces, inputs);
    put_line(
        &mut pieces,
        &Line::End(lines_before_end(layout, inputs, lines), status),
    );
    let answer = pieces.finish();
    // Ends the borrow of the outlet, so that the clauses can say what it took.
    pieces.into_outlet();
    answer
}

/// The number of all lines before END, but at most 2^64 - 1. A larger one is never written: the outlet takes no byte past
/// 2^64 - 1, and so fails before END.
fn lines_before_end(layout: Option<&Digest>, inputs: &[Digest], lines: u64) -> u64
    ensures { result ≡ min
        (lines + length (origin_lines (option_map (λ d. d.now) layout.entry) inputs.now))
        (2 ^ 64 - 1) }
{
    lines
        .saturating_add(u64::from(layout.is_some()))
        .saturating_add(inputs.len() as u64)
}

/// Puts the line of the layout, if there is one.
fn put_layout<W: Outlet>(out: &mut Pieces<'_, W>, layout: Option<&Digest>)
    ensures { Puts W.told out.old out.new (text_of (layout_lines (option_map (λ d. d.now) layout.entry))) }
{
    if let Some(digest) = layout {
        put_line(out, &Line::Layout(digest.as_ref()));
    }
}

/// Puts the lines of the files.
fn put_inputs<W: Outlet>(out: &mut Pieces<'_, W>, inputs: &[Digest])
    ensures { Puts W.told out.old out.new (text_of (inputs_from 1 inputs.now)) }
{
    let mut place = 1;
    for digest in inputs {
        put_line(out, &Line::Input(place, digest.as_ref()));
        place += 1;
    }
}
