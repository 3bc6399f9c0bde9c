//! Reading a line of a party or of an unclaimed amount by the key of its ledger line, whose cells are not read again.
ghost use Rattle.std.specs.Prelude.{◌≡◌, ◌++◌, ◌∷◌, true, codes, IfSome};
ghost use Rattle.dsr_statement.specs.meaning.Cells.{amount_cell, is_amount};
ghost use Rattle.dsr_statement.specs.meaning.Readings.{Spells};
ghost use Rattle.dsr_statement.specs.inner.Near.{is_key, HasKey};

use crate::check::is_amount;
use crate::cut::after_cell;
use crate::last::LastKey;
use crate::lenient::{party_of, unclaimed_of};
use crate::line::Line;
use crate::number::read_amount;
use dsr_cells::first_cell;

/// The amount that a text spells, if it is in its range.
fn amount_in_range(text: &str) -> Option<i128>
    ensures { IfSome result (λ a. (text.now ≡ amount_cell a) × (is_amount a ≡ true)) }
{
    match read_amount(text) {
        Some(amount) if is_amount(amount) => Some(amount),
        _ => None,
    }
}

/// The line of a party with the last key, from the text behind its name.
#[inline(always)]
fn near_party<'l>(text: &'l str, last: &LastKey) -> Option<Line<'l>>
    ensures key { IfSome result (HasKey last.now) }
    ensures spelled { is_key last.now ≡ true
        → IfSome result (Spells (codes "PARTY" ++ 9 ∷ text.now)) }
{
    let (key, rest) = last.cut(text)?;
    let (party, amount) = first_cell(rest)?;
    party_of(key, party, amount_in_range(amount))
}

/// The line of an unclaimed amount with the last key, from the text behind its name.
#[inline(always)]
fn near_unclaimed<'l>(text: &'l str, last: &LastKey) -> Option<Line<'l>>
    ensures key { IfSome result (HasKey last.now) }
    ensures spelled { is_key last.now ≡ true
        → IfSome result (Spells (codes "UNCLAIMED" ++ 9 ∷ text.now)) }
{
    let (key, rest) = last.cut(text)?;
    unclaimed_of(key, amount_in_range(rest))
}

/// The line whose text this is, if it is of a party or of an unclaimed amount and has the last key.
#[inline(always)]
pub(crate) fn near_line<'l>(text: &'l str, last: &LastKey) -> Option<Line<'l>>
    ensures key { IfSome result (HasKey last.now) }
    ensures spelled { is_key last.now ≡ true → IfSome result (Spells text.now) }
{
    if let Some((_, rest)) = after_cell(text, "PARTY") {
        return near_party(rest, last);
    }
    match after_cell(text, "UNCLAIMED") {
        Some((_, rest)) => near_unclaimed(rest, last),
        None => None,
    }
}
