//! Putting cells, each after a tab.
ghost use Rattle.std.specs.Prelude.{◌≡◌, ◌∷◌, decimal, length, replicate};
ghost use Rattle.std.specs.Fmt.{signed_decimal};
ghost use Rattle.dsr_cells.specs.meaning.Written.{padded_number, written_day};
ghost use Rattle.dsr_statement.specs.meaning.Cells.{amount_cell};

use crate::sink::Sink;
use dsr_cells::{Day, fill_amount};
use itoa::Buffer;

/// Puts a text.
#[inline(always)]
pub(crate) fn put_text<S: Sink>(out: &mut S, text: &str)
    ensures { S.took out.old (9 ∷ text.now) out.new }
{
    out.put(b"\t");
    out.put(text.as_bytes());
}

/// Puts a number.
#[inline(always)]
pub(crate) fn put_number<S: Sink>(out: &mut S, number: u64)
    ensures { S.took out.old (9 ∷ decimal number) out.new }
{
    let mut buffer = Buffer::new();
    put_text(out, buffer.format(number));
}

/// Puts a number that may be below zero.
#[inline(always)]
pub(crate) fn put_signed<S: Sink>(out: &mut S, number: i128)
    ensures { S.took out.old (9 ∷ signed_decimal number) out.new }
{
    let mut buffer = Buffer::new();
    put_text(out, buffer.format(number));
}

/// Puts an amount.
#[inline(always)]
pub(crate) fn put_amount<S: Sink>(out: &mut S, amount: i128)
    ensures { S.took out.old (9 ∷ amount_cell amount) out.new }
{
    let mut cell = [b'\n'; 64];
    let start = fill_amount(&mut cell, amount);
    out.put(b"\t");
    out.put(&cell[start..63]);
}

/// Puts a number with zeros before it, up to the length of these zeros.
fn put_padded<S: Sink>(out: &mut S, zeros: &str, number: u64)
    requires { zeros.now ≡ replicate (length zeros.now) 48 }
    ensures { S.took out.old (padded_number (length zeros.now) number) out.new }
{
    let mut buffer = Buffer::new();
    let digits = buffer.format(number);
    let pad = zeros.len().saturating_sub(digits.len());
    out.put(zeros[..pad].as_bytes());
    out.put(digits.as_bytes());
}

/// Puts a day.
pub(crate) fn put_day<S: Sink>(out: &mut S, day: Day)
    ensures { S.took out.old (9 ∷ written_day day) out.new }
{
    let (year, month, day) = day.parts();
    out.put(b"\t");
    put_padded(out, "0000", u64::from(year));
    out.put(b"-");
    put_padded(out, "00", u64::from(month));
    out.put(b"-");
    put_padded(out, "00", u64::from(day));
}
