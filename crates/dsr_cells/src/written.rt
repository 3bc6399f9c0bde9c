//! Appending amounts and days to bytes.
ghost use Rattle.std.specs.Prelude.{◌≡◌, ◌^◌, ◌++◌, unsigned_abs, is_ok, if◌then◌else◌, nat_lt, Some, None};
ghost use Rattle.dsr_cells.specs.meaning.Days.{day_of};
ghost use Rattle.dsr_cells.specs.meaning.Numbers.{amount_of};
ghost use Rattle.dsr_cells.specs.meaning.Written.{written, written_day};

use crate::amount::fill_amount;
use crate::day::Day;
use dsr_texts::NoMemory;

/// Appends an amount, or a sum of amounts, in units of 10^-10: a minus sign below zero, the whole
/// part without leading zeros, a point and ten decimals.
///
/// What is written is a spelling, and that of `total`, exactly if `total` lies between
/// -(10^22 - 1) and 10^22 - 1, the range of an `Amount`.
///
/// # Errors
///
/// `NoMemory`: out of memory; `out` is unchanged.
pub fn write_amount(total: i128, out: &mut Vec<u8>) -> Result<(), NoMemory>
    ensures value { out.new.items ≡ (if is_ok result then out.old.items
        ++ written total else out.old.items) }
    ensures spelling { amount_of (written total)
        ≡ (if nat_lt (unsigned_abs total) (10 ^ 22) then Some total else None) }
{
    let mut room = [0; 64];
    let start = fill_amount(&mut room, total);
    out.extend_from_slice(&room[start..63])?;
    Ok(())
}

/// Appends a day in ten bytes, in the form that `Day::read` reads.
///
/// # Errors
///
/// `NoMemory`: out of memory; `out` is unchanged.
pub fn write_day(day: Day, out: &mut Vec<u8>) -> Result<(), NoMemory>
    ensures value { out.new.items ≡ (if is_ok result then out.old.items
        ++ written_day day else out.old.items) }
    ensures spelling { day_of (written_day day) ≡ Some day }
{
    let (year, month, day) = day.parts();
    let text = format!(in *out.allocator(); "{year:04}-{month:02}-{day:02}")?;
    out.extend_from_slice(text.as_bytes())?;
    Ok(())
}
