//! The text of the totals.
ghost use Rattle.std.specs.Prelude.{◌≡◌, ◌∷◌, ◌++◌, OnOk, codes, decimal, if◌then◌else◌};
ghost use Rattle.std.specs.Fmt.{signed_decimal};
ghost use Rattle.std.specs.List.{flat_map};
ghost use Rattle.dsr_cells.specs.meaning.Written.{written_day};
ghost use Rattle.dsr_statement.specs.meaning.Cells.{amount_cell};
ghost use Rattle.dsr_sums.specs.meaning.Totals.{currency_line, market_line, party_line};
ghost use Rattle.dsr_sums.specs.meaning.Statements.{statement_line, statement_lines};
ghost use Rattle.dsr_sums.specs.inner.SumsLines.{sums_line};

use crate::account::Account;
use crate::book::Book;
use crate::reports::{Role, StatementReport, has, is_role};
use crate::sums::Sums;
use dsr_cells::{Day, NoMemory, write_amount, write_day};
use itoa::Buffer;

/// What a line of totals is for.
#[derive(Clone, Copy, PartialEq, Eq)]
pub(crate) enum SumsLine {
    /// A currency.
    Currency,
    /// A territory and a use type in a currency.
    Market,
    /// A party in a currency.
    Party,
}

/// Appends the cell of a text.
fn put_text(out: &mut Vec<u8>, text: &str) -> Result<(), NoMemory>
    ensures { OnOk result (out.new.items ≡ out.old.items ++ 9 ∷ text.now) }
{
    out.extend_from_slice(b"\t")?;
    out.extend_from_slice(text.as_bytes())?;
    Ok(())
}

/// Appends the cell of a number.
fn put_number(out: &mut Vec<u8>, number: u64) -> Result<(), NoMemory>
    ensures { OnOk result (out.new.items ≡ out.old.items ++ 9 ∷ decimal number) }
{
    let mut digits = Buffer::new();
    put_text(out, digits.format(number))
}

/// Appends the cell of a number that may be below zero.
fn put_signed(out: &mut Vec<u8>, number: i128) -> Result<(), NoMemory>
    ensures { OnOk result (out.new.items ≡ out.old.items ++ 9 ∷ signed_decimal number) }
{
    let mut digits = Buffer::new();
    put_text(out, digits.format(number))
}

/// Appends the cell of an amount.
#[tactic(auto, unfolding(dsr_statement::specs::meaning::Cells::amount_cell))]
fn put_amount(out: &mut Vec<u8>, amount: i128) -> Result<(), NoMemory>
    ensures { OnOk result (out.new.items ≡ out.old.items ++ 9 ∷ amount_cell amount) }
{
    out.extend_from_slice(b"\t")?;
    write_amount(amount, out)?;
    Ok(())
}

/// Appends the cell of a day.
fn put_day(out: &mut Vec<u8>, day: Day) -> Result<(), NoMemory>
    ensures { OnOk result (out.new.items ≡ out.old.items ++ 9 ∷ written_day day) }
{
    out.extend_from_slice(b"\t")?;
    write_day(day, out)?;
    Ok(())
}

/// Appends the line of an account.
fn put_line(
    out: &mut Vec<u8>,
    kind: SumsLine,
    account: &Account,
    sums: &Sums,
) -> Result<(), NoMemory>
    ensures { OnOk result (out.new.items ≡ out.old.items
        ++ sums_line kind (account.now, sums.now)) }
{
    match kind {
        SumsLine::Currency => put_currency(out, account, sums)?,
        SumsLine::Market => put_market(out, account, sums)?,
        SumsLine::Party => put_party(out, account, sums)?,
    }
    Ok(())
}

/// Appends the line of a currency.
fn put_currency(out: &mut Vec<u8>, account: &Account, sums: &Sums) -> Result<(), NoMemory>
    ensures { OnOk result (out.new.items ≡ out.old.items ++ currency_line (account.now, sums.now)) }
{
    out.extend_from_slice(b"CURRENCY")?;
    put_text(out, account.currency.as_str())?;
    put_signed(out, sums.usages)?;
    put_amount(out, sums.amount)?;
    put_amount(out, sums.claimed)?;
    put_amount(out, sums.unclaimed)?;
    out.extend_from_slice(b"\n")?;
    Ok(())
}

/// Appends the line of a territory and a use type in a currency.
fn put_market(out: &mut Vec<u8>, account: &Account, sums: &Sums) -> Result<(), NoMemory>
    ensures { OnOk result (out.new.items ≡ out.old.items ++ market_line (account.now, sums.now)) }
{
    out.extend_from_slice(b"MARKET")?;
    put_text(out, account.territory.as_str())?;
    put_text(out, account.use_type.as_str())?;
    put_text(out, account.currency.as_str())?;
    put_signed(out, sums.usages)?;
    put_amount(out, sums.amount)?;
    out.extend_from_slice(b"\n")?;
    Ok(())
}

/// Appends the line of a party in a currency.
fn put_party(out: &mut Vec<u8>, account: &Account, sums: &Sums) -> Result<(), NoMemory>
    ensures { OnOk result (out.new.items ≡ out.old.items ++ party_line (account.now, sums.now)) }
{
    out.extend_from_slice(b"PARTY")?;
    put_text(out, account.party.as_str())?;
    put_text(out, account.currency.as_str())?;
    put_amount(out, sums.amount)?;
    out.extend_from_slice(b"\n")?;
    Ok(())
}

/// Appends the lines of a book, in its order.
pub(crate) fn put_book(out: &mut Vec<u8>, kind: SumsLine, book: &Book) -> Result<(), NoMemory>
    ensures { OnOk result (out.new.items
        ≡ out.old.items ++ flat_map (sums_line kind) book.now.sums.entries) }
{
    for (account, sums) in book.sums.iter() {
        put_line(out, kind, account, sums)?;
    }
    Ok(())
}

/// What is printed for a statement with remarks, or without.
fn remarks_name(has_remarks: bool) -> &'static str
    ensures { result.now ≡ (if has_remarks then codes "Remarks" else codes "Clean") }
{
    if has_remarks { "Remarks" } else { "Clean" }
}

/// What is printed for a statement whose report was paid, or not.
fn paid_name(is_paid: bool) -> &'static str
    ensures { result.now ≡ (if is_paid then codes "Paid" else codes "-") }
{
    if is_paid { "Paid" } else { "-" }
}

/// Appends the line of a given statement at this place among them.
fn put_statement(
    out: &mut Vec<u8>,
    place: u64,
    report: &StatementReport,
    is_paid: bool,
) -> Result<(), NoMemory>
    ensures { OnOk result (out.new.items ≡ out.old.items
        ++ statement_line place is_paid report.now) }
{
    out.extend_from_slice(b"STATEMENT")?;
    put_number(out, place)?;
    put_text(out, report.key.message_id.as_str())?;
    put_number(out, u64::from(report.key.number_of_files))?;
    put_day(out, report.key.first_day)?;
    put_day(out, report.key.last_day)?;
    put_text(out, remarks_name(report.remark.is_some()))?;
    put_text(out, paid_name(is_paid))?;
    out.extend_from_slice(b"\n")?;
    Ok(())
}

/// Appends the lines of the given statements.
pub(crate) fn put_statements(out: &mut Vec<u8>, reports: &[StatementReport]) -> Result<(), NoMemory>
    ensures { OnOk result (out.new.items ≡ out.old.items
        ++ statement_lines 1 reports.now reports.now) }
{
    let mut place = 1;
    for report in reports {
        if is_role(report.role, Role::Given) {
            let is_paid = has(Role::Paid, &report.key, reports);
            put_statement(out, place, report, is_paid)?;
            place += 1;
        }
    }
    Ok(())
}
