//! The line that cells spell, read leniently: each line from its own cells, and any from other cells.
ghost use Rattle.std.specs.Prelude.{◌≡◌, ◌<◌, ◌≤◌, ◌||◌, ◌==◌, [], ℕ, ℤ, Some, true, length, slice_index_or, IfSome};
ghost use Rattle.dsr_cells.specs.meaning.Days.{CivilDay};
ghost use Rattle.dsr_ledger.specs.meaning.Bookings.{Key};
ghost use Rattle.dsr_ledger.specs.declared.report.ReportKey.{ReportKey};
ghost use Rattle.dsr_ledger.specs.declared.report.Difference.{Difference};
ghost use Rattle.dsr_ledger.specs.declared.report.PartyLine.{PartyLine};
ghost use Rattle.dsr_ledger.specs.declared.report.Reject.{Reject};
ghost use Rattle.dsr_statement.specs.meaning.Faults.{has_cells};
ghost use Rattle.dsr_statement.specs.meaning.Names.{kind_name};
ghost use Rattle.dsr_statement.specs.meaning.Lines.{cell_texts};
ghost use Rattle.dsr_statement.specs.inner.Lenient.{ReadsKind, IsSome};

use crate::line::{DifferenceRef, KeyRef, Line, LineKind, PartyRef, RejectRef, ReportRef};
use crate::names::reason_named;
use crate::number::{read_amount, read_u32, read_u64, read_usages};
use dsr_cells::{Day, FirstCells};
use dsr_ledger::Reason;

/// The line of a report with these parts.
fn report_of<'l>(
    message_id: &'l str,
    number_of_files: Option<u32>,
    first_day: Option<Day>,
    last_day: Option<Day>,
) -> Option<Line<'l>>
    ensures { (k : ReportKey) → message_id.now ≡ k.message_id
        → number_of_files ≡ Some k.number_of_files → first_day ≡ Some k.first_day
        → last_day ≡ Some k.last_day → result ≡ Some (Line.Report k) }
{
    Some(Line::Report(ReportRef {
        message_id,
        number_of_files: number_of_files?,
        first_day: first_day?,
        last_day: last_day?,
    }))
}

/// The line of a report.
pub(crate) fn read_report<'l>(row: &FirstCells<'l>) -> Option<Line<'l>>
    requires { length row.now ≡ 6 }
    ensures { ReadsKind LineKind.Report row.now result }
{
    report_of(
        row.at(1),
        read_u32(row.at(2)),
        Day::read(row.at(3)),
        Day::read(row.at(4)),
    )
}

/// The line of a missing file with this number.
fn missing_of<'l>(number: Option<u32>) -> Option<Line<'l>>
    ensures { (n : ℕ) → number ≡ Some n → result ≡ Some (Line.Missing n) }
{
    Some(Line::Missing(number?))
}

/// The line of a missing file.
pub(crate) fn read_missing<'l>(row: &FirstCells<'l>) -> Option<Line<'l>>
    requires { length row.now ≡ 2 }
    ensures { ReadsKind LineKind.Missing row.now result }
{
    missing_of(read_u32(row.at(1)))
}

/// The line of a difference with these parts.
fn difference_of<'l>(
    file: Option<u64>,
    summary_id: &'l str,
    stated_usages: Option<i128>,
    found_usages: Option<i128>,
    stated_amount: Option<i128>,
    found_amount: Option<i128>,
) -> Option<Line<'l>>
    ensures { (d : Difference) → file ≡ Some d.file → summary_id.now ≡ d.summary_id
        → stated_usages ≡ Some d.stated_usages → found_usages ≡ Some d.found_usages
        → stated_amount ≡ Some d.stated_amount → found_amount ≡ Some d.found_amount
        → result ≡ Some (Line.Summary d) }
{
    Some(Line::Summary(DifferenceRef {
        file: file?,
        summary_id,
        stated_usages: stated_usages?,
        found_usages: found_usages?,
        stated_amount: stated_amount?,
        found_amount: found_amount?,
    }))
}

/// The line of a difference.
pub(crate) fn read_difference<'l>(row: &FirstCells<'l>) -> Option<Line<'l>>
    requires { length row.now ≡ 7 }
    ensures { ReadsKind LineKind.Summary row.now result }
{
    difference_of(
        read_u64(row.at(1)),
        row.at(2),
        read_usages(row.at(3)),
        read_usages(row.at(4)),
        read_amount(row.at(5)),
        read_amount(row.at(6)),
    )
}

/// The key of the cells behind the first.
fn key_of<'l>(row: &FirstCells<'l>) -> KeyRef<'l>
    requires { 4 < length row.now }
    ensures { result ≡ record {
      isrc = slice_index_or row.now 1 [];
      territory = slice_index_or row.now 2 [];
      use_type = slice_index_or row.now 3 [];
      currency = slice_index_or row.now 4 [];
    } }
{
    KeyRef {
        isrc: row.at(1),
        territory: row.at(2),
        use_type: row.at(3),
        currency: row.at(4),
    }
}

/// The line of a key's sums with these parts.
fn ledger_of<'l>(key: KeyRef<'l>, usages: Option<i128>, amount: Option<i128>) -> Option<Line<'l>>
    ensures again { (k : Key) (u a : ℤ) → key.entry ≡ k → usages ≡ Some u → amount ≡ Some a
        → result ≡ Some (Line.Ledger k u a) }
    ensures own { IfSome result (λ l. IsSome usages (λ u. IsSome amount (λ a. l ≡ Line.Ledger key.entry u a))) }
{
    Some(Line::Ledger(key, usages?, amount?))
}

/// The line of a key's sums.
pub(crate) fn read_ledger<'l>(row: &FirstCells<'l>) -> Option<Line<'l>>
    requires count { length row.now ≡ 7 }
    requires name { slice_index_or row.now 0 [] ≡ kind_name LineKind.Ledger }
    ensures again { ReadsKind LineKind.Ledger row.now result }
    ensures own { IfSome result (λ l. row.now ≡ cell_texts l) }
{
    ledger_of(key_of(row), read_usages(row.at(5)), read_amount(row.at(6)))
}

/// The line of a party with these parts.
pub(crate) fn party_of<'l>(
    key: KeyRef<'l>,
    party: &'l str,
    amount: Option<i128>,
) -> Option<Line<'l>>
    ensures again { (k : Key) (p : PartyLine) → key.entry ≡ k → party.now ≡ p.party → amount ≡ Some p.amount
        → result ≡ Some (Line.Party k p) }
    ensures own { IfSome result (λ l. IsSome amount (λ a. l ≡ Line.Party key.entry (record { party = party.now; amount = a }))) }
{
    let amount = amount?;
    Some(Line::Party(key, PartyRef { party, amount }))
}

/// The line of a party.
pub(crate) fn read_party<'l>(row: &FirstCells<'l>) -> Option<Line<'l>>
    requires { length row.now ≡ 7 }
    ensures { ReadsKind LineKind.Party row.now result }
{
    party_of(key_of(row), row.at(5), read_amount(row.at(6)))
}

/// The line of an unclaimed amount with these parts.
pub(crate) fn unclaimed_of<'l>(key: KeyRef<'l>, amount: Option<i128>) -> Option<Line<'l>>
    ensures again { (k : Key) (a : ℤ) → key.entry ≡ k → amount ≡ Some a
        → result ≡ Some (Line.Unclaimed k a) }
    ensures own { IfSome result (λ l. IsSome amount (λ a. l ≡ Line.Unclaimed key.entry a)) }
{
    Some(Line::Unclaimed(key, amount?))
}

/// The line of an unclaimed amount.
pub(crate) fn read_unclaimed<'l>(row: &FirstCells<'l>) -> Option<Line<'l>>
    requires { length row.now ≡ 6 }
    ensures { ReadsKind LineKind.Unclaimed row.now result }
{
    unclaimed_of(key_of(row), read_amount(row.at(5)))
}

/// The line of a rejected block with these parts.
fn reject_of<'l>(
    file: Option<u64>,
    position: Option<u64>,
    block_id: &'l str,
    reason: Option<Reason>,
) -> Option<Line<'l>>
    ensures { (r : Reject) → file ≡ Some r.file → position ≡ Some r.position
        → block_id.now ≡ r.block_id → reason ≡ Some r.reason → result ≡ Some (Line.Reject r) }
{
    Some(Line::Reject(RejectRef {
        file: file?,
        position: position?,
        block_id,
        reason: reason?,
    }))
}

/// The line of a rejected block.
pub(crate) fn read_reject<'l>(row: &FirstCells<'l>) -> Option<Line<'l>>
    requires { length row.now ≡ 5 }
    ensures { ReadsKind LineKind.Reject row.now result }
{
    reject_of(
        read_u64(row.at(1)),
        read_u64(row.at(2)),
        row.at(3),
        reason_named(row.at(4)),
    )
}
