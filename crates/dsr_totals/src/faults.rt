//! The lines for totals that are not written, and for statements and lists that are not read.
ghost use Rattle.std.specs.Prelude.{◌≡◌};
ghost use Rattle.dsr_command.specs.Faults.{IsTold, IsWritten};
ghost use Rattle.dsr_totals.specs.Refusals.{fault_text, no_totals_line, no_totals_status, of_other, refusal_line, unread_line, unread_status};

use crate::lists::InputError;
use dsr_command::{UNFINISHED, cannot_read, no_memory, not_opened, write_line, write_parts};
use dsr_io::Outlet;
use dsr_statement::StatementFault;
use dsr_sums::TotalsError;
use itoa::Buffer;

/// The name of the program.
pub(crate) const DSR_TOTALS: &str = "dsr_totals";

/// The exit status for a statement that is refused.
pub(crate) const REFUSED_STATEMENT: u8 = 1;

/// The name of a statement's fault.
fn fault_name(fault: StatementFault) -> &'static str
    ensures { result.now ≡ fault_text fault }
{
    match fault {
        StatementFault::Read => "Read",
        StatementFault::LongLine => "LongLine",
        StatementFault::NotUtf8 => "NotUtf8",
        StatementFault::UnknownLine => "UnknownLine",
        StatementFault::Cells => "Cells",
        StatementFault::Spelling => "Spelling",
        StatementFault::Place => "Place",
        StatementFault::Sum => "Sum",
        StatementFault::NoReport => "NoReport",
        StatementFault::Cut => "Cut",
        StatementFault::Seal => "Seal",
        StatementFault::Unsealed => "Unsealed",
        StatementFault::SameMessage(_) => "SameMessage",
        StatementFault::Twice(_) => "Twice",
        StatementFault::NotGiven => "NotGiven",
        StatementFault::Remarks => "Remarks",
    }
}

/// What stands between the name of a fault and that of the earlier statement that it names, if it names one.
fn of_other(fault: StatementFault) -> &'static str
    ensures { result.now ≡ of_other fault }
{
    match fault {
        StatementFault::SameMessage(_) | StatementFault::Twice(_) => " of ",
        _ => "",
    }
}

/// Writes why a statement of this name is refused, by the name of its fault, what stands behind that, and the name of another
/// statement, and returns whether the outlet took all of it.
fn write_refusal<'t, F: Outlet>(
    name: &'t str,
    line: u64,
    why: &'t str,
    of: &'t str,
    other: &'t str,
    out: &mut F,
) -> bool
    ensures { IsWritten result (F.told out.old) (F.told out.new)
        (refusal_line name.now line why.now of.now other.now) }
{
    let mut digits = Buffer::new();
    let line = digits.format(line);
    write_parts(
        &[
            "dsr_totals: ",
            name,
            ": line ",
            line,
            ": ",
            why,
            of,
            other,
            "\n",
        ],
        out,
    )
}

/// Writes why there are no totals, and returns the exit status. `name` is that of the statement that is refused, if one is, and
/// `other` that of the earlier statement that its fault names, if it names one.
pub(crate) fn no_totals<F: Outlet>(error: TotalsError, name: &str, other: &str, fault: &mut F) -> u8
    ensures status { result ≡ no_totals_status error }
    ensures told { IsTold (F.told fault.old) (F.told fault.new)
        (no_totals_line name.now other.now error) }
{
    match error {
        TotalsError::Refused(_, line, why) => {
            write_refusal(name, line, fault_name(why), of_other(why), other, fault);
            REFUSED_STATEMENT
        }
        TotalsError::OutOfRange => {
            write_line(DSR_TOTALS, "total out of range", fault);
            UNFINISHED
        }
        TotalsError::Memory => no_memory(DSR_TOTALS, fault),
    }
}

/// Writes why statements or lists are not opened, or a list is not read, and returns the exit status.
pub(crate) fn not_read<F: Outlet>(error: &InputError, fault: &mut F) -> u8
    ensures status { result ≡ unread_status error.now }
    ensures told { IsTold (F.told fault.old) (F.told fault.new) (unread_line error.now) }
{
    match error {
        InputError::Open(error) => not_opened(DSR_TOTALS, error, fault),
        InputError::Read(list) => cannot_read(DSR_TOTALS, list.as_str(), fault),
    }
}
