//! The line for a run that failed, and the exit status.
ghost use Rattle.std.specs.Prelude.{◌≡◌};
ghost use Rattle.dsr_command.specs.Faults.{status_number, fault_line, line_of, closed_line, failed_line, bad_layout_line, layout_fault_text, IsWritten};

use crate::print::write_parts;
use dsr_intake::{IntakeError, Outlet, RunError, Status};
use dsr_records::{LayoutError, LayoutFault};
use itoa::Buffer;

/// The name of the program that reads reports.
pub const DSR: &str = "dsr";

/// The exit status for a command line, a file or a layout that is refused.
pub const REFUSED: u8 = 2;

/// The exit status of a run that failed.
pub const UNFINISHED: u8 = 3;

/// The exit status of a run.
pub fn exit_status(outcome: &Result<Status, RunError>) -> u8
    ensures { result ≡ status_number outcome.now }
{
    match outcome {
        Ok(Status::Clean) => 0,
        Ok(Status::Remarks) => 1,
        Err(_) => UNFINISHED,
    }
}

/// Writes the line for an error, and returns whether the outlet took all of it.
pub fn write_fault<W: Outlet>(error: &RunError, out: &mut W) -> bool
    ensures { IsWritten result (W.told out.old) (W.told out.new) (fault_line error.now) }
{
    match error {
        RunError::Intake(error) => write_intake_fault(error, out),
        RunError::Memory => write_line(DSR, "out of memory", out),
        RunError::Write { written } => write_failed(DSR, *written, out),
    }
}

/// Writes the line for an error without a report.
fn write_intake_fault<W: Outlet>(error: &IntakeError, out: &mut W) -> bool
    ensures { IsWritten result (W.told out.old) (W.told out.new)
        (fault_line (RunError.Intake error.now)) }
{
    match error {
        IntakeError::NoFiles => write_line(DSR, "no files", out),
        IntakeError::TooManyFiles => write_line(DSR, "too many files", out),
        IntakeError::Capacity => write_line(DSR, "capacity out of range", out),
        IntakeError::Reads => write_line(DSR, "reads out of range", out),
        IntakeError::Memory => write_line(DSR, "out of memory", out),
        IntakeError::Thread => write_line(DSR, "cannot start a thread", out),
        IntakeError::Broken(file) => write_closed(*file, out),
    }
}

/// Writes a line that begins with the program's name.
pub fn write_line<W: Outlet>(program: &str, text: &str, out: &mut W) -> bool
    ensures { IsWritten result (W.told out.old) (W.told out.new)
        (line_of program.now text.now) }
{
    write_parts(&[program, ": ", text, "\n"], out)
}

/// Writes the line for a relay that closed early.
fn write_closed<W: Outlet>(file: u32, out: &mut W) -> bool
    ensures { IsWritten result (W.told out.old) (W.told out.new) (closed_line file) }
{
    let mut digits = Buffer::new();
    let file = digits.format(file);
    write_parts(&["dsr: relay of file ", file, " closed early\n"], out)
}

/// Writes the line for a write that failed, and returns whether the outlet took all of it.
pub fn write_failed<W: Outlet>(program: &str, written: u64, out: &mut W) -> bool
    ensures { IsWritten result (W.told out.old) (W.told out.new)
        (failed_line program.now written) }
{
    let mut digits = Buffer::new();
    let written = digits.format(written);
    write_parts(
        &[program, ": write failed after ", written, " bytes\n"],
        out,
    )
}

/// Writes the line for the first fault of a layout.
pub(crate) fn write_bad_layout<W: Outlet>(error: LayoutError, out: &mut W) -> bool
    ensures { IsWritten result (W.told out.old) (W.told out.new) (bad_layout_line error) }
{
    let mut digits = Buffer::new();
    let line = digits.format(error.line);
    let name = layout_fault_name(error.fault);
    write_parts(&["dsr: bad layout at line ", line, ": ", name, "\n"], out)
}

/// The name of a layout's fault.
fn layout_fault_name(fault: LayoutFault) -> &'static str
    ensures { result.now ≡ layout_fault_text fault }
{
    match fault {
        LayoutFault::Large => "Large",
        LayoutFault::LongLine => "LongLine",
        LayoutFault::NotUtf8 => "NotUtf8",
        LayoutFault::UnknownRole => "UnknownRole",
        LayoutFault::BadType => "BadType",
        LayoutFault::RoleTwice => "RoleTwice",
        LayoutFault::TypeTwice => "TypeTwice",
        LayoutFault::BadPosition => "BadPosition",
        LayoutFault::ManySkips => "ManySkips",
        LayoutFault::MissingRole => "MissingRole",
    }
}
