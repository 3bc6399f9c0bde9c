//! What ends the program before a file of the report is read.
ghost use Rattle.std.specs.Prelude.{◌≡◌, codes};
ghost use Rattle.dsr_command.specs.Faults.{cannot_open_line, cannot_read_line, layout_refused_line, layout_refused_status, line_of, shown, unopened_line, unopened_status, IsTold};
ghost use Rattle.dsr_command.specs.NewFiles.{cannot_replace_line, new_file_line, new_file_status};

use crate::faults::{DSR, REFUSED, UNFINISHED, write_bad_layout, write_line};
use crate::inputs::OpenError;
use crate::layout_file::LayoutReadError;
use crate::new_file::NewFileError;
use crate::print::write_parts;
use dsr_cells::Text;
use dsr_intake::Outlet;

/// A name as a line shows it: the empty one as two quotes.
fn shown(name: &str) -> &str
    ensures { result.now ≡ shown name.now }
{
    if name.is_empty() { "''" } else { name }
}

/// Writes that the file of this name cannot be opened, and returns the exit status.
fn cannot_open<F: Outlet>(program: &str, name: &str, fault: &mut F) -> u8
    ensures status { result ≡ 2 }
    ensures told { IsTold (F.told fault.old) (F.told fault.new)
        (cannot_open_line program.now name.now) }
{
    write_parts(&[program, ": cannot open ", shown(name), "\n"], fault);
    REFUSED
}

/// Writes that the file of this name, which was opened, cannot be read, and returns the exit status.
pub fn cannot_read<F: Outlet>(program: &str, name: &str, fault: &mut F) -> u8
    ensures status { result ≡ 2 }
    ensures told { IsTold (F.told fault.old) (F.told fault.new)
        (cannot_read_line program.now name.now) }
{
    write_parts(&[program, ": cannot read ", shown(name), "\n"], fault);
    REFUSED
}

/// Writes why there is no layout, of the file of this name if one is named, and returns the exit status.
pub fn layout_refused<F: Outlet>(name: &str, error: LayoutReadError, fault: &mut F) -> u8
    ensures status { result ≡ layout_refused_status error }
    ensures told { IsTold (F.told fault.old) (F.told fault.new)
        (layout_refused_line name.now error) }
{
    match error {
        LayoutReadError::CannotOpen => cannot_open(DSR, name, fault),
        LayoutReadError::Read => cannot_read(DSR, name, fault),
        LayoutReadError::Bad(error) => {
            write_bad_layout(error, fault);
            REFUSED
        }
        LayoutReadError::Memory => no_memory(DSR, fault),
    }
}

/// Writes why files are not opened, and returns the exit status.
pub fn not_opened<F: Outlet>(program: &str, error: &OpenError, fault: &mut F) -> u8
    ensures status { result ≡ unopened_status error.now }
    ensures told { IsTold (F.told fault.old) (F.told fault.new)
        (unopened_line program.now error.now) }
{
    match error {
        OpenError::CannotOpen(name) => cannot_open(program, name.as_str(), fault),
        OpenError::InputTwice => refuse(program, "standard input is named twice", fault),
        OpenError::Memory => no_memory(program, fault),
    }
}

/// Writes why the arguments are refused, and returns the exit status.
pub fn refuse<F: Outlet>(program: &str, text: &str, fault: &mut F) -> u8
    ensures status { result ≡ 2 }
    ensures told { IsTold (F.told fault.old) (F.told fault.new) (line_of program.now text.now) }
{
    write_line(program, text, fault);
    REFUSED
}

/// Writes that memory was refused before a file of the report was read, and returns the exit status.
pub fn no_memory<F: Outlet>(program: &str, fault: &mut F) -> u8
    ensures status { result ≡ 3 }
    ensures told { IsTold (F.told fault.old) (F.told fault.new)
        (line_of program.now (codes "out of memory")) }
{
    write_line(program, "out of memory", fault);
    UNFINISHED
}

/// Writes why there is no new file, and returns the exit status.
pub fn no_new_file<F: Outlet>(program: &str, name: &Text, error: NewFileError, fault: &mut F) -> u8
    ensures status { result ≡ new_file_status error }
    ensures told { IsTold (F.told fault.old) (F.told fault.new)
        (new_file_line program.now name.now error) }
{
    let name = shown(name.as_str());
    match error {
        NewFileError::IsRead => {
            write_parts(
                &[program, ": cannot write to ", name, ", which is read\n"],
                fault,
            );
            REFUSED
        }
        NewFileError::CannotCreate => {
            write_parts(&[program, ": cannot create ", name, "\n"], fault);
            REFUSED
        }
        NewFileError::Memory => no_memory(program, fault),
    }
}

/// Writes that a new file cannot be put in its place, and returns the exit status.
pub fn cannot_replace<F: Outlet>(program: &str, name: &Text, fault: &mut F) -> u8
    ensures status { result ≡ 3 }
    ensures told { IsTold (F.told fault.old) (F.told fault.new)
        (cannot_replace_line program.now name.now) }
{
    let name = shown(name.as_str());
    write_parts(&[program, ": cannot replace ", name, "\n"], fault);
    UNFINISHED
}
