//! From the program's words to its exit status.
ghost use Rattle.std.specs.Prelude.{◌≡◌, false, All, Some, map};
ghost use Rattle.std.specs.String.{string_bytes};
ghost use Rattle.dsr_command.specs.Outputs.{outputs};
ghost use Rattle.dsr_command.specs.World.{AreSources, WhereTold, ghosts};
ghost use Rattle.dsr_totals.specs.Serving.{HadStatements, IsDone, IsServed, IsServedFor, files_asked, texts_asked};

use crate::arguments::asked;
use crate::command::Asked;
use crate::faults::{DSR_TOTALS, not_read};
use crate::opening::{Opened, open_statements};
use crate::totaling::{print_totals, replace_by_totals};
use dsr_command::{StatementWorld, create_beside, no_new_file, no_words, turn_down};
use dsr_io::Outlet;
use std::alloc::Global;
use std::random::RandomSource;

/// Does what the program's words ask for, and returns the exit status. Errors are written to `fault`.
pub fn serve<H: RandomSource, W: StatementWorld, O: Outlet, F: Outlet>(
    rt: &H,
    alloc: Global,
    world: &mut W,
    out: &mut O,
    fault: &mut F,
) -> u8
    ensures { WhereTold (W.disk world.old) (λ d. IsServed (ghosts (W.Reader.told) (W.New.told)) d
        (W.disk world.new) (outputs (O.told out.old) (F.told fault.old))
        (outputs (O.told out.new) (F.told fault.new)) result) }
{
    match world.words() {
        Ok(words) => answer(rt, alloc, world, &words, out, fault),
        Err(error) => no_words(DSR_TOTALS, error, fault),
    }
}

/// Does what these words ask for, and returns the exit status.
fn answer<H: RandomSource, W: StatementWorld, O: Outlet, F: Outlet>(
    rt: &H,
    alloc: Global,
    world: &mut W,
    words: &[String],
    out: &mut O,
    fault: &mut F,
) -> u8
    ensures { WhereTold (W.disk world.old) (λ d. IsDone (ghosts (W.Reader.told) (W.New.told)) d
        (W.disk world.new) (map string_bytes words.now)
        (outputs (O.told out.old) (F.told fault.old)) (outputs (O.told out.new) (F.told fault.new))
        result) }
{
    match asked(alloc, words) {
        Ok(asked) => read_and_print(rt, alloc, world, asked, out, fault),
        Err(error) => turn_down(DSR_TOTALS, &error, out, fault),
    }
}

/// Reads the statements and writes their totals. Returns the exit status.
fn read_and_print<H: RandomSource, W: StatementWorld, O: Outlet, F: Outlet>(
    rt: &H,
    alloc: Global,
    world: &mut W,
    asked: Asked,
    out: &mut O,
    fault: &mut F,
) -> u8
    ensures { WhereTold (W.disk world.old) (λ d. IsServedFor (ghosts (W.Reader.told) (W.New.told))
        d (W.disk world.new) asked (outputs (O.told out.old) (F.told fault.old))
        (outputs (O.told out.new) (F.told fault.new)) result) }
{
    let mut asked = asked;
    match open_statements(alloc, world, &mut asked) {
        Ok(opened) => print_opened(rt, alloc, world, &asked, opened, out, fault),
        Err(error) => not_read(&error, fault),
    }
}

/// Reads the statements that were opened and writes their totals. Returns the exit status.
fn print_opened<H: RandomSource, W: StatementWorld, O: Outlet, F: Outlet>(
    rt: &H,
    alloc: Global,
    world: &mut W,
    asked: &Asked,
    opened: Opened<W::Reader>,
    out: &mut O,
    fault: &mut F,
) -> u8
    requires sources { All (λ r. (W.Reader.told r).failed ≡ false) opened.inputs.items }
    ensures { WhereTold (W.disk world.old) (λ d. AreSources W.Reader.told W.Reader.file
        (texts_asked d asked.now) (files_asked d asked.now) opened.inputs.items
        → opened.lists.items ≡ map d.file asked.now.lists
        → HadStatements (ghosts (W.Reader.told) (W.New.told)) d (W.disk world.new) asked.now
        (outputs (O.told out.old) (F.told fault.old)) (outputs (O.told out.new) (F.told fault.new))
        result) }
{
    let Opened { inputs, lists } = opened;
    let Some(name) = &asked.output else {
        drop(lists);
        return print_totals(rt, alloc, asked, inputs, out, fault);
    };
    let created = create_beside(alloc, world, name, &inputs, &lists);
    drop(lists);
    match created {
        Ok((new, place)) => {
            replace_by_totals(rt, alloc, world, asked, inputs, name, &place, new, fault)
        }
        Err(error) => no_new_file(DSR_TOTALS, name, error, fault),
    }
}
