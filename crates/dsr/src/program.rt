//! From the program's words to its exit status.
ghost use Rattle.std.specs.Prelude.{◌≡◌, false, map, [], Some, unwrap_or};
ghost use Rattle.std.specs.String.{string_bytes};
ghost use Rattle.dsr_command.specs.LayoutFile.{AreHad};
ghost use Rattle.dsr_command.specs.Outputs.{outputs};
ghost use Rattle.dsr_command.specs.World.{Asks, WhereTold, ghosts};
ghost use Rattle.dsr.specs.Serving.{IsDone, IsRead, IsServed, IsServedFor};

use crate::running::{Reading, run_into, run_printed};
use dsr_command::{
    Asked, DSR, ReportWorld, RunOptions, asked, create_beside, layout_refused, no_new_file,
    no_words, not_opened, open_inputs, read_options, teller_of, turn_down,
};
use dsr_intake::Outlet;
use std::alloc::Global;
use std::random::RandomSource;
use std::sync::Wait;
use std::thread::Threads;
use std::time::Clock;

/// Does what the program's words ask for, and returns the output and the exit status. Errors are written to `fault`.
pub fn serve<
    H: Threads + Wait + RandomSource + Clock + Copy + Send + 'static,
    W: ReportWorld,
    O: Outlet,
    F: Outlet,
>(rt: &H, alloc: Global, world: &mut W, out: O, fault: &mut F) -> (O, u8)
    requires outlet { (O.told out).failed ≡ false }
    requires empty { (O.told out).taken ≡ 0 }
    ensures { WhereTold (W.disk world.old) (λ d. IsServed (ghosts (W.Reader.told) (W.New.told)) d
        (W.disk world.new) (outputs (O.told out) (F.told fault.old))
        (outputs (O.told result.0) (F.told fault.new)) result.1) }
{
    match world.words() {
        Ok(words) => answer(rt, alloc, world, &words, out, fault),
        Err(error) => (out, no_words(DSR, error, fault)),
    }
}

/// Does what these words ask for, and returns the output and the exit status.
fn answer<
    H: Threads + Wait + RandomSource + Clock + Copy + Send + 'static,
    W: ReportWorld,
    O: Outlet,
    F: Outlet,
>(rt: &H, alloc: Global, world: &mut W, words: &[String], out: O, fault: &mut F) -> (O, u8)
    requires outlet { (O.told out).failed ≡ false }
    requires empty { (O.told out).taken ≡ 0 }
    requires words { WhereTold (W.disk world.old) (λ d. d.words ≡ Some (map string_bytes words.now)) }
    ensures { WhereTold (W.disk world.old) (λ d. IsDone (ghosts (W.Reader.told) (W.New.told)) d
        (W.disk world.new) (map string_bytes words.now)
        (outputs (O.told out) (F.told fault.old)) (outputs (O.told result.0) (F.told fault.new))
        result.1) }
{
    match asked(alloc, words) {
        Ok(asked) => read_and_print(rt, alloc, world, &asked, out, fault),
        Err(error) => {
            let mut out = out;
            let status = turn_down(DSR, &error, &mut out, fault);
            (out, status)
        }
    }
}

/// Reads the layout, and then the files of the report, and writes their statement. Returns the output and the exit status.
fn read_and_print<
    H: Threads + Wait + RandomSource + Clock + Copy + Send + 'static,
    W: ReportWorld,
    O: Outlet,
    F: Outlet,
>(rt: &H, alloc: Global, world: &mut W, asked: &Asked, out: O, fault: &mut F) -> (O, u8)
    requires outlet { (O.told out).failed ≡ false }
    requires empty { (O.told out).taken ≡ 0 }
    requires asked { Asks (W.disk world.old) asked.now }
    ensures { WhereTold (W.disk world.old) (λ d. IsServedFor (ghosts (W.Reader.told) (W.New.told))
        d (W.disk world.new) asked.now (outputs (O.told out) (F.told fault.old))
        (outputs (O.told result.0) (F.told fault.new)) result.1) }
{
    match read_options(alloc, world, asked) {
        Ok(options) => read_files(rt, alloc, world, asked, options, out, fault),
        Err(error) => (out, layout_refused(layout_name(asked), error, fault)),
    }
}

/// The name of the layout's file, if one is named.
fn layout_name(asked: &Asked) -> &str
    ensures { result.now ≡ unwrap_or asked.now.layout [] }
{
    match &asked.layout {
        Some(name) => name.as_str(),
        None => "",
    }
}

/// Reads the files of the report and writes their statement, but not to a file that is read. Returns the output and the exit
/// status.
fn read_files<
    H: Threads + Wait + RandomSource + Clock + Copy + Send + 'static,
    W: ReportWorld,
    O: Outlet,
    F: Outlet,
>(
    rt: &H,
    alloc: Global,
    world: &mut W,
    asked: &Asked,
    options: RunOptions<W::Permit>,
    out: O,
    fault: &mut F,
) -> (O, u8)
    requires outlet { (O.told out).failed ≡ false }
    requires empty { (O.told out).taken ≡ 0 }
    requires asked { Asks (W.disk world.old) asked.now }
    ensures { WhereTold (W.disk world.old) (λ d. AreHad d asked.now options
        → IsRead (ghosts (W.Reader.told) (W.New.told)) d (W.disk world.new) asked.now
        options.options.value (outputs (O.told out) (F.told fault.old))
        (outputs (O.told result.0) (F.told fault.new)) result.1) }
{
    let RunOptions {
        options,
        permit,
        layout,
        seal,
    } = options;
    let opened = open_inputs(alloc, world, &permit, &asked.files);
    drop(permit);
    let inputs = match opened {
        Ok(inputs) => inputs,
        Err(error) => {
            drop(options);
            drop(seal);
            return (out, not_opened(DSR, &error, fault));
        }
    };
    let teller = teller_of(world, asked);
    let Some(name) = &asked.output else {
        let reading = Reading {
            teller,
            inputs,
            options,
            seal,
        };
        return run_printed(rt, alloc, reading, out, fault);
    };
    match create_beside(alloc, world, name, &inputs, &[layout]) {
        Ok((new, place)) => {
            let reading = Reading {
                teller,
                inputs,
                options,
                seal,
            };
            (
                out,
                run_into(rt, alloc, world, reading, name, &place, new, fault),
            )
        }
        Err(error) => {
            drop(options);
            drop(seal);
            (out, no_new_file(DSR, name, error, fault))
        }
    }
}
