//! The program over words and files in memory: whole, and with each of its calls failing in turn.
use crate::program::serve;
use dsr_cells::NoMemory;
use dsr_memory::{Ended, Fault, MemoryOutlet, MemoryWorld, Task};
use std::alloc::Global;
use std::random::RandomSource;
use std::sync::Wait;
use std::test::Fail;
use std::thread::Threads;
use std::time::Clock;

/// A report in one file.
const REPORT: &str = "\
HEAD\tR1\t1\t1\t2024-01-01\t2024-01-31\tS\tL\n\
SY01\tS1\tGB\tOnDemandStream\tGBP\t30\t1.5\n\
AS01\t1\tGBABC2400001\tSong\tBand\n\
MW01\t1\tW1\tSong\tP1|P2\t50|25\n\
SU01\t1\tS1\t10\t0.5\n\
AS01\t2\tGBABC2400002\tOther\tBand\n\
SU01\t2\tS1\t20\t1\n\
FOOT\t8\t1\t2\n";

/// Its layout, which is the standard one.
const LAYOUT: &str = "\
HEAD\tHEAD\t1\t2\t3\t4\t5\t6\t7\n\
SY\tSY01\t1\t2\t3\t4\t5\t6\n\
AS\tAS01\t1\t2\t3\t4\n\
MW\tMW01\t1\t2\t3\t4\t5\n\
SU\tSU01\t1\t2\t3\t4\n\
FOOT\tFOOT\t1\t2\t3\n";

/// Its statement.
const STATEMENT: &str = "\
REPORT\tR1\t1\t2024-01-01\t2024-01-31\t31\n\
FILE\t1\t1\tOurs\t2\tWhole\n\
LEDGER\tGBABC2400001\tGB\tOnDemandStream\tGBP\t10\t0.5000000000\n\
PARTY\tGBABC2400001\tGB\tOnDemandStream\tGBP\tP1\t0.2500000000\n\
PARTY\tGBABC2400001\tGB\tOnDemandStream\tGBP\tP2\t0.1250000000\n\
UNCLAIMED\tGBABC2400001\tGB\tOnDemandStream\tGBP\t0.1250000000\n\
LEDGER\tGBABC2400002\tGB\tOnDemandStream\tGBP\t20\t1.0000000000\n\
UNCLAIMED\tGBABC2400002\tGB\tOnDemandStream\tGBP\t1.0000000000\n";

/// The seal of the statement.
const SEAL: &str = "\
INPUT\t1\t206\tfd11b91238d05d4025c3a7b2992eb4cefa4e0449c8336440cd275c513ba3b1b8\n\
END\t9\tClean\n";

/// The seal of the statement, with the layout.
const SEAL_OF_LAYOUT: &str = "\
LAYOUT\t110\t4f839efc348658cbca7afef007b9c24fc0a0bc99fdf425f365ba23953a1ac24a\n\
INPUT\t1\t206\tfd11b91238d05d4025c3a7b2992eb4cefa4e0449c8336440cd275c513ba3b1b8\n\
END\t10\tClean\n";

/// A report in three files.
const PARTS: [&str; 3] = [
    "\
HEAD\tR1\t1\t3\t2024-01-01\t2024-01-31\tS\tL\n\
SY01\tS1\tGB\tOnDemandStream\tGBP\t10\t0.5\n\
AS01\t1\tGBABC2400001\tSong\tBand\n\
SU01\t1\tS1\t10\t0.5\n\
FOOT\t5\t1\t1\n",
    "\
HEAD\tR1\t2\t3\t2024-01-01\t2024-01-31\tS\tL\n\
SY01\tS1\tGB\tOnDemandStream\tGBP\t20\t1\n\
AS01\t1\tGBABC2400002\tSong\tBand\n\
SU01\t1\tS1\t20\t1\n\
FOOT\t5\t1\t1\n",
    "\
HEAD\tR1\t3\t3\t2024-01-01\t2024-01-31\tS\tL\n\
SY01\tS1\tGB\tOnDemandStream\tGBP\t30\t1.5\n\
AS01\t1\tGBABC2400003\tSong\tBand\n\
SU01\t1\tS1\t30\t1.5\n\
FOOT\t5\t1\t1\n",
];

/// Its statement.
const STATEMENT_OF_PARTS: &str = "\
REPORT\tR1\t3\t2024-01-01\t2024-01-31\t31\n\
FILE\t1\t1\tOurs\t1\tWhole\n\
FILE\t2\t2\tOurs\t1\tWhole\n\
FILE\t3\t3\tOurs\t1\tWhole\n\
LEDGER\tGBABC2400001\tGB\tOnDemandStream\tGBP\t10\t0.5000000000\n\
UNCLAIMED\tGBABC2400001\tGB\tOnDemandStream\tGBP\t0.5000000000\n\
LEDGER\tGBABC2400002\tGB\tOnDemandStream\tGBP\t20\t1.0000000000\n\
UNCLAIMED\tGBABC2400002\tGB\tOnDemandStream\tGBP\t1.0000000000\n\
LEDGER\tGBABC2400003\tGB\tOnDemandStream\tGBP\t30\t1.5000000000\n\
UNCLAIMED\tGBABC2400003\tGB\tOnDemandStream\tGBP\t1.5000000000\n";

/// The file that is there before.
const OLD: &str = "an earlier statement\n";

/// The files that are there before.
const FILES: [(&str, &str); 3] = [
    ("report.tsv", REPORT),
    ("layout.tsv", LAYOUT),
    ("old.tsv", OLD),
];

/// The words of each task.
const TASKS: [&[&str]; 7] = [
    &[],
    &["report.tsv"],
    &["--seal", "report.tsv"],
    &["--layout", "layout.tsv", "--seal", "report.tsv"],
    &["--output", "old.tsv", "report.tsv"],
    &[
        "--output",
        "new.tsv",
        "--layout",
        "layout.tsv",
        "report.tsv",
    ],
    &[
        "--seal",
        "--layout",
        "layout.tsv",
        "--output",
        "old.tsv",
        "report.tsv",
    ],
];

/// What these words ask for.
fn task_of(words: &'static [&'static str]) -> Task {
    let task = Task {
        program: "dsr",
        words,
        input: REPORT,
        files: &FILES,
        text: [STATEMENT, ""],
    };
    let seal = match (task.has("--seal"), task.has("--layout")) {
        (false, _) => "",
        (true, false) => SEAL,
        (true, true) => SEAL_OF_LAYOUT,
    };
    Task {
        text: [STATEMENT, seal],
        ..task
    }
}

/// Runs the program in this world.
fn run_in<H: Threads + Wait + RandomSource + Clock + Copy + Send + 'static>(
    rt: &H,
    alloc: Global,
    world: MemoryWorld,
) -> Ended {
    let mut world = world;
    let out = world.output();
    let mut told = MemoryOutlet::new(alloc, u64::MAX, true);
    let (out, status) = serve(rt, alloc, &mut world, out, &mut told);
    Ended {
        world,
        out,
        told,
        status,
    }
}

/// Runs the program for a task, with this call failing.
fn run<H: Threads + Wait + RandomSource + Clock + Copy + Send + 'static>(
    rt: &H,
    alloc: Global,
    task: &Task,
    fault: Fault,
) -> Result<Ended, NoMemory> {
    Ok(run_in(rt, alloc, task.world(alloc, fault)?))
}

/// Whether a text has this part.
fn contains(text: &[u8], part: &[u8]) -> bool {
    for at in 0..text.len() {
        if text[at..].starts_with(part) {
            return true;
        }
    }
    false
}

/// Whether a statement was written that says that a read has failed.
fn is_remarked(ended: &Ended, task: &Task) -> bool {
    match ended.text(task) {
        Some(text) => {
            ended.status == 1
                && ended.told.bytes().len() == 0
                && contains(text, b"\tRead\n")
                && contains(text, b"\tRemarks\n") == task.has("--seal")
        }
        None => false,
    }
}

/// Whether the run ends as it has to where this call fails.
fn ends<H: Threads + Wait + RandomSource + Clock + Copy + Send + 'static>(
    rt: &H,
    alloc: Global,
    task: &Task,
    fault: Fault,
) -> Result<bool, NoMemory> {
    let ended = run(rt, alloc, task, fault)?;
    Ok(match fault {
        Fault::Read(0, _) if task.has("--layout") => {
            ended.is_refused(task, 2, ": cannot read ", "layout.tsv")
        }
        Fault::Read(..) => is_remarked(&ended, task),
        _ => ended.is_due(task, fault),
    })
}

/// Whether the run ends as it has to with each of so many reads of the source of this opening failing, and has no other one.
fn has_reads<H: Threads + Wait + RandomSource + Clock + Copy + Send + 'static>(
    rt: &H,
    alloc: Global,
    task: &Task,
    opening: u64,
    reads: u64,
) -> Result<bool, NoMemory> {
    for read in 0..reads {
        if !ends(rt, alloc, task, Fault::Read(opening, read))? {
            return Ok(false);
        }
    }
    Ok(run(rt, alloc, task, Fault::Read(opening, reads))?.is_whole(task))
}

/// Whether the run ends as it has to with each of so many writes failing, and has no other one.
fn has_writes<H: Threads + Wait + RandomSource + Clock + Copy + Send + 'static>(
    rt: &H,
    alloc: Global,
    task: &Task,
    writes: u64,
) -> Result<bool, NoMemory> {
    for write in 0..writes {
        if !ends(rt, alloc, task, Fault::Write(write))? {
            return Ok(false);
        }
    }
    Ok(run(rt, alloc, task, Fault::Write(writes))?.is_whole(task))
}

#[test]
fn each_task_is_done(rt: HostRuntime) -> Result<(), Fail> {
    for words in TASKS {
        assert!(rt; ends(&rt, rt.alloc(), &task_of(words), Fault::Nothing)?);
    }
    Ok(())
}

/// Standard input is the second of three files, though a file has its name too; that file has another name as well.
#[test]
fn standard_input_is_between_two_files(rt: HostRuntime) -> Result<(), Fail> {
    let alloc = rt.alloc();
    let names = ["1.tsv", "./-", "3.tsv"];
    for (name, input) in [("-", PARTS[1]), ("./-", OLD)] {
        let mut world = task_of(&[]).world(alloc, Fault::Nothing)?;
        world.set_input(input.as_bytes())?;
        world.add_file("-", OLD.as_bytes())?;
        for word in ["1.tsv", name, "3.tsv"] {
            world.add_word(word)?;
        }
        for (name, part) in names.iter().zip(PARTS) {
            world.add_file(name, part.as_bytes())?;
        }
        let ended = run_in(&rt, alloc, world);
        assert!(rt; ended.status == 0 && ended.told.bytes().len() == 0);
        assert!(rt; ended.out.bytes() == STATEMENT_OF_PARTS.as_bytes());
    }
    Ok(())
}

#[test]
fn standard_input_is_refused_twice(rt: HostRuntime) -> Result<(), Fail> {
    let task = task_of(&["-", "report.tsv", "-"]);
    let ended = run(&rt, rt.alloc(), &task, Fault::Nothing)?;
    assert!(rt; ended.is_refused(&task, 2, ": standard input is named twice", ""));
    Ok(())
}

/// 54 runs, of which 44 have a read that fails.
#[test]
fn each_read_fails_in_turn(rt: HostRuntime) -> Result<(), Fail> {
    for words in TASKS {
        let task = task_of(words);
        if task.has("--layout") {
            assert!(rt; has_reads(&rt, rt.alloc(), &task, 0, 3)?);
            assert!(rt; has_reads(&rt, rt.alloc(), &task, 1, 5)?);
        } else {
            assert!(rt; has_reads(&rt, rt.alloc(), &task, 0, 5)?);
        }
    }
    Ok(())
}

/// 71 runs, of which 57 have a write and 7 a flush that fails.
#[test]
fn each_write_fails_in_turn(rt: HostRuntime) -> Result<(), Fail> {
    for words in TASKS {
        let task = task_of(words);
        let writes = 7 + task.text[1].len().div_ceil(64) as u64;
        assert!(rt; has_writes(&rt, rt.alloc(), &task, writes)?);
        assert!(rt; ends(&rt, rt.alloc(), &task, Fault::Flush)?);
    }
    Ok(())
}

/// 17 runs, in which memory is refused for the words or for an opening.
#[test]
fn memory_is_refused_at_each_call(rt: HostRuntime) -> Result<(), Fail> {
    for words in TASKS {
        let task = task_of(words);
        let openings = if task.has("--layout") { 2 } else { 1 };
        assert!(rt; ends(&rt, rt.alloc(), &task, Fault::Words)?);
        for opening in 0..openings {
            assert!(rt; ends(&rt, rt.alloc(), &task, Fault::Open(opening))?);
        }
    }
    Ok(())
}

/// 15 runs.
#[test]
fn each_call_for_a_new_file_fails_in_turn(rt: HostRuntime) -> Result<(), Fail> {
    for words in TASKS {
        let task = task_of(words);
        if !task.output().is_empty() {
            for fault in Fault::FOR_NEW_FILES {
                assert!(rt; ends(&rt, rt.alloc(), &task, fault)?);
            }
        }
    }
    Ok(())
}
