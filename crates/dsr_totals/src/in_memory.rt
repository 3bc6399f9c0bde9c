//! The program over words and files in memory: whole, and with each of its calls failing in turn.
use crate::program::serve;
use dsr_cells::NoMemory;
use dsr_memory::{Ended, Fault, MemoryOutlet, MemoryWorld, Task};
use std::alloc::Global;
use std::random::RandomSource;
use std::test::Fail;

/// A sealed statement.
const STATEMENT: &str = "\
REPORT\tR1\t1\t2024-01-01\t2024-01-31\t31\n\
FILE\t1\t1\tOurs\t2\tWhole\n\
LEDGER\tGBABC2400001\tGB\tOnDemandStream\tGBP\t10\t0.5000000000\n\
PARTY\tGBABC2400001\tGB\tOnDemandStream\tGBP\tP1\t0.2500000000\n\
PARTY\tGBABC2400001\tGB\tOnDemandStream\tGBP\tP2\t0.1250000000\n\
UNCLAIMED\tGBABC2400001\tGB\tOnDemandStream\tGBP\t0.1250000000\n\
LEDGER\tGBABC2400002\tGB\tOnDemandStream\tGBP\t20\t1.0000000000\n\
UNCLAIMED\tGBABC2400002\tGB\tOnDemandStream\tGBP\t1.0000000000\n\
INPUT\t1\t206\tfd11b91238d05d4025c3a7b2992eb4cefa4e0449c8336440cd275c513ba3b1b8\n\
END\t9\tClean\n";

/// What it adds up to.
const TOTALS: &str = "\
STATEMENT\t1\tR1\t1\t2024-01-01\t2024-01-31\tClean\t-\n\
CURRENCY\tGBP\t30\t1.5000000000\t0.3750000000\t1.1250000000\n\
MARKET\tGB\tOnDemandStream\tGBP\t30\t1.5000000000\n\
PARTY\tP1\tGBP\t0.2500000000\n\
PARTY\tP2\tGBP\t0.1250000000\n";

/// What is still owed of it if it was paid.
const NOTHING_OWED: &str = "\
STATEMENT\t1\tR1\t1\t2024-01-01\t2024-01-31\tClean\tPaid\n\
CURRENCY\tGBP\t0\t0.0000000000\t0.0000000000\t0.0000000000\n\
MARKET\tGB\tOnDemandStream\tGBP\t0\t0.0000000000\n\
PARTY\tP1\tGBP\t0.0000000000\n\
PARTY\tP2\tGBP\t0.0000000000\n";

/// The list of paid statements.
const LIST: &str = "paid.tsv\n";

/// The file that is there before.
const OLD: &str = "earlier totals\n";

/// The files that are there before.
const FILES: [(&str, &str); 4] = [
    ("given.tsv", STATEMENT),
    ("paid.tsv", STATEMENT),
    ("list", LIST),
    ("old.tsv", OLD),
];

/// The words of each task, and how many files are opened. A list is the second of them.
const TASKS: [(&[&str], u64); 7] = [
    (&[], 1),
    (&["given.tsv"], 1),
    (&["--paid=paid.tsv", "given.tsv"], 2),
    (&["--paid=-", "given.tsv"], 2),
    (&["--paid-from", "list", "given.tsv"], 3),
    (&["--output", "old.tsv", "given.tsv"], 1),
    (
        &["--output", "new.tsv", "--paid-from", "list", "given.tsv"],
        3,
    ),
];

/// What these words ask for, by which so many files are opened.
fn task_of(words: &'static [&'static str], openings: u64) -> Task {
    Task {
        program: "dsr_totals",
        words,
        input: STATEMENT,
        files: &FILES,
        text: [if openings > 1 { NOTHING_OWED } else { TOTALS }, ""],
    }
}

/// Runs the program in this world.
fn run_in<H: RandomSource>(rt: &H, alloc: Global, world: MemoryWorld) -> Ended {
    let mut world = world;
    let mut out = world.output();
    let mut told = MemoryOutlet::new(alloc, u64::MAX, true);
    let status = serve(rt, alloc, &mut world, &mut out, &mut told);
    Ended {
        world,
        out,
        told,
        status,
    }
}

/// Runs the program for a task, with this call failing.
fn run<H: RandomSource>(
    rt: &H,
    alloc: Global,
    task: &Task,
    fault: Fault,
) -> Result<Ended, NoMemory> {
    Ok(run_in(rt, alloc, task.world(alloc, fault)?))
}

/// Whether a statement was refused since a read of it has failed.
fn is_unread(ended: &Ended, task: &Task) -> bool {
    ended.status == 1
        && ended.told.bytes().starts_with(b"dsr_totals: ")
        && ended.told.bytes().ends_with(b": Read\n")
        && ended.out.bytes().len() == 0
        && ended.is_kept(task)
}

/// Whether the run ends as it has to where this call fails.
fn ends<H: RandomSource>(
    rt: &H,
    alloc: Global,
    task: &Task,
    fault: Fault,
) -> Result<bool, NoMemory> {
    let ended = run(rt, alloc, task, fault)?;
    Ok(match fault {
        Fault::Read(1, _) if task.has("--paid-from") => {
            ended.is_refused(task, 2, ": cannot read ", "list")
        }
        Fault::Read(..) => is_unread(&ended, task),
        _ => ended.is_due(task, fault),
    })
}

/// Whether the run ends as it has to with each of so many reads of the source of this opening failing, and has no other one.
fn has_reads<H: RandomSource>(
    rt: &H,
    alloc: Global,
    task: &Task,
    opening: u64,
    reads: u64,
) -> Result<bool, NoMemory> {
    for read in 0..reads {
        if !ends(rt, alloc, task, Fault::Read(opening, read))? {
            return Ok(false);
        }
    }
    Ok(run(rt, alloc, task, Fault::Read(opening, reads))?.is_whole(task))
}

/// Whether the run ends as it has to with each of so many writes failing, and has no other one.
fn has_writes<H: RandomSource>(
    rt: &H,
    alloc: Global,
    task: &Task,
    writes: u64,
) -> Result<bool, NoMemory> {
    for write in 0..writes {
        if !ends(rt, alloc, task, Fault::Write(write))? {
            return Ok(false);
        }
    }
    Ok(run(rt, alloc, task, Fault::Write(writes))?.is_whole(task))
}

#[test]
fn each_task_is_done(rt: HostRuntime) -> Result<(), Fail> {
    for (words, openings) in TASKS {
        let task = task_of(words, openings);
        assert!(rt; ends(&rt, rt.alloc(), &task, Fault::Nothing)?);
    }
    Ok(())
}

/// Standard input can be read only once: by its name, as the statement without a name, or by its name in a list.
#[test]
fn standard_input_is_refused_twice(rt: HostRuntime) -> Result<(), Fail> {
    let alloc = rt.alloc();
    let commands: [&[&str]; 4] = [
        &["-", "given.tsv", "-"],
        &["--paid=-", "-"],
        &["--paid=-"],
        &["--paid-from", "list", "-"],
    ];
    for words in commands {
        let files = &[("given.tsv", STATEMENT), ("list", "-\n")];
        let task = Task {
            files,
            ..task_of(words, 1)
        };
        let ended = run(&rt, alloc, &task, Fault::Nothing)?;
        assert!(rt; ended.is_refused(&task, 2, ": standard input is named twice", ""));
    }
    Ok(())
}

/// 116 runs, of which 103 have a read that fails.
#[test]
fn each_read_fails_in_turn(rt: HostRuntime) -> Result<(), Fail> {
    for (words, openings) in TASKS {
        let task = task_of(words, openings);
        for opening in 0..openings {
            let is_list = opening == 1 && task.has("--paid-from");
            let reads = if is_list { 2 } else { 9 };
            assert!(rt; has_reads(&rt, rt.alloc(), &task, opening, reads)?);
        }
    }
    Ok(())
}

/// 42 runs, of which 28 have a write and 7 a flush that fails.
#[test]
fn each_write_fails_in_turn(rt: HostRuntime) -> Result<(), Fail> {
    for (words, openings) in TASKS {
        let task = task_of(words, openings);
        assert!(rt; has_writes(&rt, rt.alloc(), &task, 4)?);
        assert!(rt; ends(&rt, rt.alloc(), &task, Fault::Flush)?);
    }
    Ok(())
}

/// 20 runs, in which memory is refused for the words or for an opening.
#[test]
fn memory_is_refused_at_each_call(rt: HostRuntime) -> Result<(), Fail> {
    for (words, openings) in TASKS {
        let task = task_of(words, openings);
        assert!(rt; ends(&rt, rt.alloc(), &task, Fault::Words)?);
        for opening in 0..openings {
            assert!(rt; ends(&rt, rt.alloc(), &task, Fault::Open(opening))?);
        }
    }
    Ok(())
}

/// 10 runs.
#[test]
fn each_call_for_a_new_file_fails_in_turn(rt: HostRuntime) -> Result<(), Fail> {
    for (words, openings) in TASKS {
        let task = task_of(words, openings);
        if !task.output().is_empty() {
            for fault in Fault::FOR_NEW_FILES {
                assert!(rt; ends(&rt, rt.alloc(), &task, fault)?);
            }
        }
    }
    Ok(())
}
