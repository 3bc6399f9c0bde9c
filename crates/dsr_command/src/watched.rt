//! Sources whose reads are counted, for `--progress`.
ghost use Rattle.std.specs.Prelude.{◌≡◌, true, false, IfOk, MatchOption, map};
ghost use Rattle.dsr_command.specs.World.{Asks};

use crate::command::Asked;
use crate::file_source::FileSource;
use crate::progress::Progress;
use crate::report_world::ReportWorld;
use dsr_cells::NoMemory;
use dsr_file::{Failed, Source};
use std::alloc::Global;
use std::io::Eprint;
use std::time::Clock;

/// What tells the progress of a run.
#[derive(Drop)]
pub struct Telling<T> {
    /// What writes the lines, and the time.
    pub teller: T,
    /// Whether a terminal shows them.
    pub terminal: bool,
}

/// What tells the progress of a run, if the words ask for it.
pub fn teller_of<W: ReportWorld>(world: &W, asked: &Asked) -> Option<Telling<W::Teller>>
    requires { Asks (W.disk world.now) asked.now }
    ensures { MatchOption result (asked.now.progress ≡ false) (λ _. asked.now.progress ≡ true) }
{
    if asked.progress {
        Some(Telling {
            teller: world.teller(asked),
            terminal: world.is_terminal(),
        })
    } else {
        None
    }
}

/// A source whose reads are counted. It gives what the source inside gives.
#[derive(Drop)]
pub struct Watched<R, T> {
    source: R,
    progress: Progress<T>,
}

impl<R: Source, T: Clock + Eprint + Copy> Source for Watched<R, T> {
    ghost told = { λ s. R.told s.source };

    fn read(&mut self, piece: &mut [u8]) -> Result<usize, Failed> {
        let answer = self.source.read(piece);
        match answer {
            Ok(bytes) => self.progress.count(bytes),
            Err(Failed) => self.progress.count(0),
        }
        answer
    }

    fn failed(&self) -> bool {
        self.source.failed()
    }
}

/// The size of all files in bytes, if that is known.
fn whole_size<R: FileSource>(sources: &Vec<R>) -> Option<u64> {
    let mut size = 0u64;
    for source in sources {
        size = size.checked_add(source.size()?)?;
    }
    Some(size)
}

/// Wraps the sources, so that their reads are counted and their progress is told. Returns what tells the end, too.
///
/// # Errors
///
/// `NoMemory`: out of memory.
pub fn watch<R: FileSource + Drop, T: Clock + Eprint + Copy + Drop>(
    telling: Telling<T>,
    alloc: Global,
    sources: Vec<R>,
) -> Result<(Vec<Watched<R, T>>, Progress<T>), NoMemory>
    ensures { IfOk result (λ v. map (λ w. w.source) v.0.items ≡ sources.items) }
{
    let size = whole_size(&sources);
    let Telling { teller, terminal } = telling;
    let progress = Progress::begin(&teller, terminal, alloc, sources.len(), size)?;
    let mut watched = Vec::new(alloc);
    for source in sources {
        let progress = progress.share()?;
        let Ok(()) = watched.push(Watched { source, progress }) else {
            return Err(NoMemory);
        };
    }
    Ok((watched, progress))
}
