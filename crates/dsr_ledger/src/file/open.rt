//! Opening a file.
ghost use Rattle.std.specs.Prelude.{◌≡◌, ◌+◌, ◌<◌, List, [], ◌∷◌, ◌++◌, ℕ, Some, IfOk, length, option_map};
ghost use Rattle.std.specs.List.{list_any};
ghost use Rattle.dsr_ledger.specs.layer.Limits.{most_files};
ghost use Rattle.dsr_ledger.specs.meaning.Files.{is_same_report, has_same_number, is_of_report, first_head, standing, summaries_of};
ghost use Rattle.dsr_ledger.specs.layer.Files.{opened};
ghost use Rattle.dsr_ledger.specs.meaning.Bookings.{summary_key_named, summary_key_of};
ghost use Rattle.dsr_ledger.specs.inner.FileSteps.{IsNumberedFile};
ghost use Rattle.dsr_ledger.specs.inner.Recordings.{KeepsKeys, key_number};
ghost use Rattle.dsr_ledger.specs.inner.Summaries.{sums_at, found_in, AreNumbered};
ghost use Rattle.dsr_ledger.specs.inner.Stands.{FileStands, openings_of};

use crate::file::FileBooks;
use crate::file::ids::Ids;
use crate::file::summaries::Summaries;
use crate::index::Seeded;
use crate::ledger::Ledger;
use crate::ledger::summary_key::SummaryKey;
use crate::verdict::Standing;
use dsr_cells::NoMemory;
use dsr_events::{Head, Opening, Summary};
use std::alloc::Global;

/// Whether two files are of one report.
fn same_report(a: &Head, b: &Head) -> bool
    ensures { result ≡ is_same_report a.now b.now }
{
    a.message_id == b.message_id
        && a.number_of_files == b.number_of_files
        && a.first_day == b.first_day
        && a.last_day == b.last_day
}

/// The head of the first file that has an opening.
pub(crate) fn first_head(files: &[FileBooks]) -> Option<&Head>
    ensures { option_map (λ head. head.now) result ≡ first_head (openings_of files.now) }
{
    for file in files {
        if let Some(opening) = &file.opening {
            return Some(&opening.head);
        }
    }
    None
}

/// Whether the opening has the key of the report of these files and itself.
fn is_of_their_report(files: &[FileBooks], opening: &Opening) -> bool
    ensures { result ≡ is_of_report (first_head (openings_of files.now ++ Some opening.now ∷ []))
        opening.now.head }
{
    match first_head(files) {
        Some(first) => same_report(first, &opening.head),
        None => true,
    }
}

/// Whether a file is of the same report as the head and has its file number.
fn has_same_number(head: &Head, opening: &Option<Opening>) -> bool
    ensures { result ≡ has_same_number head.now opening.now }
{
    match opening {
        Some(opening) => {
            same_report(head, &opening.head) && head.file_number == opening.head.file_number
        }
        None => false,
    }
}

/// Whether one of the files is of the same report as the opening and has its file number.
#[tactic(auto, using(crate::proofs::OpeningLemmas::taken_here))]
fn is_number_taken(files: &[FileBooks], opening: &Opening) -> bool
    ensures { result ≡ list_any (has_same_number opening.now.head) (openings_of files.now) }
{
    for file in files {
        if has_same_number(&opening.head, &file.opening) {
            return true;
        }
    }
    false
}

#[tactic(auto, unfolding(crate::specs::meaning::Files::standing))]
/// The standing of a file after these.
fn standing_after(files: &[FileBooks], opening: &Option<Opening>) -> Standing
    ensures { result ≡ standing (openings_of files.now) opening.now }
{
    match opening {
        None => Standing::Headless,
        Some(opening) => {
            if !is_of_their_report(files, opening) {
                Standing::Foreign
            } else if is_number_taken(files, opening) {
                Standing::Doubled
            } else {
                Standing::Ours
            }
        }
    }
}

/// The number of a summary's key in the ledger.
fn numbered_key(ledger: &mut Ledger, alloc: Global, summary: &Summary) -> Result<u32, NoMemory>
    ensures keeps { KeepsKeys ledger.old ledger.new }
    ensures there { IfOk result (λ number. key_number ledger.new (summary_key_of summary.now)
        ≡ Some number) }
{
    ledger.summary_key(SummaryKey::of(alloc, summary)?)
}

/// The states of these summaries, before any usage. Their keys are numbered in the ledger.
#[tactic(auto, using(std::proofs::lemmas::List::take_all))]
fn states_of(
    ledger: &mut Ledger,
    alloc: Global,
    seeded: Seeded,
    stated: &[Summary],
) -> Result<Summaries, NoMemory>
    ensures keeps { KeepsKeys ledger.old ledger.new }
    ensures sums { IfOk result (λ m. (id : List ℕ) → sums_at m id ≡ found_in stated.now [] id) }
    ensures numbers { IfOk result (λ m. AreNumbered ledger.new (summary_key_named stated.now) m) }
{
    let mut summaries = Summaries::with_room(alloc, seeded, stated.len())?;
    for summary in stated {
        let key = numbered_key(ledger, alloc, summary)?;
        summaries.add(alloc, summary, key)?;
    }
    Ok(summaries)
}

/// The summaries of a file that may have no opening.
fn summaries_of(opening: &Option<Opening>) -> &[Summary]
    ensures { result.now ≡ summaries_of opening.now }
{
    match opening {
        Some(opening) => opening.summaries.as_slice(),
        None => &[],
    }
}

/// The state of a file that is opened after these.
pub(crate) fn open_after(
    files: &[FileBooks],
    ledger: &mut Ledger,
    alloc: Global,
    seeded: Seeded,
    opening: Option<Opening>,
) -> Result<FileBooks, NoMemory>
    requires { length files.now < most_files }
    ensures keeps { KeepsKeys ledger.old ledger.new }
    ensures numbered { IfOk result (λ f. IsNumberedFile ledger.new f) }
    ensures stands { IfOk result (λ f. FileStands f
        (record {
          place = length files.now + 1;
          standing = standing
              (openings_of files.now) opening;
          file = opened opening;
        })) }
{
    let standing = standing_after(files, &opening);
    let summaries = states_of(ledger, alloc, seeded, summaries_of(&opening))?;
    Ok(FileBooks {
        place: files.len() as u32 + 1,
        opening,
        standing,
        blocks: 0,
        ids: Ids::new(alloc, seeded),
        summaries,
        rejects: Vec::new(alloc),
        outcome: None,
    })
}
