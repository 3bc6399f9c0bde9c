//! What a report says of its files: its key, their lines, the missing numbers, the differences, and the rejected blocks.
ghost use Rattle.std.specs.Prelude.{◌≡◌, IfOk, map, ◌++◌, ◌∷◌, [], not, filter, OnOk, ◌&&◌, option_map};
ghost use Rattle.std.specs.List.{list_any, range_with_len, flat_map};
ghost use Rattle.std.specs.Ordering.{int_eq};
ghost use Rattle.dsr_ledger.specs.meaning.Findings.{differs};
ghost use Rattle.dsr_ledger.specs.meaning.Files.{first_head};
ghost use Rattle.dsr_ledger.specs.meaning.Reports.{key_of};
ghost use Rattle.dsr_ledger.specs.inner.Assembly.{line_kept, is_number_kept, missing_kept, sums_or_zeros, difference_to, differences_to, differences_kept};
ghost use Rattle.dsr_ledger.specs.inner.Summaries.{sums_at};
ghost use Rattle.dsr_ledger.specs.inner.Stands.{openings_of};

use crate::file::FileBooks;
use crate::file::open::first_head;
use crate::file::summaries::Summaries;
use crate::report::{
    Difference, Differences, FileLine, FileLines, Numbers, Reject, Rejects, Report, ReportKey,
    append,
};
use crate::sums::Sums;
use crate::verdict::Standing;
use dsr_cells::NoMemory;
use dsr_events::{Outcome, Summary};
use dsr_texts::Items;
use std::alloc::Global;

/// The line of a file that ended. (Whole stands in for the outcome of one that has not; no report is made of such a file.)
fn file_line(file: &FileBooks) -> FileLine
    ensures { result ≡ line_kept file.now }
{
    FileLine {
        number: match &file.opening {
            Some(opening) => Some(opening.head.file_number),
            None => None,
        },
        standing: file.standing,
        blocks: file.blocks,
        outcome: file.outcome.unwrap_or(Outcome::Whole),
    }
}

/// The lines of the files, in their order.
fn file_lines(alloc: Global, files: &[FileBooks]) -> Result<FileLines, NoMemory>
    ensures { IfOk result (λ lines. lines ≡ map line_kept files.now) }
{
    let mut lines = Items::new(alloc);
    for file in files {
        append(&mut lines, file_line(file))?;
    }
    Ok(lines)
}

/// Whether a file whose standing is Ours has this number.
fn has_number(file: &FileBooks, number: u32) -> bool
    ensures { result ≡ is_number_kept number file.now }
{
    match (file.standing, &file.opening) {
        (Standing::Ours, Some(opening)) => number == opening.head.file_number,
        _ => false,
    }
}

/// Whether one of the files whose standing is Ours has this number.
fn is_there(files: &[FileBooks], number: u32) -> bool
    ensures { result ≡ list_any (is_number_kept number) files.now }
{
    files.iter().any(|file| has_number(file, number))
}

/// Adds a number to `absent`, unless one of the files whose standing is Ours has it.
fn add_absent(absent: &mut Numbers, number: u32, files: &[FileBooks]) -> Result<(), NoMemory>
    ensures { OnOk result (absent.new ≡ absent.old ++ filter
        (λ n. not (list_any (is_number_kept n) files.now)) (number ∷ [])) }
{
    if is_there(files, number) {
        return Ok(());
    }
    append(absent, number)
}

/// The numbers from 1 to `last`, inclusive, that no file with the standing Ours has, ascending.
#[tactic(auto, using(crate::proofs::ClosedLemmas::filter_range_more))]
fn absent_numbers(alloc: Global, last: u32, files: &[FileBooks]) -> Result<Numbers, NoMemory>
    ensures { IfOk result (λ l. l ≡ filter (λ n. not (list_any (is_number_kept n) files.now))
        (range_with_len 1 last)) }
{
    let mut absent = Items::new(alloc);
    for before in 0..last {
        add_absent(&mut absent, before + 1, files)?;
    }
    Ok(absent)
}

/// The missing numbers of a report, ascending; none if no file has an opening.
fn missing_numbers(alloc: Global, files: &[FileBooks]) -> Result<Numbers, NoMemory>
    ensures { IfOk result (λ l. l ≡ missing_kept (first_head (openings_of files.now)) files.now) }
{
    match first_head(files) {
        Some(head) => absent_numbers(alloc, head.number_of_files, files),
        None => Ok(Items::new(alloc)),
    }
}

/// The sums of the usages that name a summary.
fn found_for(summaries: &Summaries, summary: &Summary) -> Sums
    ensures { result ≡ sums_or_zeros (sums_at summaries.now summary.now.id) }
{
    match summaries.sums(&summary.id) {
        Some(sums) => sums.copy(),
        None => Sums::new(),
    }
}

/// Whether a summary states the sums that were found for it.
fn states(summary: &Summary, found: &Sums) -> bool
    ensures { result ≡ (int_eq summary.now.usages found.now.usages
        && int_eq summary.now.amount found.now.amount) }
{
    i128::from(summary.usages) == found.usages.get() && summary.amount.units() == found.amount.get()
}

/// The difference of a summary: what it states, and the sums that were found.
fn difference_of(
    alloc: Global,
    place: u32,
    summary: &Summary,
    found: &Sums,
) -> Result<Difference, NoMemory>
    ensures { IfOk result (λ difference. difference ≡ difference_to place found.now summary.now) }
{
    Ok(Difference {
        file: place,
        summary_id: summary.id.copy(alloc)?,
        stated_usages: summary.usages,
        found_usages: found.usages.get(),
        stated_amount: summary.amount.units(),
        found_amount: found.amount.get(),
    })
}

/// Adds the difference of a summary, if it states other sums than were found.
fn add_difference(
    differences: &mut Differences,
    alloc: Global,
    place: u32,
    summary: &Summary,
    found: Sums,
) -> Result<(), NoMemory>
    ensures { OnOk result (differences.new ≡ differences.old ++ filter differs
        (difference_to place found summary.now ∷ [])) }
{
    if states(summary, &found) {
        return Ok(());
    }
    let difference = difference_of(alloc, place, summary, &found)?;
    append(differences, difference)
}

/// Adds the differences of summaries, in their order.
fn add_differences(
    differences: &mut Differences,
    alloc: Global,
    place: u32,
    stated: &[Summary],
    summaries: &Summaries,
) -> Result<(), NoMemory>
    ensures { OnOk result (differences.new
        ≡ differences.old ++ differences_to place summaries.now stated.now) }
{
    for summary in stated {
        add_difference(
            differences,
            alloc,
            place,
            summary,
            found_for(summaries, summary),
        )?;
    }
    Ok(())
}

/// Adds the differences of a file. Only a file of the report that ended whole has any.
fn add_file_differences(
    differences: &mut Differences,
    alloc: Global,
    file: &FileBooks,
) -> Result<(), NoMemory>
    ensures { OnOk result (differences.new ≡ differences.old ++ differences_kept file.now) }
{
    match (file.standing, file.outcome, &file.opening) {
        (Standing::Ours, Some(Outcome::Whole), Some(opening)) => {
            let stated = opening.summaries.as_slice();
            add_differences(differences, alloc, file.place, stated, &file.summaries)
        }
        _ => Ok(()),
    }
}

/// The differences of the files, by file and then in file order.
fn differences_of(alloc: Global, files: &[FileBooks]) -> Result<Differences, NoMemory>
    ensures { IfOk result (λ l. l ≡ flat_map differences_kept files.now) }
{
    let mut differences = Items::new(alloc);
    for file in files {
        add_file_differences(&mut differences, alloc, file)?;
    }
    Ok(differences)
}

/// The key of a report: that of the first file that has an opening.
fn key_for(alloc: Global, files: &[FileBooks]) -> Result<Option<ReportKey>, NoMemory>
    ensures { IfOk result (λ key. key ≡ option_map key_of (first_head (openings_of files.now))) }
{
    let Some(head) = first_head(files) else {
        return Ok(None);
    };
    Ok(Some(ReportKey {
        message_id: head.message_id.copy(alloc)?,
        number_of_files: head.number_of_files,
        first_day: head.first_day,
        last_day: head.last_day,
    }))
}

/// The report of these files, but for the lines of its ledger and its rejected blocks.
pub(crate) fn found_in(alloc: Global, files: &[FileBooks]) -> Result<Report, NoMemory>
    ensures key { IfOk result (λ r. r.key ≡ option_map key_of (first_head (openings_of files.now))) }
    ensures lines { IfOk result (λ r. r.files ≡ map line_kept files.now) }
    ensures missing { IfOk result (λ r. r.missing
        ≡ missing_kept (first_head (openings_of files.now)) files.now) }
    ensures differences { IfOk result (λ r. r.differences ≡ flat_map differences_kept files.now) }
{
    Ok(Report {
        key: key_for(alloc, files)?,
        files: file_lines(alloc, files)?,
        missing: missing_numbers(alloc, files)?,
        differences: differences_of(alloc, files)?,
        ledger: Items::new(alloc),
        rejects: Items::new(alloc),
    })
}

/// Appends rejected blocks.
fn add_rejects(rejects: &mut Rejects, more: Vec<Reject>) -> Result<(), NoMemory>
    ensures { OnOk result (rejects.new ≡ rejects.old ++ more.items) }
{
    for reject in more {
        append(rejects, reject)?;
    }
    Ok(())
}

/// The rejected blocks, by file and then in file order.
pub(crate) fn rejects_of(alloc: Global, files: Vec<FileBooks>) -> Result<Rejects, NoMemory>
    ensures { IfOk result (λ l. l ≡ flat_map (λ f. f.rejects.items) files.items) }
{
    let mut rejects = Items::new(alloc);
    for file in files {
        add_rejects(&mut rejects, file.rejects)?;
    }
    Ok(rejects)
}
