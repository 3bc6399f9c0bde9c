//! The standings of files, and the verdicts of blocks.
ghost use Rattle.std.specs.Prelude.{◌≡◌, ◌≤◌, nat_lt, not, true, map, Some, OnOk, IfOk, MatchResult};
ghost use Rattle.std.specs.List.{list_any};
ghost use Rattle.dsr_ledger.specs.meaning.Limits.{whole_share};
ghost use Rattle.dsr_ledger.specs.meaning.Verdicts.{names_unknown, share_total, verdict_by};
ghost use Rattle.dsr_ledger.specs.inner.Summaries.{is_known, index_at};

use crate::file::summaries::Summaries;
use dsr_cells::{Isrc, NoMemory};
use dsr_events::{Block, Usage, Work};

/// The standing of a file in the report.
#[derive(Clone, Copy, PartialEq, Eq)]
pub enum Standing {
    /// Its opening has the report's key, and no earlier file of the report has its number.
    Ours,
    /// Its opening has another key.
    Foreign,
    /// An earlier file of the report has its number.
    Doubled,
    /// It has no opening.
    Headless,
}

/// Why a block is rejected: the first of these that applies.
#[derive(Clone, Copy, PartialEq, Eq)]
pub enum Reason {
    /// Its file is Foreign: it belongs to another report.
    ForeignFile,
    /// Its file is Doubled: an earlier file of the report has its number.
    DoubledFile,
    /// An earlier block of the file has its identifier.
    DoubledBlock,
    /// Its resource has no ISRC.
    NoIsrc,
    /// Its resource's ISRC is not spelled as ISO 3901 says.
    BadIsrc,
    /// A usage names no summary of its file.
    UnknownSummary,
    /// The shares of all its works add up to more than 100 percent.
    ShareOver,
}

/// The verdict of a block.
#[derive(Clone, Copy, PartialEq, Eq)]
pub enum Verdict {
    /// Its usages are in the ledger.
    Booked,
    /// Nothing of it is in the ledger, for this reason.
    Rejected(Reason),
}

/// Finds the numbers of the summaries that usages name. Returns whether each usage names one.
///
/// Usages mostly name summaries in file order, so of many summaries the one after the last one found is tried first: at the
/// beginning the one after the last of an earlier block, which `numbers` still has.
#[inline(never)]
fn find_summaries(
    summaries: &Summaries,
    usages: &[Usage],
    numbers: &mut Vec<usize>,
) -> Result<bool, NoMemory>
    ensures known { IfOk result (λ known. known ≡ not
        (list_any (names_unknown (is_known summaries.now)) usages.now)) }
    ensures found { IfOk result (λ known. known ≡ true
        → map (λ u. index_at summaries.now u.summary_id) usages.now ≡ map Some numbers.new.items) }
{
    let mut hint = match numbers.as_slice().last() {
        Some(last) => summaries.next(*last),
        None => 0,
    };
    numbers.clear();
    for usage in usages {
        let Some(number) = summaries.index_near(&usage.summary_id, hint) else {
            return Ok(false);
        };
        numbers.push(number)?;
        hint = summaries.next(number);
    }
    Ok(true)
}

/// Whether the shares of all works add up to more than 100 percent.
fn shares_over(works: &[Work]) -> bool
    ensures { result ≡ nat_lt whole_share (share_total works.now) }
{
    let mut total: u32 = 0;
    for work in works {
        for share in work.shares.as_slice() {
            let parts = share.parts();
            if parts > 1_000_000 - total {
                return true;
            }
            total += parts;
        }
    }
    false
}

#[tactic(auto, unfolding(crate::specs::meaning::Verdicts::verdict_by))]
/// The recording of a block that is booked, or why it is rejected. If it is booked, `numbers` has
/// the numbers of the summaries that its usages name; before, it has those of an earlier block. An ISRC that is `hint` is
/// read quicker.
pub(crate) fn judge(
    standing: Standing,
    seen: bool,
    summaries: &Summaries,
    block: &Block,
    hint: Option<Isrc>,
    numbers: &mut Vec<usize>,
) -> Result<Result<Isrc, Reason>, NoMemory>
    ensures verdict { IfOk result (λ r. MatchResult r
        (λ isrc. (verdict_by standing seen (is_known summaries.now) block.now ≡ Verdict.Booked) × (isrc ≡ block.now.resource.isrc) × (share_total block.now.works ≤ whole_share))
        (λ reason. verdict_by standing seen (is_known summaries.now) block.now ≡ Verdict.Rejected reason)) }
    ensures found { IfOk result (λ r. OnOk r
        (map (λ u. index_at summaries.now u.summary_id) block.now.usages
        ≡ map Some numbers.new.items)) }
{
    match standing {
        Standing::Foreign => return Ok(Err(Reason::ForeignFile)),
        Standing::Doubled => return Ok(Err(Reason::DoubledFile)),
        Standing::Ours | Standing::Headless => {}
    }
    if seen {
        return Ok(Err(Reason::DoubledBlock));
    }
    let isrc = block.resource.isrc.as_str();
    if isrc.is_empty() {
        return Ok(Err(Reason::NoIsrc));
    }
    let Some(isrc) = Isrc::read_near(isrc, hint) else {
        return Ok(Err(Reason::BadIsrc));
    };
    if !find_summaries(summaries, block.usages.as_slice(), numbers)? {
        return Ok(Err(Reason::UnknownSummary));
    }
    if shares_over(block.works.as_slice()) {
        return Ok(Err(Reason::ShareOver));
    }
    Ok(Ok(isrc))
}
