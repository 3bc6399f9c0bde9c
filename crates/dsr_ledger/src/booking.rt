//! The booking of a block: first its plan, for which all memory is allocated, then its additions, which allocate none.
ghost use Rattle.std.specs.Prelude.{◌≡◌, ℕ, List, [], OnOk, Option, Some, map, ◌≤◌, ◌∷◌, option_map, slice_get, length, ◌+◌, ◌*◌};
ghost use Rattle.std.specs.List.{zip, AllByRecursion};
ghost use Rattle.std.specs.Option.{ForSome};
ghost use Rattle.dsr_events.specs.declared.record.Usage.{Usage};
ghost use Rattle.dsr_events.specs.meaning.Works.{WorkParts};
ghost use Rattle.dsr_ledger.specs.declared.ledger.summary_key.SummaryKey.{SummaryKey};
ghost use Rattle.dsr_ledger.specs.meaning.Limits.{whole_share};
ghost use Rattle.dsr_ledger.specs.meaning.Bookings.{Key, booked_under, usage_bookings};
ghost use Rattle.dsr_ledger.specs.meaning.Verdicts.{share_total};
ghost use Rattle.dsr_ledger.specs.inner.Recordings.{tally_at, seat_at, recording_number, KeepsSeats, KeepsLines, SameNumbers};
ghost use Rattle.dsr_ledger.specs.inner.Seated.{shares_of, AreSeated, SeatedMore};
ghost use Rattle.dsr_ledger.specs.inner.Summaries.{index_at, AreNumbered, state_at, state_with, StateFits, IsInRange};
ghost use Rattle.dsr_ledger.specs.inner.FileSteps.{AreLined, IsPlanned};
ghost use Rattle.dsr_ledger.specs.inner.Tallies.{tally_plus, key_tally, TallyFits};

use crate::file::summaries::Summaries;
use crate::index::to_u32;
use crate::ledger::Ledger;
use crate::ledger::parts::SeatShare;
use crate::ledger::spares::Spares;
use dsr_cells::{Isrc, NoMemory};
use dsr_events::{Usage, Work};
use std::alloc::Global;

/// The plan of a block's additions. The lists are filled anew for each block; until then they and the recording are those of
/// an earlier block, perhaps of another file, and serve as hints.
#[derive(Drop)]
pub(crate) struct Plan {
    /// The numbers of the usages' summaries.
    pub(crate) summaries: Vec<usize>,
    /// The number of the recording; 0 before the first block.
    pub(crate) recording: usize,
    /// The shares of all works, concatenated.
    shares: Vec<SeatShare>,
    /// The lines of the usages.
    lines: Vec<usize>,
}

/// The seat after that of the last share, which is mostly that of the next party.
fn next_seat(shares: &[SeatShare]) -> usize {
    match shares.last() {
        Some(last) => (last.seat as usize).wrapping_add(1),
        None => 0,
    }
}

/// The line after the last one, which is mostly that of the next usage.
fn next_line(lines: &[usize]) -> usize {
    match lines.last() {
        Some(last) => last.wrapping_add(1),
        None => 0,
    }
}

/// Plans the shares of a work. A seat past 32 bits is reported as `NoMemory`.
fn plan_work(
    ledger: &mut Ledger,
    alloc: Global,
    recording: usize,
    work: &Work,
    plan: &mut Vec<SeatShare>,
) -> Result<(), NoMemory>
    requires { (isrc : List ℕ) × (recording_number ledger.old isrc ≡ Some recording) }
    ensures keeps { KeepsSeats ledger.old ledger.new }
    ensures seated { (isrc : List ℕ) → recording_number ledger.old isrc ≡ Some recording
        → OnOk result (SeatedMore (seat_at ledger.new isrc) plan.old.items plan.new.items
        (zip work.now.parties work.now.shares)) }
{
    let shares = work.shares.as_slice();
    for (i, party) in work.parties.as_slice().iter().enumerate() {
        let number = ledger.seat(alloc, recording, party, next_seat(plan.as_slice()))?;
        let seat = to_u32(number)?;
        plan.push(SeatShare {
            seat,
            share: shares[i].parts(),
        })?;
    }
    Ok(())
}

/// Plans the shares of works.
#[inline(never)]
fn plan_works(
    ledger: &mut Ledger,
    alloc: Global,
    recording: usize,
    works: &[Work],
    plan: &mut Vec<SeatShare>,
) -> Result<(), NoMemory>
    requires { (isrc : List ℕ) × (recording_number ledger.old isrc ≡ Some recording) }
    ensures keeps { KeepsSeats ledger.old ledger.new }
    ensures seated { (isrc : List ℕ) → recording_number ledger.old isrc ≡ Some recording
        → OnOk result (SeatedMore (seat_at ledger.new isrc) plan.old.items plan.new.items
        (shares_of works.now)) }
{
    for work in works {
        plan_work(ledger, alloc, recording, work, plan)?;
    }
    Ok(())
}

/// Plans the lines of usages that name the summaries with these numbers, and the parts of these shares
/// in them.
#[inline(never)]
fn plan_lines(
    ledger: &mut Ledger,
    alloc: Global,
    recording: usize,
    shares: &[SeatShare],
    summaries: &Summaries,
    numbers: &[usize],
    plan: &mut Vec<usize>,
) -> Result<(), NoMemory>
    requires empty { plan.old.items ≡ [] }
    requires there { (isrc : List ℕ) × (es : List (List ℕ × ℕ))
        × (recording_number ledger.old isrc ≡ Some recording)
        × AreSeated (seat_at ledger.old isrc) shares.now es }
    requires named { (key_of : List ℕ → Option SummaryKey) × (us : List Usage)
        × AreNumbered ledger.old key_of summaries.now
        × (map (λ u. index_at summaries.now u.summary_id) us ≡ map Some numbers.now) }
    ensures keeps { KeepsLines ledger.old ledger.new }
    ensures lined { (isrc : List ℕ) (key_of : List ℕ → Option SummaryKey) (us : List Usage)
        → recording_number ledger.old isrc ≡ Some recording
        → AreNumbered ledger.old key_of summaries.now
        → map (λ u. index_at summaries.now u.summary_id) us ≡ map Some numbers.now
        → OnOk result (AreLined ledger.new key_of isrc shares.now us plan.new.items) }
{
    for number in numbers {
        let key = summaries.key(*number);
        let next = next_line(plan.as_slice());
        let line = ledger.line(alloc, recording, key, next, shares)?;
        plan.push(line)?;
    }
    Ok(())
}

impl Plan {
    /// Empty lists.
    pub(crate) fn new(alloc: Global) -> Plan {
        Plan {
            summaries: Vec::new(alloc),
            recording: 0,
            shares: Vec::new(alloc),
            lines: Vec::new(alloc),
        }
    }

    /// Plans a block of a recording with these works, whose usages' summaries are already in `self.summaries`. No sum of a
    /// key or a summary changes.
    pub(crate) fn fill(
        &mut self,
        ledger: &mut Ledger,
        alloc: Global,
        summaries: &Summaries,
        isrc: Isrc,
        works: &[Work],
    ) -> Result<(), NoMemory>
        requires { (key_of : List ℕ → Option SummaryKey) × (us : List Usage)
            × AreNumbered ledger.old key_of summaries.now
            × (map (λ u. index_at summaries.now u.summary_id) us ≡ map Some self.old.summaries.items) }
        ensures tallies { (q : Key) → tally_at ledger.new q ≡ tally_at ledger.old q }
        ensures keys { ledger.new.summary_keys ≡ ledger.old.summary_keys }
        ensures planned { (key_of : List ℕ → Option SummaryKey) (us : List Usage)
            → AreNumbered ledger.old key_of summaries.now
            → map (λ u. index_at summaries.now u.summary_id) us ≡ map Some self.old.summaries.items
            → OnOk result (IsPlanned ledger.new summaries.now key_of isrc works.now us self.new) }
    {
        self.shares.clear();
        self.lines.clear();
        let recording = ledger.recording(alloc, isrc, self.summaries.len(), self.recording)?;
        self.recording = recording;
        plan_works(ledger, alloc, recording, works, &mut self.shares)?;
        plan_lines(
            ledger,
            alloc,
            recording,
            self.shares.as_slice(),
            summaries,
            self.summaries.as_slice(),
            &mut self.lines,
        )
    }

    /// Takes memory for each sum that may leave 64 bits when the usages are added.
    pub(crate) fn reserve(&self, alloc: Global, spares: &mut Spares) -> Result<(), NoMemory>
        ensures { OnOk result (length self.now.summaries.items * (2 + length self.now.shares.items)
            ≤ spares.new) }
    {
        let sums = self.shares.len() as u128 + 2;
        match usize::try_from(self.summaries.len() as u128 * sums) {
            Ok(count) => spares.reserve(alloc, count),
            Err(_) => Err(NoMemory),
        }
    }
}

/// Adds usage i of a block to its summary and to its line, and to no other.
fn add_usage(
    ledger: &mut Ledger,
    summaries: &mut Summaries,
    plan: &Plan,
    spares: &mut Spares,
    i: usize,
    usage: &Usage,
)
    requires planned { (isrc : List ℕ) × (works : List WorkParts) × (us : List Usage)
        × (key_of : List ℕ → Option SummaryKey)
        × IsPlanned ledger.old summaries.old key_of isrc works us plan.now
        × (slice_get us i ≡ Some usage.now) × (share_total works ≤ whole_share) }
    requires spare { 2 + length plan.now.shares.items ≤ spares.old }
    requires ledger_fits { (q : Key) → TallyFits 1 (tally_at ledger.old q) }
    requires summaries_fit { (id : List ℕ) → ForSome (state_at summaries.old id) (StateFits 1) }
    ensures range { IsInRange usage.now }
    ensures numbers { SameNumbers ledger.old ledger.new }
    ensures index { (id : List ℕ) → index_at summaries.new id ≡ index_at summaries.old id }
    ensures states { (id : List ℕ) → state_at summaries.new id ≡ option_map
        (state_with id (usage.now ∷ [])) (state_at summaries.old id) }
    ensures tallies { (isrc : List ℕ) (works : List WorkParts) (us : List Usage)
        (key_of : List ℕ → Option SummaryKey)
        → IsPlanned ledger.old summaries.old key_of isrc works us plan.now
        → slice_get us i ≡ Some usage.now
        → (q : Key) → tally_at ledger.new q ≡ tally_plus (tally_at ledger.old q) (key_tally (booked_under isrc works usage.now (key_of usage.now.summary_id)) q) }
    ensures spares { spares.old ≤ spares.new + (2 + length plan.now.shares.items) }
{
    let summary = plan.summaries[i];
    let line = plan.lines[i];
    summaries.count(summary, usage);
    ledger.add(plan.recording, line, usage, plan.shares.as_slice(), spares);
}

/// Adds the usages of a block to their summaries and to their lines, and to no others.
#[inline(never)]
pub(crate) fn add_usages(
    ledger: &mut Ledger,
    summaries: &mut Summaries,
    plan: &Plan,
    spares: &mut Spares,
    usages: &[Usage],
)
    requires planned { (isrc : List ℕ) × (works : List WorkParts)
        × (key_of : List ℕ → Option SummaryKey)
        × IsPlanned ledger.old summaries.old key_of isrc works usages.now plan.now
        × (share_total works ≤ whole_share) }
    requires spare { length usages.now * (2 + length plan.now.shares.items) ≤ spares.old }
    requires ledger_fits { (q : Key) → TallyFits (length usages.now) (tally_at ledger.old q) }
    requires summaries_fit { (id : List ℕ)
        → ForSome (state_at summaries.old id) (StateFits (length usages.now)) }
    ensures range { AllByRecursion IsInRange usages.now }
    ensures keys { ledger.new.summary_keys ≡ ledger.old.summary_keys }
    ensures states { (id : List ℕ) → state_at summaries.new id ≡ option_map
        (state_with id usages.now) (state_at summaries.old id) }
    ensures tallies { (isrc : List ℕ) (works : List WorkParts) (key_of : List ℕ → Option SummaryKey)
        → IsPlanned ledger.old summaries.old key_of isrc works usages.now plan.now
        → (q : Key) → tally_at ledger.new q ≡ tally_plus (tally_at ledger.old q) (key_tally (usage_bookings key_of isrc works usages.now) q) }
{
    for (i, usage) in usages.iter().enumerate() {
        add_usage(ledger, summaries, plan, spares, i, usage);
    }
}
