//! The books' state of a file.
ghost use Rattle.std.specs.Prelude.{◌≡◌, ◌+◌, ◌<◌, ◌^◌, ◌≤◌, ℕ, List, OnOk, OnErr, IfOk, Some, map};
ghost use Rattle.std.specs.Option.{ForSome};
ghost use Rattle.dsr_ledger.specs.meaning.Limits.{whole_share};
ghost use Rattle.dsr_ledger.specs.layer.Limits.{most_usages};
ghost use Rattle.dsr_ledger.specs.meaning.Verdicts.{share_total, verdict_by};
ghost use Rattle.dsr_ledger.specs.meaning.Files.{Filed};
ghost use Rattle.dsr_ledger.specs.inner.Summaries.{state_at, index_at, is_known, StateFits};
ghost use Rattle.dsr_ledger.specs.inner.Tallies.{TallyFits};
ghost use Rattle.dsr_ledger.specs.inner.Recordings.{tally_at};
ghost use Rattle.dsr_ledger.specs.inner.FileSteps.{IsNumberedFile, IsSameFile, TakesBlock};
ghost use Rattle.dsr_ledger.specs.inner.Stands.{FileStands, Took};

pub(crate) mod ids;
pub(crate) mod open;
pub(crate) mod summaries;

use crate::booking::{Plan, add_usages};
use crate::file::ids::{Ids, number_of};
use crate::file::summaries::{Summaries, count_usages};
use crate::ledger::Ledger;
use crate::ledger::spares::Spares;
use crate::report::Reject;
use crate::verdict::{Reason, Standing, Verdict, judge};
use dsr_cells::{Isrc, NoMemory};
use dsr_events::{Block, Opening, Outcome};
use std::alloc::Global;

/// The books' state of a file.
#[derive(Drop)]
pub(crate) struct FileBooks {
    /// Its place in the order given, from 1.
    pub(crate) place: u32,
    pub(crate) opening: Option<Opening>,
    pub(crate) standing: Standing,
    /// The number of blocks taken.
    pub(crate) blocks: u64,
    /// The identifiers of all blocks, booked or rejected.
    pub(crate) ids: Ids,
    pub(crate) summaries: Summaries,
    pub(crate) rejects: Vec<Reject>,
    pub(crate) outcome: Option<Outcome>,
}

impl FileBooks {
    /// Takes a block that is booked. All memory is allocated before anything is added.
    fn accept(
        &mut self,
        ledger: &mut Ledger,
        plan: &mut Plan,
        spares: &mut Spares,
        alloc: Global,
        block: &Block,
        isrc: Isrc,
    ) -> Result<(), NoMemory>
        requires blocks { self.old.blocks + 1 < 2 ^ 64 }
        requires recording { isrc ≡ block.now.resource.isrc }
        requires shares { share_total block.now.works ≤ whole_share }
        requires found { map (λ u. index_at self.old.summaries u.summary_id) block.now.usages
            ≡ map Some plan.old.summaries.items }
        requires numbered { IsNumberedFile ledger.old self.old }
        requires ledger_fits { (q : _) → TallyFits most_usages (tally_at ledger.old q) }
        requires summaries_fit { (id : List ℕ)
            → ForSome (state_at self.old.summaries id) (StateFits most_usages) }
        ensures ids { self.new.ids ≡ self.old.ids }
        ensures keys { ledger.new.summary_keys ≡ ledger.old.summary_keys }
        ensures err { OnErr result (IsSameFile self.old self.new) }
        ensures same_ledger { OnErr result
            ((q : _) → tally_at ledger.new q ≡ tally_at ledger.old q) }
        ensures ok { OnOk result (TakesBlock self.old self.new ledger.old ledger.new block.now
            Verdict.Booked) }
    {
        let works = block.works.as_slice();
        plan.fill(ledger, alloc, &self.summaries, isrc, works)?;
        plan.reserve(alloc, spares)?;
        let usages = block.usages.as_slice();
        add_usages(ledger, &mut self.summaries, plan, spares, usages);
        self.blocks += 1;
        Ok(())
    }

    /// Takes a block that is rejected. All memory is allocated before anything is added.
    fn reject(
        &mut self,
        ledger: &Ledger,
        alloc: Global,
        block: &Block,
        reason: Reason,
    ) -> Result<(), NoMemory>
        requires blocks { self.old.blocks + 1 < 2 ^ 64 }
        requires summaries_fit { (id : List ℕ)
            → ForSome (state_at self.old.summaries id) (StateFits most_usages) }
        ensures ids { self.new.ids ≡ self.old.ids }
        ensures err { OnErr result (IsSameFile self.old self.new) }
        ensures ok { OnOk result (TakesBlock self.old self.new ledger.now ledger.now block.now
            (Verdict.Rejected reason)) }
    {
        let reject = Reject {
            file: self.place,
            position: self.blocks + 1,
            block_id: block.id.copy(alloc)?,
            reason,
        };
        self.rejects.push(reject)?;
        count_usages(&mut self.summaries, block.usages.as_slice());
        self.blocks += 1;
        Ok(())
    }

    /// Takes a block and returns its verdict. `seen` says whether its identifier was seen before.
    fn take(
        &mut self,
        ledger: &mut Ledger,
        plan: &mut Plan,
        spares: &mut Spares,
        alloc: Global,
        block: &Block,
        seen: bool,
    ) -> Result<Verdict, NoMemory>
        requires blocks { self.old.blocks + 1 < 2 ^ 64 }
        requires numbered { IsNumberedFile ledger.old self.old }
        requires ledger_fits { (q : _) → TallyFits most_usages (tally_at ledger.old q) }
        requires summaries_fit { (id : List ℕ)
            → ForSome (state_at self.old.summaries id) (StateFits most_usages) }
        ensures ids { self.new.ids ≡ self.old.ids }
        ensures keys { ledger.new.summary_keys ≡ ledger.old.summary_keys }
        ensures err { OnErr result (IsSameFile self.old self.new) }
        ensures same_ledger { OnErr result
            ((q : _) → tally_at ledger.new q ≡ tally_at ledger.old q) }
        ensures verdict { IfOk result (λ v. verdict_by self.old.standing seen
            (is_known self.old.summaries) block.now ≡ v) }
        ensures ok { IfOk result (λ v. TakesBlock self.old self.new ledger.old ledger.new block.now
            v) }
    {
        let hint = ledger.expected(plan.recording).map(|(_, isrc)| isrc);
        match judge(
            self.standing,
            seen,
            &self.summaries,
            block,
            hint,
            &mut plan.summaries,
        )? {
            Ok(isrc) => {
                self.accept(ledger, plan, spares, alloc, block, isrc)?;
                Ok(Verdict::Booked)
            }
            Err(reason) => {
                self.reject(ledger, alloc, block, reason)?;
                Ok(Verdict::Rejected(reason))
            }
        }
    }

    /// Takes a block and returns its verdict. If memory is refused, nothing that a report shows has
    /// changed.
    pub(crate) fn book(
        &mut self,
        ledger: &mut Ledger,
        plan: &mut Plan,
        spares: &mut Spares,
        alloc: Global,
        block: &Block,
    ) -> Result<Verdict, NoMemory>
        requires blocks { self.old.blocks + 1 < 2 ^ 64 }
        requires numbered { IsNumberedFile ledger.old self.old }
        requires ledger_fits { (q : _) → TallyFits most_usages (tally_at ledger.old q) }
        requires summaries_fit { (id : List ℕ)
            → ForSome (state_at self.old.summaries id) (StateFits most_usages) }
        ensures ok { (d : Filed) → FileStands self.old d
            → IfOk result (λ v. Took d block.now v self.new ledger.old ledger.new) }
        ensures keys { ledger.new.summary_keys ≡ ledger.old.summary_keys }
        ensures numbered { IsNumberedFile ledger.new self.new }
        ensures count { OnOk result (self.new.blocks ≡ self.old.blocks + 1) }
        ensures err { OnErr result (IsSameFile self.old self.new) }
        ensures same_ledger { OnErr result
            ((q : _) → tally_at ledger.new q ≡ tally_at ledger.old q) }
    {
        let number = number_of(&block.id);
        let seen = self.ids.has(&block.id, number);
        self.ids.reserve()?;
        let id = block.id.copy(alloc)?;
        let verdict = self.take(ledger, plan, spares, alloc, block, seen)?;
        if !seen {
            self.ids.add(id, number);
        }
        Ok(verdict)
    }
}
