//! The books of a report.
ghost use Rattle.std.specs.Prelude.{◌≡◌, ◌≤◌, length, option_map, slice_get};
ghost use Rattle.dsr_ledger.specs.layer.Limits.{most_files};
ghost use Rattle.dsr_ledger.specs.inner.Books.{IsReached};

use crate::booking::Plan;
use crate::closed::ClosedBooks;
use crate::file::FileBooks;
use crate::file::open::open_after;
use crate::index::Seeded;
use crate::ledger::Ledger;
use crate::ledger::spares::Spares;
use crate::report::Report;
use crate::verdict::{Standing, Verdict};
use dsr_cells::NoMemory;
use dsr_events::{Block, Opening, Outcome};
use std::alloc::Global;

/// The files that were opened, and the ledger.
#[derive(Drop)]
pub(crate) struct Kept {
    pub(crate) files: Vec<FileBooks>,
    pub(crate) ledger: Ledger,
}

impl Kept {
    /// File k, if it was opened.
    pub(crate) fn file(&self, k: u32) -> Option<&FileBooks>
        ensures { option_map (λ f. f.now) result ≡ slice_get self.now.files.items k }
    {
        self.files.get(k as usize)
    }
}

/// The books of a report: they take the openings, blocks and outcomes of its files, and make its
/// report. Files are numbered from 0.
pub struct Books {
    files: u32,
    alloc: Global,
    seeded: Seeded,
    kept: Kept,
    plan: Plan,
    spares: Spares,
    ghost most: { files ≤ most_files },
    ghost room: { length kept.files.items ≤ files },
    ghost reached: { ∥ IsReached kept ∥₁ },
}

/// Written out, so that dropping one is a call: a derived drop is proved anew wherever it happens.
impl Drop for Books {
    fn drop(self) {
        let Books {
            files: _,
            alloc: _,
            seeded: _,
            kept: _,
            plan: _,
            spares: _,
        } = self;
    }
}

impl Books {
    ghost use Rattle.std.specs.Prelude.{◌<◌, List, [], ◌∷◌, ◌++◌, Option, map, IfOk, IsOk, MatchResult};
    ghost use Rattle.dsr_ledger.specs.meaning.Files.{File, standing};
    ghost use Rattle.dsr_ledger.specs.layer.Files.{opened, with_block, with_outcome};
    ghost use Rattle.dsr_ledger.specs.layer.Verdicts.{verdict_in};
    ghost use Rattle.dsr_ledger.specs.inner.Books.{has_opening_in, ended_in, blocks_in};
    ghost use Rattle.dsr_ledger.specs.inner.BooksWords.{AreClosed, Stands, files_count, opened_count, has_opening_at, ended_at, blocks_at, CanBook, CanEnd, AllEnded};
    ghost use Rattle.dsr_ledger.specs.meaning.Reports.{report_of};

    /// New books of a report in `files` files, 1 to 64, with no file opened. The seed is fixed.
    ///
    /// # Errors
    ///
    /// `NoMemory`: out of memory for the files.
    pub fn new(alloc: Global, files: u32) -> Result<Books, NoMemory>
        requires some { 1 ≤ files }
        requires most { files ≤ most_files }
        ensures stands { IfOk result (λ books. Stands books []) }
        ensures count { IfOk result (λ books. files_count books ≡ files) }
    {
        Books::with_seed(alloc, files, 0)
    }

    /// Like `new`, with this seed for the hashes of identifiers and names. No report depends on the
    /// seed.
    ///
    /// # Errors
    ///
    /// `NoMemory`: out of memory for the files.
    pub fn with_seed(alloc: Global, files: u32, seed: u64) -> Result<Books, NoMemory>
        requires some { 1 ≤ files }
        requires most { files ≤ most_files }
        ensures stands { IfOk result (λ books. Stands books []) }
        ensures count { IfOk result (λ books. files_count books ≡ files) }
    {
        let seeded = Seeded::with_seed(seed);
        let kept = Kept {
            files: Vec::with_capacity(alloc, files as usize)?,
            ledger: Ledger::new(alloc, seeded),
        };
        Ok(Books {
            files,
            alloc,
            seeded,
            kept,
            plan: Plan::new(alloc),
            spares: Spares::new(alloc),
        })
    }

    /// The number of files of the report, opened or not.
    pub fn files(&self) -> u32
        ensures { result ≡ files_count self.now }
    {
        self.files
    }

    /// The number of files that were opened.
    pub fn opened(&self) -> u32
        ensures value { result ≡ opened_count self.now }
        ensures stands { (files : List File) → Stands self.now files → result ≡ length files }
    {
        self.kept.files.len() as u32
    }

    /// The number of blocks taken from file k; 0 if it is not opened.
    pub fn blocks(&self, k: u32) -> u64
        ensures value { result ≡ blocks_at self.now k }
        ensures stands { (files : List File) → Stands self.now files → result ≡ blocks_in files k }
    {
        match self.kept.file(k) {
            Some(file) => file.blocks,
            None => 0,
        }
    }

    /// Whether file k has ended.
    pub fn ended(&self, k: u32) -> bool
        ensures value { result ≡ ended_at self.now k }
        ensures stands { (files : List File) → Stands self.now files → result ≡ ended_in files k }
    {
        match self.kept.file(k) {
            Some(file) => file.outcome.is_some(),
            None => false,
        }
    }

    /// Whether file k is opened and has an opening.
    pub fn has_opening(&self, k: u32) -> bool
        ensures value { result ≡ has_opening_at self.now k }
        ensures stands { (files : List File) → Stands self.now files
            → result ≡ has_opening_in files k }
    {
        match self.kept.file(k) {
            Some(file) => file.opening.is_some(),
            None => false,
        }
    }

    /// Opens the next file in the order given, and returns its standing.
    ///
    /// # Errors
    ///
    /// `NoMemory`: out of memory; nothing has changed.
    pub fn open_next(&mut self, opening: Option<Opening>) -> Result<Standing, NoMemory>
        requires { opened_count self.old < files_count self.old }
        ensures count { files_count self.new ≡ files_count self.old }
        ensures stands { (files : List File) → Stands self.old files → MatchResult result
            (λ s. (s ≡ standing (map (λ f. f.opening) files) opening) × Stands self.new (files ++ opened opening ∷ []))
            (λ _. Stands self.new files) }
    {
        let files = self.kept.files.as_slice();
        let ledger = &mut self.kept.ledger;
        let file = open_after(files, ledger, self.alloc, self.seeded, opening)?;
        let standing = file.standing;
        self.kept.files.push(file)?;
        Ok(standing)
    }

    /// Takes a block of file k, and returns its verdict.
    ///
    /// # Errors
    ///
    /// `NoMemory`: out of memory; nothing has changed.
    #[tactic(auto, using(crate::proofs::BooksLemmas::lines_fit_reached))]
    pub fn book(&mut self, k: u32, block: &Block) -> Result<Verdict, NoMemory>
        requires { CanBook self.old k }
        ensures count { files_count self.new ≡ files_count self.old }
        ensures stands { (files : List File) → Stands self.old files → MatchResult result
            (λ v. (v ≡ verdict_in files k block.now) × Stands self.new (with_block files k block.now))
            (λ _. Stands self.new files) }
    {
        let file = &mut self.kept.files[k as usize];
        let ledger = &mut self.kept.ledger;
        file.book(ledger, &mut self.plan, &mut self.spares, self.alloc, block)
    }

    /// Ends file k. This allocates nothing.
    ///
    /// # Errors
    ///
    /// None: the result is always Ok.
    pub fn end_file(&mut self, k: u32, outcome: Outcome) -> Result<(), NoMemory>
        requires { CanEnd self.old k }
        ensures ends { IsOk result }
        ensures count { files_count self.new ≡ files_count self.old }
        ensures stands { (files : List File) → Stands self.old files
            → Stands self.new (with_outcome files k outcome) }
    {
        let file = &mut self.kept.files[k as usize];
        file.outcome = Some(outcome);
        Ok(())
    }

    /// Closes the books of the files, which have all ended.
    ///
    /// # Errors
    ///
    /// `NoMemory`: out of memory; the books are dropped.
    pub fn close(self) -> Result<ClosedBooks, NoMemory>
        requires { AllEnded self }
        ensures { (files : List File) → Stands self files
            → IfOk result (λ books. AreClosed books files) }
    {
        let Books {
            files: _,
            alloc,
            seeded: _,
            kept,
            plan: _,
            spares: _,
        } = self;
        ClosedBooks::of(alloc, kept)
    }

    /// The report of the files, which have all ended. The texts of its rejects are moved out of the books, its other texts
    /// are copied.
    ///
    /// # Errors
    ///
    /// `NoMemory`: out of memory; the books are dropped.
    pub fn into_report(self) -> Result<Report, NoMemory>
        requires { AllEnded self }
        ensures { (files : List File) → Stands self files → IfOk result (λ r. r ≡ report_of files) }
    {
        self.close()?.into_report()
    }
}
