//! Books whose files have all ended, from the state of the books.
ghost use Rattle.std.specs.Prelude.{◌≡◌, ◌≤◌, IfOk, length};
ghost use Rattle.dsr_ledger.specs.layer.Limits.{most_files};
ghost use Rattle.dsr_ledger.specs.inner.Stands.{AreOfSmall};
ghost use Rattle.dsr_ledger.specs.inner.Books.{IsReached, Stands};

use crate::books::Kept;
use crate::findings::{found_in, rejects_of};
use crate::ledger::Ledger;
use crate::report::Report;
use crate::view::copies::copied_lines;
use crate::view::{LedgerView, ReportView};
use dsr_cells::NoMemory;
use std::alloc::Global;

/// Books whose files have all ended: their report, but for the lines of the ledger, and the ledger.
pub struct ClosedBooks {
    alloc: Global,
    report: Report,
    ledger: Ledger,
    ghost small: { ∥ AreOfSmall ledger ∥₁ },
}

/// Written out, so that dropping one is a call: a derived drop is proved anew wherever it happens.
impl Drop for ClosedBooks {
    fn drop(self) {
        let ClosedBooks {
            alloc: _,
            report: _,
            ledger: _,
        } = self;
    }
}

impl ClosedBooks {
    ghost use Rattle.std.specs.Prelude.{List, IfSome};
    ghost use Rattle.dsr_ledger.specs.meaning.Files.{File};
    ghost use Rattle.dsr_ledger.specs.meaning.Reports.{report_of};
    ghost use Rattle.dsr_ledger.specs.inner.BooksWords.{AreClosed};
    ghost use Rattle.dsr_ledger.specs.inner.View.{IsReady, IsViewOf};

    /// Closes the books of the files: makes the parts of the report other than the lines of the ledger.
    pub(crate) fn of(alloc: Global, kept: Kept) -> Result<ClosedBooks, NoMemory>
        requires reached { ∥ IsReached kept ∥₁ }
        requires few { length kept.files.items ≤ most_files }
        ensures { (files : List File) → Stands kept files
            → IfOk result (λ books. AreClosed books files) }
    {
        let Kept { files, ledger } = kept;
        let mut report = found_in(alloc, files.as_slice())?;
        report.rejects = rejects_of(alloc, files)?;
        Ok(ClosedBooks {
            alloc,
            report,
            ledger,
        })
    }

    /// The report of the files. The texts of its ledger are those of the books.
    ///
    /// # Errors
    ///
    /// `NoMemory`: out of memory for making the lines of the ledger.
    pub fn report(&self) -> Result<ReportView<'_>, NoMemory>
        ensures ready { IfOk result (λ r. IfSome r.ledger IsReady) }
        ensures report { (files : List File) → AreClosed self.now files
            → IfOk result (λ r. IsViewOf r (report_of files)) }
    {
        Ok(ReportView {
            report: &self.report,
            ledger: Some(LedgerView::of(self.alloc, &self.ledger)?),
        })
    }

    /// The same report, with copies of the texts of its ledger.
    ///
    /// # Errors
    ///
    /// `NoMemory`: out of memory; the books are dropped.
    pub fn into_report(self) -> Result<Report, NoMemory>
        ensures { (files : List File) → AreClosed self files
            → IfOk result (λ r. r ≡ report_of files) }
    {
        let lines = copied_lines(self.alloc, &self.ledger)?;
        let ClosedBooks {
            alloc: _,
            mut report,
            ledger: _,
        } = self;
        report.ledger = lines;
        Ok(report)
    }
}
