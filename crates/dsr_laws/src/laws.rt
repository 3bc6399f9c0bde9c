//! Laws of the statement of a run: functions that do nothing, whose contracts are the laws.
ghost use Rattle.std.specs.Prelude.{◌≡◌, ℕ, List, length, Option, Some, None};
ghost use Rattle.dsr_file.specs.meaning.Runs.{FileText};
ghost use Rattle.dsr_intake.specs.declared.options.Options.{Options};
ghost use Rattle.dsr_intake.specs.meaning.Outcomes.{IsReported};
ghost use Rattle.dsr_intake.specs.meaning.Texts.{refusal_of, report_of_texts};
ghost use Rattle.dsr_io.specs.meaning.Written.{Written};
ghost use Rattle.dsr_laws.specs.layer.Again.{AreRunTexts, AreSealable, IsReadSealed, IsWrittenAgain, reading_of_report};
ghost use Rattle.dsr_ledger.specs.declared.report.ReportKey.{ReportKey};
ghost use Rattle.dsr_records.specs.meaning.Records.{LayoutTable};
ghost use Rattle.dsr_statement.specs.declared.verdict.Status.{Status};
ghost use Rattle.dsr_statement.specs.layer.Readings.{IsReading};
ghost use Rattle.dsr_statement.specs.layer.Statements.{IsReadable};
ghost use Rattle.dsr_statement.specs.meaning.Statement.{statement_of};

use dsr_file::Source;

/// The report of the texts of a run is readable, if a file has an opening: its lists are in order, its numbers are in their
/// ranges, its texts are spelled as a statement prints them, and the amounts of each ledger line add up.
pub fn reports_are_readable()
    ensures { (layout : LayoutTable) (texts : List FileText) (key : ReportKey) → AreRunTexts texts
        → (report_of_texts layout texts).key ≡ Some key → IsReadable key (report_of_texts layout texts) }
{}

/// The statement of the texts of a run is read again as its lines; if no file has an opening, it is refused at its first line.
#[tactic(auto, using(crate::proofs::Given::texts_again))]
pub fn statements_are_read_again()
    ensures { (layout : LayoutTable) (texts : List FileText) → AreRunTexts texts
        → IsReading (statement_of (report_of_texts layout texts)) (reading_of_report (report_of_texts layout texts)) }
{}

/// What a run wrote, if it answered Ok, is read again as the lines of the report of the texts that its readers gave, and its
/// status is that of these lines; if no file has an opening, it is refused at its first line.
pub fn what_a_run_wrote_is_read_again<R: Source>()
    ensures { (options : Options) (readers left : List R) (before after : Written) (texts : List FileText) (status : Status)
        → refusal_of (length readers) options ≡ None → IsReported R.told options readers left before after texts status
        → IsWrittenAgain (report_of_texts options.layout texts) before after status }
{}

/// The statement of the texts of a run, with the seal of the bytes of its files, is a sealed statement, and is read as its
/// lines.
pub fn sealed_statements_are_read_again()
    ensures { (layout : LayoutTable) (texts : List FileText) (key : ReportKey) (own : Option (List ℕ)) (given : List (List ℕ))
        → AreRunTexts texts → let report = report_of_texts layout texts in report.key ≡ Some key
        → AreSealable own given report → IsReadSealed own given report }
{}
