//! Laws of lines and of statements: functions that do nothing, whose contracts are the laws.
ghost use Rattle.std.specs.Prelude.{◌≡◌, ℕ, [], ◌∷◌, ◌++◌, length, reverse, Bool, true, List, Option, None, Result, Ok, Err};
ghost use Rattle.dsr_ledger.specs.declared.report.Report.{Report};
ghost use Rattle.dsr_ledger.specs.declared.report.ReportKey.{ReportKey};
ghost use Rattle.dsr_statement.specs.declared.line.Line.{Line};
ghost use Rattle.dsr_statement.specs.declared.fault.StatementFault.TheVariants as faults;
ghost use Rattle.dsr_statement.specs.meaning.Readings.{IsReadingOf, Refusal, Spells, refused_after};
ghost use Rattle.dsr_statement.specs.layer.Readings.{IsReading};
ghost use Rattle.dsr_statement.specs.meaning.Statement.{statement_lines, statement_of, text_of};
ghost use Rattle.dsr_statement.specs.layer.Statements.{AreInPlace, IsReadable, IsSealed, IsStatement};
ghost use Rattle.dsr_statement.specs.meaning.Digests.{Digest};
ghost use Rattle.dsr_statement.specs.meaning.Order.{is_sealed};
ghost use Rattle.dsr_statement.specs.layer.Seals.{AreDigestsOf, sealed_lines};
ghost use Rattle.dsr_statement.specs.meaning.Status.{status_of, status_of_lines};
ghost use Rattle.dsr_statement.specs.declared.verdict.Status.{Status};

/// A text is that of one line at most.
pub fn one_line()
    ensures { (text : List ℕ) (one other : Line) → Spells text one → Spells text other → one ≡ other }
{}

/// A text is read in one way.
#[tactic(auto, using(crate::proofs::OneReading::one_reading))]
pub fn one_reading()
    ensures { (text : List ℕ) (failed : Bool) (one other : Result (List Line) Refusal)
        → IsReadingOf text failed one → IsReadingOf text failed other → one ≡ other }
{}

/// What is read was written so: if a text is read, it is the text of the lines that were read.
#[tactic(auto, using(crate::proofs::ReadLines::was_written_so))]
pub fn was_written_so()
    ensures { (text : List ℕ) (failed : Bool) (lines : List Line)
        → IsReadingOf text failed (Ok lines) → text ≡ text_of lines }
{}

/// The lines that are read are in their places, and the amounts of each ledger line add up.
#[tactic(auto, using(crate::proofs::ReadLines::are_in_place))]
pub fn are_in_place()
    ensures { (text : List ℕ) (failed : Bool) (lines : List Line)
        → IsReadingOf text failed (Ok lines) → AreInPlace [] lines }
{}

/// Reading inverts writing: the lines of a statement are read from their text.
#[tactic(auto, using(crate::proofs::AgainTexts::is_read_again))]
pub fn is_read_again()
    ensures { (lines : List Line) → IsStatement lines → IsReading (text_of lines) (Ok lines) }
{}

/// Reading inverts writing: the lines of a readable report are read from its statement.
pub fn report_is_read_again()
    ensures { (key : ReportKey) (report : Report) → IsReadable key report
        → IsReading (statement_of report) (Ok (statement_lines report)) }
{}

/// The statement of a report without a key is refused at its first line.
#[tactic(auto, using(crate::proofs::ReportAgain::without_report))]
pub fn no_report_is_refused()
    ensures { (report : Report) → report.key ≡ None
        → IsReading (statement_of report) (Err (refused_after [] faults.NoReport)) }
{}

/// Two readable reports with one statement have one ledger.
pub fn one_ledger()
    ensures { (first_key last_key : ReportKey) (first last : Report)
        → IsReadable first_key first → IsReadable last_key last
        → statement_of first ≡ statement_of last → first.ledger ≡ last.ledger }
{}

/// The sealed statement of a readable report is a sealed statement: so its lines are read from their text.
pub fn sealed_report_is_read_again()
    ensures sealed { (key : ReportKey) (report : Report) (layout : Option Digest) (inputs : List Digest)
        → IsReadable key report → AreDigestsOf layout inputs report → IsSealed (sealed_lines layout inputs report) }
    ensures again { (key : ReportKey) (report : Report) (layout : Option Digest) (inputs : List Digest)
        → IsReadable key report → AreDigestsOf layout inputs report
        → IsReading (text_of (sealed_lines layout inputs report)) (Ok (sealed_lines layout inputs report)) }
{}

/// The status of a report is that of the lines of its statement.
#[tactic(auto, using(crate::proofs::RemarkLines::report_status))]
pub fn status_is_that_of_the_lines()
    ensures { (report : Report) → status_of_lines (statement_lines report) ≡ status_of report }
{}

/// END has the number of the lines before it, and their status.
#[tactic(auto, using(crate::proofs::Sealed::end_counts))]
pub fn end_counts_the_lines()
    ensures { (lines : List Line) (count : ℕ) (status : Status) → IsSealed (lines ++ Line.End count status ∷ [])
        → (count ≡ length lines) × (status ≡ status_of_lines lines) }
{}

/// No proper prefix of the lines of a sealed statement is a sealed statement.
#[tactic(auto, using(crate::proofs::Sealed::no_prefix))]
pub fn no_prefix_is_sealed()
    ensures { (lines more : List Line) → IsSealed lines → IsSealed (lines ++ more) → more ≡ [] }
{}

/// Of two lists of which one has more lines, between the same others or behind them, not both are sealed statements: none is
/// with a line taken away, doubled or added.
#[tactic(auto, using(crate::proofs::Sealed::no_more_lines))]
pub fn no_line_less_or_more_is_sealed()
    ensures { (before more after : List Line) → IsSealed (before ++ after)
        → IsSealed (before ++ (more ++ after)) → more ≡ [] }
{}

/// Nothing may follow the text of a sealed statement: of a text that is read, no proper prefix is read as a sealed statement.
#[tactic(auto, using(crate::proofs::SealedTexts::nothing_follows))]
pub fn no_prefix_of_a_text_is_sealed()
    ensures { (text more : List ℕ) (lines all : List Line) → IsReading text (Ok lines)
        → is_sealed (reverse lines) ≡ true → IsReading (text ++ more) (Ok all) → more ≡ [] }
{}
