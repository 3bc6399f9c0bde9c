//! The reports of the statements that were read, and which statements are refused for those before them.
ghost use Rattle.std.specs.Prelude.{◌≡◌, ◌∷◌, ◌++◌, [], OnOk, option_map};
ghost use Rattle.std.specs.List.{position};
ghost use Rattle.dsr_sums.specs.meaning.Statements.{is_of_message, is_of_report, is_same_report, has_report, fault_after, given_fault, role_eq};
ghost use Rattle.dsr_sums.specs.layer.Statements.{line_and_fault};

use crate::rules::Rules;
use dsr_cells::{NoMemory, Text};
use dsr_ledger::ReportKey;
use dsr_statement::StatementFault;

/// What a statement stands for.
#[derive(Clone, Copy, PartialEq, Eq)]
pub enum Role {
    /// Its amounts are owed.
    Given,
    /// Its amounts were paid: they are subtracted.
    Paid,
}

/// The report of a statement.
#[derive(Drop)]
pub(crate) struct StatementReport {
    /// What the statement stands for.
    pub(crate) role: Role,
    /// The report that it is of.
    pub(crate) key: ReportKey,
    /// The number of its first remark's line, if it has remarks.
    pub(crate) remark: Option<u64>,
}

/// Appends a report.
pub(crate) fn push_report(
    reports: &mut Vec<StatementReport>,
    report: StatementReport,
) -> Result<(), NoMemory>
    ensures { OnOk result (reports.new.items ≡ reports.old.items ++ report ∷ []) }
{
    reports.push(report)?;
    Ok(())
}

/// Whether two reports are the same.
fn is_same(one: &ReportKey, other: &ReportKey) -> bool
    ensures { result ≡ is_same_report one.now other.now }
{
    one.message_id == other.message_id
        && one.number_of_files == other.number_of_files
        && one.first_day == other.first_day
        && one.last_day == other.last_day
}

/// Whether two roles are the same.
pub(crate) fn is_role(one: Role, other: Role) -> bool
    ensures { result ≡ role_eq one other }
{
    one == other
}

/// Whether a statement has this role and this report.
fn is_of_report(role: Role, key: &ReportKey, report: &StatementReport) -> bool
    ensures { result ≡ is_of_report role key.now report.now }
{
    is_role(report.role, role) && is_same(key, &report.key)
}

/// Whether it is a given statement of this message.
fn is_of_message(message: &Text, report: &StatementReport) -> bool
    ensures { result ≡ is_of_message message.now report.now }
{
    is_role(report.role, Role::Given) && *message == report.key.message_id
}

/// Whether a statement with this role has this report.
pub(crate) fn has(role: Role, key: &ReportKey, reports: &[StatementReport]) -> bool
    ensures { result ≡ has_report role key.now reports.now }
{
    reports.iter().any(|report| is_of_report(role, key, report))
}

/// The place of the first statement with this role and this report.
fn place_of(role: Role, key: &ReportKey, reports: &[StatementReport]) -> Option<usize>
    ensures { result ≡ position (is_of_report role key.now) reports.now }
{
    reports
        .iter()
        .position(|report| is_of_report(role, key, report))
}

/// The place of the first given statement of this message.
fn place_of_message(message: &Text, reports: &[StatementReport]) -> Option<usize>
    ensures { result ≡ position (is_of_message message.now) reports.now }
{
    reports
        .iter()
        .position(|report| is_of_message(message, report))
}

/// The line and the fault of a statement after the earlier ones.
#[tactic(auto, unfolding(crate::specs::meaning::Statements::fault_after))]
pub(crate) fn refusal_after(
    rules: Rules,
    earlier: &[StatementReport],
    report: &StatementReport,
) -> Option<(u64, StatementFault)>
    ensures { result ≡ option_map line_and_fault (fault_after rules earlier.now report.now) }
{
    if let Some(place) = place_of(report.role, &report.key, earlier) {
        return Some((1, StatementFault::Twice(place)));
    }
    match report.role {
        Role::Given => given_refusal(rules, earlier, report),
        Role::Paid if has(Role::Given, &report.key, earlier) => None,
        Role::Paid => Some((1, StatementFault::NotGiven)),
    }
}

/// The line and the fault of a given statement whose report no earlier given one has.
fn given_refusal(
    rules: Rules,
    earlier: &[StatementReport],
    report: &StatementReport,
) -> Option<(u64, StatementFault)>
    ensures { result ≡ option_map line_and_fault (given_fault rules earlier.now report.now) }
{
    if !rules.same_message {
        if let Some(place) = place_of_message(&report.key.message_id, earlier) {
            return Some((1, StatementFault::SameMessage(place)));
        }
    }
    if rules.with_remarks {
        return None;
    }
    remark_refusal(report.remark)
}

/// The line and the fault of a statement whose first remark has this line.
fn remark_refusal(remark: Option<u64>) -> Option<(u64, StatementFault)>
    ensures { result ≡ option_map (λ n. (n, StatementFault.Remarks)) remark }
{
    match remark {
        Some(line) => Some((line, StatementFault::Remarks)),
        None => None,
    }
}
