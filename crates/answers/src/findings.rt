//! The findings in a holdings table, and in the rules of a target.

ghost use Rattle.answers.specs.Findings.{IsInspectionOf, IsLintOf};
ghost use Rattle.answers.specs.Results.{report_result};

use crate::reading::table_of;
use crate::refusal::Refusal;
use kbart_rows::Keys;
use printed_text::Findings;
use rule_lint::lint;
use rule_parser::Rules;
use std::alloc::Global;
use table_inspection::inspect;

/// The findings in the holdings table of a file. The keys are those of the table's hashed look-ups.
pub fn inspection_of(alloc: Global, bytes: &[u8], keys: Keys) -> Result<Findings, Refusal>
    ensures { IsInspectionOf bytes.now keys (report_result result) }
{
    let findings = inspect(alloc, &table_of(alloc, bytes, keys)?);
    Ok(findings?)
}

/// The findings in the rules and the holdings table of a target. The keys are those of the table's hashed look-ups.
pub fn lint_of(alloc: Global, rules: &Rules, bytes: &[u8], keys: Keys) -> Result<Findings, Refusal>
    ensures { IsLintOf rules.now bytes.now keys (report_result result) }
{
    let findings = lint(alloc, rules, &table_of(alloc, bytes, keys)?);
    Ok(findings?)
}
