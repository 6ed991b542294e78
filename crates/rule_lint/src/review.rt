//! All findings about a target's rules.

ghost use Rattle.std.specs.Prelude.{◌≡◌, IfOk, string_bytes};
ghost use Rattle.rule_lint.specs.Findings.{lint_text, has_rule_warning};

use crate::check::check_rules;
use crate::columns::columns_of;
use crate::lines::push_rule_count;
use crate::names::template_columns;
use crate::starts::{multiplier_of, starts_of};
use crate::target::Target;
use kbart_rows::Table;
use printed_text::Findings;
use rule_parser::Rules;
use std::alloc::{AllocError, Global};

/// What is doubtful in the rules of a target with this table, one line for each finding; rules, and the guards of a
/// rule, are counted from 1. `warned` says whether a line is a warning. All lines are warnings except the number of
/// rules (unless it is 0) and links that are never web links.
///
/// `AllocError` if an allocation failed.
pub fn lint(alloc: Global, rules: &Rules, table: &Table) -> Result<Findings, AllocError>
    ensures text { IfOk result (λ findings. string_bytes findings.text ≡ lint_text rules.now table.now) }
    ensures warned { IfOk result (λ findings. findings.warned ≡ has_rule_warning rules.now table.now) }
{
    let template_columns = template_columns(alloc, table)?;
    let keys = table.keys();
    let multiplier = multiplier_of(keys);
    let lists = rules.lists(alloc)?;
    let target = Target {
        rules,
        table,
        columns: columns_of(alloc, table)?,
        multiplier,
        list_starts: starts_of(alloc, &lists, keys, multiplier)?,
        lists,
        column_starts: starts_of(alloc, &template_columns, keys, multiplier)?,
        template_columns,
    };
    let mut findings = Findings {
        text: String::new(alloc),
        warned: rules.rules().is_empty(),
    };
    push_rule_count(&mut findings.text, rules.rules().len())?;
    check_rules(alloc, &mut findings, &target, rules.rules())?;
    Ok(findings)
}
