//! The rules that do not hold.

ghost use Rattle.std.specs.Prelude.{◌≡◌, ◌++◌, not, OnOk, position, string_bytes};
ghost use Rattle.std.specs.List.{flat_map};
ghost use Rattle.printed_text.specs.Printed.{visible};
ghost use Rattle.rule_parser.specs.Meaning.{guard_holds};
ghost use Rattle.rule_parser.specs.Statements.{guard_text};
ghost use Rattle.rule_explanation.specs.Failing.{numbered};
ghost use Rattle.rule_explanation.specs.Explanation.{failing_lines, failing_rule_lines, guard_lines};

use crate::holding::first_holding;
use crate::names::push_names;
use printed_text::push_visible;
use rule_parser::{Guard, Rule, holds, push_guard};
use std::alloc::{AllocError, Global};
use uri_template::Variables;

/// Appends the guard's line without `when `, in visible characters.
fn push_visible_guard(alloc: Global, out: &mut String, guard: &Guard) -> Result<(), AllocError>
    ensures { OnOk result (string_bytes out.new ≡ string_bytes out.old ++ visible (guard_text guard.now)) }
{
    let mut line = String::new(alloc);
    push_guard(&mut line, guard)?;
    push_visible(out, line.as_bytes())
}

/// Appends a guard that fails, with its number and that of its rule, and the values of its names.
fn push_failing_guard<V: Variables>(
    alloc: Global,
    out: &mut String,
    variables: &V,
    rule: usize,
    place: usize,
    guard: &Guard,
) -> Result<(), AllocError>
    ensures { OnOk result (string_bytes out.new ≡ string_bytes out.old
        ++ guard_lines (V.look variables.now) rule (place, guard.now)) }
{
    write!(out, "  rule {rule}, guard {place} fails: ")?;
    push_visible_guard(alloc, out, guard)?;
    out.push_str("\n")?;
    let names = guard.names(alloc)?;
    push_names(out, variables, names.as_slice())
}

/// The index of the first guard that fails.
fn first_failing<V: Variables>(variables: &V, guards: &[Guard]) -> Option<usize>
    ensures { result ≡ position (λ guard. not (guard_holds (V.look variables.now) guard)) guards.now }
{
    guards.iter().position(|guard| !holds(variables, guard))
}

/// Appends the first guard of a rule that fails, with the number of the rule.
fn push_failing_rule<V: Variables>(
    alloc: Global,
    out: &mut String,
    variables: &V,
    place: usize,
    rule: &Rule,
) -> Result<(), AllocError>
    ensures { OnOk result (string_bytes out.new ≡ string_bytes out.old
        ++ failing_rule_lines (V.look variables.now) (place, rule.now)) }
{
    let guards = rule.guards.as_slice();
    match first_failing(variables, guards) {
        Some(i) => push_failing_guard(alloc, out, variables, place, i + 1, &guards[i]),
        None => Ok(()),
    }
}

/// Appends the first guard that fails for each rule.
fn push_numbered_rules<V: Variables>(
    alloc: Global,
    out: &mut String,
    variables: &V,
    rules: &[Rule],
) -> Result<(), AllocError>
    ensures { OnOk result (string_bytes out.new ≡ string_bytes out.old
        ++ flat_map (failing_rule_lines (V.look variables.now)) (numbered rules.now)) }
{
    for (i, rule) in rules.iter().enumerate() {
        push_failing_rule(alloc, out, variables, i + 1, rule)?;
    }
    Ok(())
}

/// Appends the rules before the first that holds.
pub(crate) fn push_failing_rules<V: Variables>(
    alloc: Global,
    out: &mut String,
    variables: &V,
    rules: &[Rule],
) -> Result<(), AllocError>
    ensures { OnOk result
        (string_bytes out.new ≡ string_bytes out.old ++ failing_lines (V.look variables.now) rules.now) }
{
    match first_holding(variables, rules) {
        Some(i) => {
            let parts = rules.split_at(i);
            push_numbered_rules(alloc, out, variables, parts.0)
        }
        None => push_numbered_rules(alloc, out, variables, rules),
    }
}
