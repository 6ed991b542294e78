//! The rule that holds.

ghost use Rattle.std.specs.Prelude.{◌≡◌, ◌++◌, ◌<◌, IfOk, OnOk, position, string_bytes};
ghost use Rattle.std.specs.List.{find, list_all};
ghost use Rattle.std.specs.Option.{option_map};
ghost use Rattle.uri_template.specs.Expansion.{expansion};
ghost use Rattle.rule_parser.specs.Meaning.{guard_holds, guards_hold};
ghost use Rattle.menu.specs.WebLink.{is_web_link as begins_as_web_link};
ghost use Rattle.rule_explanation.specs.Rows.{is_web};
ghost use Rattle.rule_explanation.specs.Failing.{holding_rule};
ghost use Rattle.rule_explanation.specs.Explanation.{holding_lines, link_lines};

use menu::is_web_link;
use rule_parser::{Guard, Rule, holds};
use std::alloc::{AllocError, Global};
use uri_template::{Variables, expand_in};

fn all_hold<V: Variables>(variables: &V, guards: &[Guard]) -> bool
    ensures { result ≡ list_all (guard_holds (V.look variables.now)) guards.now }
{
    guards.iter().all(|guard| holds(variables, guard))
}

/// The index of the first rule that holds.
pub(crate) fn first_holding<V: Variables>(variables: &V, rules: &[Rule]) -> Option<usize>
    ensures { result ≡ position (guards_hold (V.look variables.now)) rules.now }
{
    rules
        .iter()
        .position(|rule| all_hold(variables, rule.guards.as_slice()))
}

/// Appends a rule that holds, with its number and its link. Returns whether this is a web link.
fn push_link<V: Variables>(
    alloc: Global,
    out: &mut String,
    variables: &V,
    place: usize,
    rule: &Rule,
) -> Result<bool, AllocError>
    ensures bytes { OnOk result (string_bytes out.new ≡ string_bytes out.old
        ++ link_lines place (expansion (V.look variables.now) rule.now.template.parts)) }
    ensures web { IfOk result (λ found. found
        ≡ begins_as_web_link (expansion (V.look variables.now) rule.now.template.parts)) }
{
    let link = expand_in(alloc, &rule.template, variables)?;
    let link = link.as_str();
    write!(out, "  rule {place} holds: {link}\n")?;
    if is_web_link(link) {
        return Ok(true);
    }
    out.push_str("  not a web link\n")?;
    Ok(false)
}

/// Appends the rule that holds. Returns whether there is one with a web link.
pub(crate) fn push_holding_rule<V: Variables>(
    alloc: Global,
    out: &mut String,
    variables: &V,
    rules: &[Rule],
) -> Result<bool, AllocError>
    ensures bytes { OnOk result (string_bytes out.new ≡ string_bytes out.old
        ++ holding_lines (V.look variables.now) (holding_rule (V.look variables.now) rules.now)) }
    ensures web { IfOk result (λ found. found ≡ is_web (option_map
        (λ rule. expansion (V.look variables.now) rule.template.parts)
        (find (guards_hold (V.look variables.now)) rules.now))) }
{
    match first_holding(variables, rules) {
        Some(i) => push_link(alloc, out, variables, i + 1, &rules[i]),
        None => {
            out.push_str("  no rule holds\n")?;
            Ok(false)
        }
    }
}
