//! The text of a row.

ghost use Rattle.std.specs.Prelude.{◌≡◌, ◌++◌, ◌<◌, IfOk, OnOk, length, string_bytes};
ghost use Rattle.std.specs.List.{find};
ghost use Rattle.std.specs.Option.{option_map};
ghost use Rattle.uri_template.specs.Expansion.{expansion};
ghost use Rattle.rule_parser.specs.Meaning.{guards_hold};
ghost use Rattle.rule_explanation.specs.Rows.{environment_of_row, gives_web_link, is_web};
ghost use Rattle.rule_explanation.specs.Explanation as printed;

use crate::failing::push_failing_rules;
use crate::holding::push_holding_rule;
use crate::rules_request::RulesRequest;
use rule_parser::Rule;
use std::alloc::{AllocError, Global};
use uri_template::Variables;

/// The text that is printed for a row, and whether the row has a web link.
#[derive(Drop)]
pub(crate) struct ExplainedRow {
    pub(crate) text: String,
    pub(crate) has_web_link: bool,
}

/// Appends what the rules give, with the rules that fail or without them. Returns whether there is a web link.
fn push_rules<V: Variables>(
    alloc: Global,
    out: &mut String,
    variables: &V,
    rules: &[Rule],
    is_detailed: bool,
) -> Result<bool, AllocError>
    ensures bytes { OnOk result (string_bytes out.new
        ≡ string_bytes out.old ++ printed.rule_lines (V.look variables.now) rules.now is_detailed) }
    ensures web { IfOk result (λ found. found ≡ is_web (option_map
        (λ rule. expansion (V.look variables.now) rule.template.parts)
        (find (guards_hold (V.look variables.now)) rules.now))) }
{
    if !is_detailed {
        return push_holding_rule(alloc, out, variables, rules);
    }
    push_failing_rules(alloc, out, variables, rules)?;
    push_holding_rule(alloc, out, variables, rules)
}

/// What the rules give on a row of the table; with the rules that fail, or without them.
pub(crate) fn explain_row(
    alloc: Global,
    request: &RulesRequest,
    row: usize,
    is_detailed: bool,
) -> Result<ExplainedRow, AllocError>
    requires { row < length request.now.table.rows }
    ensures text { IfOk result (λ explained. string_bytes explained.text
        ≡ printed.row_text request.now.rules
        (environment_of_row request.now.rules request.now.table request.now.pairs row) is_detailed row) }
    ensures web { IfOk result (λ explained. explained.has_web_link
        ≡ gives_web_link request.now.rules request.now.table request.now.pairs row) }
{
    let view = request.row(alloc, row)?;
    let mut text = format!(in alloc; "row {row}\n")?;
    let has_web_link = push_rules(alloc, &mut text, &view, request.rules.rules(), is_detailed)?;
    Ok(ExplainedRow { text, has_web_link })
}
