//! The lines of rules.

ghost use Rattle.std.specs.Prelude.{◌≡◌, IfOk, map};
ghost use Rattle.compiler_model.specs.Compiled.{rule_lines as lines_of_rule};
ghost use Rattle.compiler.specs.Private.RuleLines.{lines_in};

use crate::guards::push_guards;
use crate::pieces::push_parts;
use compiler_model::Line;
use rule_parser::{Rule, Rules};
use std::alloc::{AllocError, Global};

/// The lines of a rule: its guards, its template, HALT.
fn rule_lines(alloc: Global, rules: &Rules, rule: &Rule) -> Result<Vec<Line>, AllocError>
    ensures { IfOk result (λ lines. lines.items ≡ lines_of_rule rules.now.lists rule.now) }
{
    let mut lines = Vec::new(alloc);
    push_guards(alloc, &mut lines, rules, rule.guards.as_slice())?;
    push_parts(alloc, &mut lines, rules, rule.template.parts())?;
    lines.push(Line::Halts)?;
    Ok(lines)
}

/// The lines of each rule.
pub(crate) fn lines_of_rules(alloc: Global, rules: &Rules) -> Result<Vec<Vec<Line>>, AllocError>
    ensures { IfOk result (λ all. lines_in all.items ≡ map (lines_of_rule rules.now.lists) rules.now.rules) }
{
    let mut all = Vec::new(alloc);
    let given = rules.rules();
    for rule in given {
        all.push(rule_lines(alloc, rules, rule)?)?;
    }
    Ok(all)
}
