//! Rules, run by their code.

ghost use Rattle.std.specs.Prelude.{IfOk, IfErr};
ghost use Rattle.verified_runs.specs.RunValue.{outcome_value};
ghost use Rattle.end_to_end.specs.Ending.{RulesEndSafely, RuleFileEndsSafely};
ghost use Rattle.end_to_end.specs.Causes.{IsRulesCause, IsRuleFileCause};

use crate::error::{RuleFileError, RulesError};
use crate::laws::files_of_rules_are_accepted;
use code_file::laws::file_has_one_code;
use compiler::compile;
use rule_parser::Rules;
use safe_runs::run_file;
use std::alloc::Global;
use target_vars::Env;
use verified_runs::Outcome;

/// Compiles rules, writes their code as a file, and verifies and runs that file on an environment. The outcome is what
/// the rules mean: the link of the first rule whose guards all hold, which is the expansion of its template, or no link
/// if there is no such rule.
///
/// The errors come before the first step of the run, in this order:
/// - `Compile`: the first limit that the code exceeds (256 names, 1,024 literals, 4,096 instructions, 65,536 bytes of
///   file), or `NoMemory` while the code is made.
/// - `NoMemory`: memory runs out while the file is written.
/// - `Run`: `OverBudget`, with the bound on output bytes, if that is over 1,048,576; or `NoMemory`, while the file is
///   loaded, or while a run within that limit is prepared. The verifier never rejects the file for an error.
pub fn run_rules(alloc: Global, rules: &Rules, env: &Env) -> Result<Outcome, RulesError>
    ensures ends { IfOk result (λ outcome. RulesEndSafely rules.now env.now (outcome_value outcome)) }
    ensures refused { IfErr result (IsRulesCause rules.now env.now) }
{
    files_of_rules_are_accepted();
    file_has_one_code();
    let _known = rules.rules();
    let code = compile(alloc, rules)?;
    let file = code.write(alloc)?;
    Ok(run_file(alloc, &file, env)?)
}

/// Parses a rule file of at most 65,536 bytes, and runs its rules as [`run_rules`] does.
///
/// `Parse` has the first error of bytes that are not a rule file, and its line, from 1, or 0 if the error belongs to no
/// line; or it says that memory ran out, which is never reported for bytes that are too many or not UTF-8. `Run` says
/// why the rules of the file are not run.
pub fn run_rule_file(alloc: Global, bytes: &[u8], env: &Env) -> Result<Outcome, RuleFileError>
    ensures ends { IfOk result (λ outcome. RuleFileEndsSafely bytes.now env.now (outcome_value outcome)) }
    ensures refused { IfErr result (IsRuleFileCause bytes.now env.now) }
{
    let rules = Rules::parse(alloc, bytes)?;
    Ok(run_rules(alloc, &rules, env)?)
}
