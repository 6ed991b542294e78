//! What holds for rules and the files of their code. These functions have empty bodies; each contract is a theorem.

ghost use Rattle.std.specs.Prelude.{◌≡◌, ◌↔◌};
ghost use Rattle.text_model.specs.Texts.{Text};
ghost use Rattle.environment_model.specs.Environment.{Environment};
ghost use Rattle.code_model.specs.Code.{Code};
ghost use Rattle.code_file.specs.Grammar.{IsCodeFile};
ghost use Rattle.machine_model.specs.Runs.{Outcome, HasOutcome};
ghost use Rattle.rule_parser.specs.Rules.{RuleSet, IsSound};
ghost use Rattle.rule_parser.specs.Meaning.{meaning};
ghost use Rattle.compiler_model.specs.Compiled.{code_of};
ghost use Rattle.compiler_model.specs.Answer.{answer};
ghost use Rattle.verifier.specs.Accepted.{IsAcceptedFile};

use code_file::laws::file_has_one_code;
use compiler_model::laws::{code_gives_what_rules_mean, compiled_code_is_accepted};
use verifier::laws::accepted_file_has_no_fault;

/// The verifier accepts the file of the code of rules: it can only run out of memory. The code that is read from the
/// file gives what the rules mean on every environment: the link of the first rule whose guards all hold, or no link if
/// there is no such rule.
pub fn files_of_rules_are_accepted()
    ensures accepted { (rules : RuleSet) (bytes : Text) →
        IsSound rules → IsCodeFile bytes (code_of rules) → IsAcceptedFile bytes (code_of rules) }
    ensures means { (rules : RuleSet) (bytes : Text) (read : Code) (v : Environment) (o : Outcome) →
        IsSound rules → IsCodeFile bytes (code_of rules) → IsCodeFile bytes read →
        HasOutcome read v o ↔ (answer (meaning rules v) ≡ o) }
{
    file_has_one_code();
    accepted_file_has_no_fault();
    compiled_code_is_accepted();
    code_gives_what_rules_mean();
}
