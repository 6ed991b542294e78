//! Laws of the code of rules. These functions have empty bodies; each contract is a theorem.

ghost use Rattle.std.specs.Prelude.{◌≡◌, ◌↔◌, All};
ghost use Rattle.environment_model.specs.Environment.{Environment};
ghost use Rattle.environment_model.specs.Lists.{is_list};
ghost use Rattle.code_model.specs.Code.{Name};
ghost use Rattle.machine_model.specs.Form.{HasGoodForm};
ghost use Rattle.machine_model.specs.Runs.{Outcome, HasOutcome};
ghost use Rattle.machine_model.specs.Safe.{IsFileCode, IsSafe};
ghost use Rattle.machine_model.specs.Typable.{IsTypable};
ghost use Rattle.uri_grammar.specs.Names.{IsName};
ghost use Rattle.rule_parser.specs.Rules.{RuleSet, IsSound};
ghost use Rattle.rule_parser.specs.Meaning.{meaning};
ghost use Rattle.compiler_model.specs.Compiled.{code_of};
ghost use Rattle.compiler_model.specs.Answer.{answer};

use machine_laws::{course_is_decided, typable_code_is_safe};
use uri_grammar::laws::trees_are_sound;

/// On every environment the code of rules ends with the link of the first rule whose guards all hold, or with no link
/// if there is no such rule. It ends with nothing else, and never gets stuck.
pub fn code_gives_what_rules_mean()
    ensures { (rules : RuleSet) → IsSound rules → (v : Environment) (o : Outcome) →
        HasOutcome (code_of rules) v o ↔ (answer (meaning rules v) ≡ o) }
{
    trees_are_sound();
    course_is_decided();
}

/// The code of rules can be a code file: it has an instruction, its names are names of the grammar, and its link texts
/// are URI text. Each name has the kind that the rules declare. The code has good form, and there is a table of kinds
/// for it. So it is accepted, and safe.
pub fn compiled_code_is_accepted()
    ensures names { (rules : RuleSet) → IsSound rules → All (λ (name : Name). IsName name.text) (code_of rules).names }
    ensures declared { (rules : RuleSet) → IsSound rules
        → All (λ (name : Name). is_list rules.lists name.text ≡ name.list) (code_of rules).names }
    ensures file { (rules : RuleSet) → IsSound rules → IsFileCode (code_of rules) }
    ensures form { (rules : RuleSet) → IsSound rules → HasGoodForm (code_of rules) }
    ensures kinds { (rules : RuleSet) → IsSound rules → IsTypable (code_of rules) }
    ensures safe { (rules : RuleSet) → IsSound rules → IsSafe (code_of rules) }
{
    trees_are_sound();
    typable_code_is_safe();
}
