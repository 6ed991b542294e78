//! What holds for every rule text.

ghost use Rattle.std.specs.Prelude.{◌≡◌, ◌⊎◌, ℕ};
ghost use Rattle.text_model.specs.Texts.{Text};
ghost use Rattle.rule_parser.specs.Rules.{RuleSet};
ghost use Rattle.rule_parser.specs.Grammar.{IsRuleText};
ghost use Rattle.rule_parser.specs.Faults.{IsRefused};
ghost use Rattle.rule_parser.specs.declared.error.RuleErrorKind.{RuleErrorKind};

use uri_grammar::laws::{
    one_first_fault as one_template_fault, one_tree, tree_or_fault, tree_without_fault,
};

/// A rule text has at most one set of rules.
pub fn one_rule_set()
    ensures { (bytes : Text) (rules others : RuleSet) → IsRuleText bytes rules → IsRuleText bytes others
        → rules ≡ others }
{
    one_tree();
}

/// Bytes that have rules have no error.
pub fn rules_without_fault()
    ensures { (bytes : Text) (rules : RuleSet) (kind : RuleErrorKind) (line : ℕ) → IsRuleText bytes rules
        → IsRefused bytes kind line → ⊥ }
{
    one_tree();
    tree_without_fault();
}

/// Bytes have rules or a first error.
pub fn rules_or_fault()
    ensures { (bytes : Text) → ((rules : RuleSet) × IsRuleText bytes rules)
        ⊎ ((kind : RuleErrorKind) × (line : ℕ) × IsRefused bytes kind line) }
{
    tree_or_fault();
}

/// Bytes have at most one first error.
pub fn one_first_fault()
    ensures { (bytes : Text) (kind other : RuleErrorKind) (line place : ℕ) → IsRefused bytes kind line
        → IsRefused bytes other place → (kind ≡ other) × (line ≡ place) }
{
    one_tree();
    tree_without_fault();
    one_template_fault();
}
