//! What an explanation says about rules. These functions have empty bodies; each contract is a theorem.

ghost use Rattle.std.specs.Prelude.{◌≡◌, ◌↔◌, ◌∷◌, ◌++◌, ℕ, List, [], All, MatchOption, None};
ghost use Rattle.std.specs.Prelude.{codes, false, is_some, true};
ghost use Rattle.environment_model.specs.Environment.{Environment, LookUp};
ghost use Rattle.kev_read.specs.Pairs.{KeyValue};
ghost use Rattle.kbart_rows.specs.Cells.{Holdings};
ghost use Rattle.kbart_rows.specs.Identifiers.{ids_of, matching_rows};
ghost use Rattle.rule_parser.specs.declared.rule.Rule.{Rule};
ghost use Rattle.rule_parser.specs.Rules.{RuleSet};
ghost use Rattle.rule_parser.specs.Meaning.{meaning, seen};
ghost use Rattle.rule_explanation.specs.Failing.{failing_guard, failing_rules, holding_rule};
ghost use Rattle.rule_explanation.specs.Explanation.{holding_lines, link_lines};
ghost use Rattle.rule_explanation.specs.Rows.{gives_web_link, has_web_link, tried_rows};

/// The link of the rule that is printed as holding is what the rules mean, and `no rule holds` is printed exactly if
/// the rules give no link.
pub fn printed_rule_gives_the_meaning()
    ensures printed { (rules : RuleSet) (env : Environment) → MatchOption (meaning rules env)
        (holding_lines (seen rules env) (holding_rule (seen rules env) rules.rules) ≡ codes "  no rule holds\n")
        (λ link. (place : ℕ)
        × (holding_lines (seen rules env) (holding_rule (seen rules env) rules.rules) ≡ link_lines place link)) }
    ensures none { (rules : RuleSet) (env : Environment)
        → (holding_rule (seen rules env) rules.rules ≡ None) ↔ (meaning rules env ≡ None) }
{}

/// Each rule that is printed as failing has a guard that does not hold, which is printed.
pub fn printed_rules_fail()
    ensures { (look : LookUp) (rules : List Rule)
        → All (λ rule. is_some (failing_guard look rule.1.guards) ≡ true) (failing_rules look rules) }
{}

/// A matching row has a web link exactly if the last row that is tried has one. No row is tried after it; if there is
/// none, all matching rows are tried.
pub fn last_row_has_the_web_link()
    ensures last { (rules : RuleSet) (table : Holdings) (pairs : List KeyValue)
        → (has_web_link rules table pairs ≡ true)
        ↔ ((before : List ℕ) × (row : ℕ) × (tried_rows rules table pairs ≡ before ++ row ∷ [])
        × (gives_web_link rules table pairs row ≡ true)) }
    ensures stops { (rules : RuleSet) (table : Holdings) (pairs : List KeyValue) (before after : List ℕ) (row : ℕ)
        → tried_rows rules table pairs ≡ before ++ row ∷ after
        → gives_web_link rules table pairs row ≡ true → after ≡ [] }
    ensures all { (rules : RuleSet) (table : Holdings) (pairs : List KeyValue)
        → has_web_link rules table pairs ≡ false
        → tried_rows rules table pairs ≡ matching_rows table (ids_of pairs) }
{}
