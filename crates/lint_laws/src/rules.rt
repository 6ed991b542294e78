//! What follows from a finding about a rule, a guard or a link.

ghost use Rattle.std.specs.Prelude.{◌≡◌, ◌++◌, ◌∷◌, List, true, false, length};
ghost use Rattle.text_model.specs.Texts.{Text};
ghost use Rattle.environment_model.specs.Environment.{Environment, LookUp};
ghost use Rattle.uri_grammar.specs.declared.parts.Part.{Part};
ghost use Rattle.uri_template.specs.Expansion.{expansion};
ghost use Rattle.menu.specs.WebLink.{is_web_link};
ghost use Rattle.rule_parser.specs.declared.rule.Guard.{Guard};
ghost use Rattle.rule_parser.specs.declared.rule.Rule.{Rule};
ghost use Rattle.rule_parser.specs.Meaning.{guard_holds, meaning};
ghost use Rattle.rule_lint.specs.Reach.{is_never_reached, never_holds};
ghost use Rattle.rule_lint.specs.WebLink.{is_never_web_link};

/// A rule that is never reached is used in no environment: without it the rules mean the same.
pub fn unreached_rules_change_nothing()
    ensures { (lists : List Text) (before after : List Rule) (rule : Rule) (env : Environment)
        → is_never_reached (before ++ rule ∷ after) (length before) ≡ true
        → meaning (record { lists = lists; rules = before ++ rule ∷ after }) env
        ≡ meaning (record { lists = lists; rules = before ++ after }) env }
{}

/// A guard that never holds fails whatever the variables are.
pub fn guards_that_never_hold_fail()
    ensures { (look : LookUp) (g : Guard) → never_holds g ≡ true → guard_holds look g ≡ false }
{}

/// The expansion of a template that never gives a web link is not a web link, whatever the variables are. So no menu
/// shows it.
pub fn no_web_link_is_expanded()
    ensures { (look : LookUp) (parts : List Part) → is_never_web_link parts ≡ true
        → is_web_link (expansion look parts) ≡ false }
{}
