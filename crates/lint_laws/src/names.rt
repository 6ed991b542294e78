//! Which texts `lint` compares as names.

ghost use Rattle.std.specs.Prelude.{◌≡◌, ◌↔◌, true};
ghost use Rattle.text_model.specs.Texts.{Text};
ghost use Rattle.uri_grammar.specs.Names.{IsName};
ghost use Rattle.rule_lint.specs.Names.{is_name};

/// The test of `lint` passes exactly the names of the template grammar (RFC 6570, section 2.3).
pub fn names_are_those_of_templates()
    ensures { (text : Text) → (is_name text ≡ true) ↔ IsName text }
{}
