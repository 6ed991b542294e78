//! What holds for every text: it has one tree or one first error, and never both.

ghost use Rattle.std.specs.Prelude.{◌≡◌, ◌⊎◌, ℕ, List, All};
ghost use Rattle.std.specs.Str.{IsUtf8};
ghost use Rattle.text_model.specs.Texts.{Text};
ghost use Rattle.uri_grammar.specs.declared.error.TemplateErrorKind.{TemplateErrorKind};
ghost use Rattle.uri_grammar.specs.declared.parts.Part.{Part};
ghost use Rattle.uri_grammar.specs.Texts.{IsTemplate, IsRefusedTemplate};
ghost use Rattle.uri_grammar.specs.Promises.{IsSoundPart};

/// A text has at most one tree.
pub fn one_tree()
    ensures { (text : Text) (parts others : List Part) → IsTemplate text parts → IsTemplate text others
        → parts ≡ others }
{}

/// A text with a tree has no error.
pub fn tree_without_fault()
    ensures { (text : Text) (parts : List Part) (kind : TemplateErrorKind) (at : ℕ) → IsTemplate text parts
        → IsRefusedTemplate text kind at → ⊥ }
{}

/// A text has at most one first error.
pub fn one_first_fault()
    ensures { (text : Text) (kind other : TemplateErrorKind) (at place : ℕ) → IsRefusedTemplate text kind at
        → IsRefusedTemplate text other place → (kind ≡ other) × (at ≡ place) }
{}

/// A text has a tree or an error.
pub fn tree_or_fault()
    ensures { (text : Text) → IsUtf8 text → ((parts : List Part) × IsTemplate text parts)
        ⊎ ((kind : TemplateErrorKind) × (at : ℕ) × IsRefusedTemplate text kind at) }
{}

/// Every tree has what the crates above rely on: URI text in its literals and names, a variable in each expression, and
/// cuts of at most 9,999.
pub fn trees_are_sound()
    ensures { (text : Text) (parts : List Part) → IsTemplate text parts → All IsSoundPart parts }
{}
