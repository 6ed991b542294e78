//! What follows from the definition of an expansion. These functions have empty bodies; each contract is a theorem.

ghost use Rattle.std.specs.Prelude.{◌≡◌, List, [], ◌++◌, None, All};
ghost use Rattle.environment_model.specs.Environment.{LookUp};
ghost use Rattle.text_model.specs.UriText.{IsUriText};
ghost use Rattle.uri_grammar.specs.declared.parts.Op.{Op};
ghost use Rattle.uri_grammar.specs.declared.parts.Spec.{Spec};
ghost use Rattle.uri_grammar.specs.declared.parts.Part.{Part};
ghost use Rattle.uri_grammar.specs.declared.parts.Part.TheVariants.{Expression};
ghost use Rattle.uri_grammar.specs.Promises.{IsSoundPart};
ghost use Rattle.uri_template.specs.Expansion.{part_text, expansion};

/// Whatever the variables are, the expansion of a tree of the grammar is URI text.
pub fn expansion_is_uri_text()
    ensures { (look : LookUp) (parts : List Part) → All IsSoundPart parts → IsUriText (expansion look parts) }
{}

/// The expansion of joined parts is the joined expansions: no part depends on its neighbours.
pub fn expansions_join()
    ensures { (look : LookUp) (parts following : List Part)
        → expansion look (parts ++ following) ≡ expansion look parts ++ expansion look following }
{}

/// An expression none of whose variables is defined gives nothing (RFC 6570, section 3.2.1).
pub fn undefined_variables_give_nothing()
    ensures { (look : LookUp) (op : Op) (specs : List Spec)
        → All (λ spec. look spec.name ≡ None) specs → part_text look (Expression op specs) ≡ [] }
{}
