//! Which names of rules are lists.

ghost use Rattle.std.specs.Prelude.{◌≡◌, IfOk};
ghost use Rattle.environment_model.specs.Environment.{is_among as is_one_of};
ghost use Rattle.environment_model.specs.Lists.{is_list as denotes_list};

use std::alloc::{AllocError, Global};
use target_vars::{AUTHORS, IDENTIFIERS};
use uri_grammar::Text;

/// Whether the name is one of these.
pub(crate) fn is_among(names: &[Text], name: &str) -> bool
    ensures { result ≡ is_one_of name.now names.now }
{
    names.iter().any(|other| other.as_str() == name)
}

/// Whether the name denotes a list, if these are declared.
pub(crate) fn is_list(declared: &[Text], name: &str) -> bool
    ensures { result ≡ denotes_list declared.now name.now }
{
    name == AUTHORS || name == IDENTIFIERS || is_among(declared, name)
}

/// A copy of the text.
pub(crate) fn copy(alloc: Global, text: &str) -> Result<Text, AllocError>
    ensures { IfOk result (λ copy. copy ≡ text.now) }
{
    Ok(Text::new(String::from_str(alloc, text)?))
}
