//! The names that a guard mentions.

ghost use Rattle.std.specs.Prelude.{◌≡◌, ◌∷◌, ◌++◌, List, IfOk, OnOk};
ghost use Rattle.text_model.specs.Texts.{Text, texts_of};
ghost use Rattle.rule_parser.specs.Names.{each_once};
ghost use Rattle.rule_parser.specs.Mentions.{bound_names, mentioned};

use crate::rule::{Bound, Guard};
use std::alloc::{AllocError, Global};

/// Adds the bound's name, unless the bound has none or the list already contains it.
fn add_bound<'a>(names: &mut Vec<&'a str>, bound: &'a Bound) -> Result<(), AllocError>
    ensures { OnOk result ((before : List Text) → texts_of names.old.items ≡ each_once before
        → texts_of names.new.items ≡ each_once (before ++ bound_names bound.now)) }
{
    let Bound::Name(name) = bound else {
        return Ok(());
    };
    let name = name.as_str();
    if !names.contains(&name) {
        names.push(name)?;
    }
    Ok(())
}

/// The name that a guard begins with, and its bounds.
fn bounded<'a>(
    alloc: Global,
    name: &'a str,
    low: &'a Bound,
    high: &'a Bound,
) -> Result<Vec<&'a str>, AllocError>
    ensures { IfOk result (λ names. texts_of names.items
        ≡ each_once (name.now ∷ (bound_names low.now ++ bound_names high.now))) }
{
    let mut names = vec![in alloc; name]?;
    add_bound(&mut names, low)?;
    add_bound(&mut names, high)?;
    Ok(names)
}

impl Guard {
    /// The names that the guard mentions, its own and those of its bounds, in the order of its line, each once.
    ///
    /// `AllocError` if an allocation failed.
    pub fn names(&self, alloc: Global) -> Result<Vec<&str>, AllocError>
        ensures { IfOk result (λ names. texts_of names.items ≡ mentioned self.now) }
    {
        match self {
            Guard::Has(name)
            | Guard::Lacks(name)
            | Guard::Given(name)
            | Guard::Same(name, _)
            | Guard::Holds(name, _) => Ok(vec![in alloc; name.as_str()]?),
            Guard::Between(name, low, high) | Guard::Counts(name, low, high) => {
                bounded(alloc, name.as_str(), low, high)
            }
        }
    }
}
