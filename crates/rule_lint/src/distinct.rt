//! Names without those that came before.

ghost use Rattle.std.specs.Prelude.{◌≡◌, ◌++◌, ◌∷◌, [], IfOk, OnOk, if◌then◌else◌};
ghost use Rattle.text_model.specs.Texts.{texts_of};
ghost use Rattle.rule_parser.specs.Names.{each_once};

use kbart_rows::Keys;
use std::alloc::{AllocError, Global};
use std::collections::HashSet;

fn push_if_new<'a>(found: &mut Vec<&'a str>, is_new: bool, name: &'a str) -> Result<(), AllocError>
    ensures { OnOk result (texts_of found.new.items
        ≡ texts_of found.old.items ++ (if is_new then name.now ∷ [] else [])) }
{
    if is_new {
        found.push(name)?;
    }
    Ok(())
}

/// These names, each once, in the order of their first occurrence. They are found by secret keys, so no rules can make
/// it slow.
pub(crate) fn distinct<'a>(
    alloc: Global,
    keys: Keys,
    names: &[&'a str],
) -> Result<Vec<&'a str>, AllocError>
    ensures { IfOk result (λ found. texts_of found.items ≡ each_once (texts_of names.now)) }
{
    let mut seen = HashSet::with_hasher(alloc, keys);
    let mut found = Vec::new(alloc);
    for name in names {
        let is_new = seen.insert(*name)?;
        push_if_new(&mut found, is_new, name)?;
    }
    Ok(found)
}
