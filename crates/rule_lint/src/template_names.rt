//! The names of a template.

ghost use Rattle.std.specs.Prelude.{◌≡◌, ◌++◌, IfOk, OnOk};
ghost use Rattle.text_model.specs.Texts.{texts_of};
ghost use Rattle.rule_lint.specs.Findings.{names_in_template, names_in_part};
ghost use Rattle.rule_lint.specs.Host.{names_of};

use crate::distinct::distinct;
use kbart_rows::Keys;
use std::alloc::{AllocError, Global};
use uri_grammar::{Part, Spec};

fn add_names<'a>(names: &mut Vec<&'a str>, specs: &'a [Spec]) -> Result<(), AllocError>
    ensures { OnOk result (texts_of names.new.items ≡ texts_of names.old.items ++ names_of specs.now) }
{
    for spec in specs {
        names.push(spec.name.as_str())?;
    }
    Ok(())
}

fn add_names_of_part<'a>(names: &mut Vec<&'a str>, part: &'a Part) -> Result<(), AllocError>
    ensures { OnOk result (texts_of names.new.items ≡ texts_of names.old.items ++ names_in_part part.now) }
{
    match part {
        Part::Literal(_) => Ok(()),
        Part::Expression { specs, .. } => add_names(names, specs.as_slice()),
    }
}

/// The names in a template, in order, each once. They are found by these keys.
pub(crate) fn names_in<'a>(
    alloc: Global,
    keys: Keys,
    parts: &'a [Part],
) -> Result<Vec<&'a str>, AllocError>
    ensures { IfOk result (λ names. texts_of names.items ≡ names_in_template parts.now) }
{
    let mut names = Vec::new(alloc);
    for part in parts {
        add_names_of_part(&mut names, part)?;
    }
    distinct(alloc, keys, &names)
}
