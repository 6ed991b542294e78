//! Copies of a code's tables.

ghost use Rattle.std.specs.Prelude.{◌≡◌, IfOk};

use crate::entry::{Literal, Name};
use std::alloc::{AllocError, Global};

fn copy_name(alloc: Global, name: &Name) -> Result<Name, AllocError>
    ensures { IfOk result (λ n. n ≡ name.now) }
{
    let text = String::from_str(alloc, &name.text)?;
    Ok(Name {
        list: name.list,
        text,
    })
}

pub(crate) fn copy_names(alloc: Global, names: &[Name]) -> Result<Vec<Name>, AllocError>
    ensures { IfOk result (λ v. v.items ≡ names.now) }
{
    let mut copies = Vec::new(alloc);
    for name in names {
        copies.push(copy_name(alloc, name)?)?;
    }
    Ok(copies)
}

fn copy_literal(alloc: Global, literal: &Literal) -> Result<Literal, AllocError>
    ensures { IfOk result (λ l. l ≡ literal.now) }
{
    let bytes = Vec::from_slice(alloc, &literal.bytes)?;
    Ok(Literal {
        compared: literal.compared,
        bytes,
    })
}

pub(crate) fn copy_literals(alloc: Global, literals: &[Literal]) -> Result<Vec<Literal>, AllocError>
    ensures { IfOk result (λ v. v.items ≡ literals.now) }
{
    let mut copies = Vec::new(alloc);
    for literal in literals {
        copies.push(copy_literal(alloc, literal)?)?;
    }
    Ok(copies)
}
