//! Numbers of the names of many codes.

ghost use Rattle.std.specs.Prelude.{◌≡◌, IfOk, OnErr, OnOk};
ghost use Rattle.row_scope.specs.NameNumbers.{AreKept, AreOwnNumbers, IsOwn, with_code_names, with_number};
ghost use Rattle.row_scope.specs.Private.Kept.{IsExtended};

use code_file::Code;
use kbart_rows::NameSet;
use std::alloc::{AllocError, Global};

/// How many names can have numbers.
const MAX_NUMBERS: usize = 256;

/// The number of each name of a code, by which what is known about the name in a request is found without a search: how
/// many of the numbered names come before it. Names that are not among these are added, up to 256; others have no
/// number.
///
/// `AllocError` if an allocation failed; the numbered names are then as they were.
pub(crate) fn numbers_of(
    alloc: Global,
    numbered: &mut NameSet,
    code: &Code,
) -> Result<Vec<Option<usize>>, AllocError>
    ensures own { IfOk result (λ numbers. AreOwnNumbers numbered.new.names code.now numbers.items) }
    ensures names { OnOk result (numbered.new.names ≡ with_code_names numbered.old.names code.now) }
    ensures keys { numbered.new.keys ≡ numbered.old.keys }
    ensures kept { AreKept numbered.old.names numbered.new.names }
    ensures err { OnErr result (numbered.new ≡ numbered.old) }
{
    let len = numbered.len();
    let numbers = each_number(alloc, numbered, code);
    if numbers.is_err() {
        numbered.truncate(len);
    }
    numbers
}

/// The same; if an allocation failed, some of the names may have been added.
fn each_number(
    alloc: Global,
    numbered: &mut NameSet,
    code: &Code,
) -> Result<Vec<Option<usize>>, AllocError>
    ensures own { IfOk result (λ numbers. AreOwnNumbers numbered.new.names code.now numbers.items) }
    ensures names { OnOk result (numbered.new.names ≡ with_code_names numbered.old.names code.now) }
    ensures keys { numbered.new.keys ≡ numbered.old.keys }
    ensures after { IsExtended numbered.old.names numbered.new.names }
{
    let mut numbers = Vec::with_capacity(alloc, code.names().len())?;
    for name in code.names() {
        numbers.push(number(alloc, numbered, name.text.as_str())?)?;
    }
    Ok(numbers)
}

fn number(alloc: Global, numbered: &mut NameSet, name: &str) -> Result<Option<usize>, AllocError>
    ensures own { IfOk result (IsOwn numbered.new.names name.now) }
    ensures names { OnOk result (numbered.new.names ≡ with_number numbered.old.names name.now) }
    ensures keys { numbered.new.keys ≡ numbered.old.keys }
    ensures err { OnErr result (numbered.new ≡ numbered.old) }
{
    if let Some(number) = numbered.position(name) {
        return Ok(Some(number));
    }
    let number = numbered.len();
    if number >= MAX_NUMBERS {
        return Ok(None);
    }
    numbered.add(alloc, name)?;
    Ok(Some(number))
}
