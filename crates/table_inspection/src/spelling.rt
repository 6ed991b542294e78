//! Names of columns that resemble each other.

ghost use Rattle.std.specs.Prelude.{◌≡◌, IfOk, OnOk, string_bytes};
ghost use Rattle.table_inspection.specs.Columns as spec;
ghost use Rattle.table_inspection.specs.Private.Spelling.{next_name};

use std::alloc::{AllocError, Global};

/// A name in lower case, with one `_` for each run of other bytes between letters.
pub(crate) fn spelling(alloc: Global, text: &str) -> Result<String, AllocError>
    ensures { IfOk result (λ name. string_bytes name ≡ spec.spelling text.now) }
{
    let mut name = String::new(alloc);
    let mut is_after_other = false;
    for b in text.as_bytes() {
        spell_byte(&mut name, is_after_other, *b)?;
        is_after_other = !b.is_ascii_alphabetic();
    }
    Ok(name)
}

/// Appends a byte in this spelling; `is_after_other` says that the byte before it was not kept.
fn spell_byte(name: &mut String, is_after_other: bool, b: u8) -> Result<(), AllocError>
    ensures { OnOk result (string_bytes name.new ≡ next_name (string_bytes name.old) is_after_other b) }
{
    if !b.is_ascii_alphabetic() {
        return Ok(());
    }
    if is_after_other && !name.as_str().is_empty() {
        name.push('_')?;
    }
    name.push(char::from(b.to_ascii_lowercase()))
}
