//! The normal form of an identifier.

ghost use Rattle.std.specs.Prelude.{◌≡◌, ◌∷◌, ◌++◌, [], false, IfOk, OnOk, string_bytes};
ghost use Rattle.std.specs.Option.{option_map_or};
ghost use Rattle.std.specs.Str.{bytes_eq};
ghost use Rattle.text_model.specs.Texts.{Text};
ghost use Rattle.kbart_rows.specs.Identifiers as spec;
ghost use Rattle.kbart_rows.specs.Private.Normal.{normal};

use std::alloc::{AllocError, Global};

/// An identifier as it is compared: without hyphens and spaces, and with ASCII letters in upper case.
///
/// Fails if an allocation failed.
pub fn normalised(alloc: Global, text: &str) -> Result<String, AllocError>
    ensures { IfOk result (λ id. string_bytes id ≡ spec.normalised text.now) }
{
    text.chars()
        .filter(|character| *character != '-' && *character != ' ')
        .map(|character| character.to_ascii_uppercase())
        .collect(alloc)
}

/// Writes the bytes of an identifier, [normalised], in place of those in the vector.
///
/// Fails if an allocation failed.
pub fn write_normal(text: &str, bytes: &mut Vec<u8>) -> Result<(), AllocError>
    ensures { OnOk result (bytes.new.items ≡ spec.normalised text.now) }
{
    bytes.clear();
    for byte in text.as_bytes() {
        push_normal(*byte, bytes)?;
    }
    Ok(())
}

/// Adds a byte of an identifier in upper case, unless it is a hyphen or a space.
fn push_normal(byte: u8, bytes: &mut Vec<u8>) -> Result<(), AllocError>
    ensures { OnOk result (bytes.new.items ≡ bytes.old.items ++ normal (byte ∷ [])) }
{
    if byte != b'-' && byte != b' ' {
        bytes.push(byte.to_ascii_uppercase())?;
    }
    Ok(())
}

/// Whether a cell, normalised, is the identifier, which is in normal form.
pub(crate) fn is_identifier(cell: &str, id: &[u8]) -> bool
    ensures { result ≡ bytes_eq id.now (spec.normalised cell.now) }
{
    is_normal_form(cell.as_bytes(), id)
}

/// Whether the bytes of a cell, normalised, are these.
fn is_normal_form(cell: &[u8], id: &[u8]) -> bool
    ensures { result ≡ bytes_eq id.now (normal cell.now) }
{
    let mut left = cell;
    let mut rest = id;
    while let Some((byte, others)) = left.split_first() {
        left = others;
        match after_byte(rest, *byte) {
            Some(after) => rest = after,
            None => return false,
        }
    }
    rest.is_empty()
}

/// What is left of an identifier after a byte of a cell, if the identifier can go on with this byte.
fn after_byte(id: &[u8], byte: u8) -> Option<&[u8]>
    ensures { (text : Text) → bytes_eq id.now (normal (byte ∷ text))
        ≡ option_map_or (λ rest. bytes_eq rest.now (normal text)) result false }
{
    if byte == b'-' || byte == b' ' {
        return Some(id);
    }
    match id.split_first() {
        Some((first, rest)) if *first == byte.to_ascii_uppercase() => Some(rest),
        _ => None,
    }
}
