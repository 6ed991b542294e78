//! The parts of a text, and its bytes by index.

ghost use Rattle.std.specs.Prelude.{◌≡◌, IfOk, slice_index};
ghost use Rattle.std.specs.Str.{IsAscii};
ghost use Rattle.text_model.specs.Texts.{texts_of};
ghost use Rattle.publication_dates.specs.Dates as spec;
ghost use Rattle.publication_dates.specs.Months.{words};

use std::alloc::{AllocError, Global};
use uri_text::Text;

/// The longest runs of digits, and empty parts between other bytes.
pub(crate) fn parts(alloc: Global, text: &[u8]) -> Result<Vec<&[u8]>, AllocError>
    ensures { IfOk result (λ parts. texts_of parts.items ≡ spec.parts text.now) }
{
    text.split(|byte| !byte.is_ascii_digit()).collect(alloc)
}

/// The longest runs of letters, and empty words between other bytes.
pub(crate) fn words(alloc: Global, text: &[u8]) -> Result<Vec<&[u8]>, AllocError>
    ensures { IfOk result (λ found. texts_of found.items ≡ words text.now) }
{
    text.split(|byte| !byte.is_ascii_alphabetic())
        .collect(alloc)
}

/// The part at the index; empty if there is none.
pub(crate) fn nth<'a>(parts: &[&'a [u8]], index: usize) -> &'a [u8]
    ensures { result.now ≡ spec.nth (texts_of parts.now) index }
{
    if index < parts.len() {
        parts[index]
    } else {
        b""
    }
}

/// The byte at the index; NUL past the end.
pub(crate) fn byte_at(text: &[u8], index: usize) -> u8
    ensures { result ≡ slice_index text.now index }
{
    if index < text.len() { text[index] } else { 0 }
}

/// The text of ASCII bytes.
pub(crate) fn ascii_text(alloc: Global, bytes: &[u8]) -> Result<Text, AllocError>
    requires { IsAscii bytes.now }
    ensures { IfOk result (λ text. text ≡ bytes.now) }
{
    let text = String::from_utf8_lossy(alloc, bytes)?;
    Ok(Text::new(text))
}
