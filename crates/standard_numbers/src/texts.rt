//! Texts of ASCII, and their bytes.

ghost use Rattle.std.specs.Prelude.{◌≡◌, IfOk, slice_index};
ghost use Rattle.std.specs.Str.{IsAscii};

use std::alloc::{AllocError, Global};
use uri_text::Text;

/// The text of ASCII bytes.
pub(crate) fn ascii_text(alloc: Global, bytes: &[u8]) -> Result<Text, AllocError>
    requires { IsAscii bytes.now }
    ensures { IfOk result (λ text. text ≡ bytes.now) }
{
    let text = String::from_utf8_lossy(alloc, bytes)?;
    Ok(Text::new(text))
}

/// The byte at an index; NUL past the end.
pub(crate) fn byte_at(text: &[u8], index: usize) -> u8
    ensures { result ≡ slice_index text.now index }
{
    if index < text.len() { text[index] } else { 0 }
}
