//! The numbers of articles that have no page.

ghost use Rattle.std.specs.Prelude.{◌≡◌, IfOk};
ghost use Rattle.std.specs.Char.{is_ascii_digit};
ghost use Rattle.std.specs.List.{list_all, list_any};
ghost use Rattle.openurl_reading.specs.ArticleNumbers as spec;

use crate::pairs::copy;
use crate::searched::in_ascii;
use std::alloc::{AllocError, Global};
use uri_text::Text;

/// The maximum number of bytes of such a number.
const MOST_BYTES: usize = 40;

/// The number of an article in a value.
pub(crate) fn article_in(alloc: Global, value: &str) -> Result<Option<Text>, AllocError>
    ensures { IfOk result (λ number. number ≡ spec.article_in value.now) }
{
    let text = in_ascii(alloc, value)?;
    let number = text.as_str().trim();
    if is_article_number(number.as_bytes()) {
        return Ok(Some(copy(alloc, number)?));
    }
    Ok(None)
}

fn is_article_number(text: &[u8]) -> bool
    ensures { result ≡ spec.is_article_number text.now }
{
    text.len() <= MOST_BYTES && are_number_bytes(text) && has_digit(text)
}

fn are_number_bytes(text: &[u8]) -> bool
    ensures { result ≡ list_all spec.is_number_byte text.now }
{
    for byte in text {
        if !is_number_byte(*byte) {
            return false;
        }
    }
    true
}

fn has_digit(text: &[u8]) -> bool
    ensures { result ≡ list_any is_ascii_digit text.now }
{
    text.iter().any(|byte| byte.is_ascii_digit())
}

fn is_number_byte(byte: u8) -> bool
    ensures { result ≡ spec.is_number_byte byte }
{
    byte.is_ascii_alphanumeric() || byte == b'_' || byte == b'.' || byte == b'/' || byte == b'-'
}
