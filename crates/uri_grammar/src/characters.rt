//! Characters and texts: triplets, copies, and numbers of bytes.

ghost use Rattle.std.specs.Prelude.{◌≡◌, ◌<◌, ◌≤◌, IsTrue, IfOk, IfSome, IfNone, length, slice_index, take};
ghost use Rattle.std.specs.Prelude.{encode_utf8_all, string_bytes};
ghost use Rattle.text_model.specs.Texts as texts;
ghost use Rattle.uri_grammar.specs.Specs.{Lacks};

use crate::template::MAX_BYTES;
use std::alloc::{AllocError, Global};

fn is_hexadecimal(c: char) -> bool
    ensures { result ≡ texts.is_hexadecimal c }
{
    c.is_ascii_hexdigit()
}

/// Whether the characters begin with a triplet (RFC 3986, section 2.1).
pub(crate) fn begins_with_triplet(text: &[char]) -> bool
    ensures value { result ≡ texts.begins_with_triplet text.now }
    ensures within { IsTrue result → 3 ≤ length text.now }
{
    match text {
        ['%', high, low, ..] => is_hexadecimal(*high) && is_hexadecimal(*low),
        _ => false,
    }
}

/// Where the first such character is.
pub(crate) fn place_of(text: &[char], sought: char) -> Option<usize>
    ensures none { IfNone result (Lacks sought text.now) }
    ensures found { IfSome result (λ at. (at < length text.now) × (slice_index text.now at ≡ sought)
        × Lacks sought (take at text.now)) }
{
    for (i, c) in text.iter().enumerate() {
        if *c == sought {
            return Some(i);
        }
    }
    None
}

/// The characters of a text, in one allocation.
pub(crate) fn chars_of(alloc: Global, text: &str) -> Result<Vec<char>, AllocError>
    ensures { IfOk result (λ chars. text.now ≡ encode_utf8_all chars.items) }
{
    let mut chars = Vec::with_capacity(alloc, text.len())?;
    for c in text.chars() {
        chars.push(c)?;
    }
    Ok(chars)
}

/// The characters as text. ASCII takes one allocation.
pub(crate) fn text_of(alloc: Global, chars: &[char]) -> Result<String, AllocError>
    ensures { IfOk result (λ text. string_bytes text ≡ encode_utf8_all chars.now) }
{
    let mut text = String::with_capacity(alloc, chars.len())?;
    for c in chars {
        text.push(*c)?;
    }
    Ok(text)
}

/// How many bytes the characters have as text.
pub(crate) fn byte_len(chars: &[char]) -> usize
    requires { length (encode_utf8_all chars.now) ≤ MAX_BYTES }
    ensures { result ≡ length (encode_utf8_all chars.now) }
{
    let mut len = 0;
    for c in chars {
        len += c.len_utf8();
    }
    len
}
