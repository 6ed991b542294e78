//! The encoding that a query declares.

ghost use Rattle.std.specs.Prelude.{◌≡◌, ◌==◌, IfOk};
ghost use Rattle.std.specs.List.{slice_split};
ghost use Rattle.text_model.specs.Texts.{texts_of};
ghost use Rattle.request_encodings.specs.Declarations as spec;

use crate::encoding::{ByteEncoding, Encoding};
use std::alloc::{AllocError, Global};
use uri_text::begins_in_any_case;

/// The encoding that the first `ctx_enc` of a query declares; UTF-8 if there is none, or if it has no value.
///
/// The query is in the key/encoded-value form. `AllocError` if an allocation failed.
pub fn declared_in(alloc: Global, query: &[u8]) -> Result<Encoding, AllocError>
    ensures { IfOk result (λ encoding. encoding ≡ spec.declared_in query.now) }
{
    let parts = parts(alloc, query)?;
    declared_by(alloc, &parts)
}

fn parts(alloc: Global, query: &[u8]) -> Result<Vec<&[u8]>, AllocError>
    ensures { IfOk result (λ parts. texts_of parts.items ≡ slice_split (λ b. b == 0x26) query.now) }
{
    query.split(|byte| *byte == b'&').collect(alloc)
}

fn declared_by(alloc: Global, parts: &[&[u8]]) -> Result<Encoding, AllocError>
    ensures { IfOk result (λ encoding. encoding ≡ spec.declared_by (texts_of parts.now)) }
{
    for part in parts {
        if begins_in_any_case(part, b"ctx_enc=") {
            let name = plain(alloc, part)?;
            return Ok(encoding_named(&name));
        }
    }
    Ok(Encoding::Utf8)
}

/// A name in small letters, and with hyphens.
fn plain(alloc: Global, text: &[u8]) -> Result<Vec<u8>, AllocError>
    ensures { IfOk result (λ bytes. bytes.items ≡ spec.plain text.now) }
{
    text.iter().map(|byte| plain_byte(*byte)).collect(alloc)
}

fn plain_byte(byte: u8) -> u8
    ensures { result ≡ spec.plain_byte byte }
{
    if byte == b'_' {
        b'-'
    } else {
        byte.to_ascii_lowercase()
    }
}

fn encoding_named(name: &[u8]) -> Encoding
    ensures { result ≡ spec.encoding_named name.now }
{
    if has_ending(utf8_endings(), name) {
        Encoding::Utf8
    } else {
        first_named(byte_encodings(), name)
    }
}

/// The first encoding whose name ends so.
fn first_named(encodings: &[ByteEncoding], name: &[u8]) -> Encoding
    ensures { result ≡ spec.first_named encodings.now name.now }
{
    for encoding in encodings {
        if has_ending(encoding.endings(), name) {
            return Encoding::Bytes(*encoding);
        }
    }
    Encoding::Unknown
}

fn byte_encodings() -> &'static [ByteEncoding]
    ensures { result.now ≡ spec.byte_encodings }
{
    &[
        ByteEncoding::Windows1250,
        ByteEncoding::Windows1251,
        ByteEncoding::Windows1252,
        ByteEncoding::Iso8859_2,
        ByteEncoding::Iso8859_5,
        ByteEncoding::Iso8859_15,
        ByteEncoding::Koi8R,
    ]
}

/// How a name of UTF-8, of ASCII or of none ends.
fn utf8_endings() -> &'static [&'static str]
    ensures { texts_of result.now ≡ spec.utf8_endings }
{
    &[
        "utf-8", "utf8", "ascii", ":", "/", "=", "+", "%3a", "%2f", "%20",
    ]
}

fn has_ending(endings: &[&str], name: &[u8]) -> bool
    ensures { result ≡ spec.has_ending (texts_of endings.now) name.now }
{
    for ending in endings {
        if ends_with(name, ending.as_bytes()) {
            return true;
        }
    }
    false
}

fn ends_with(name: &[u8], ending: &[u8]) -> bool
    ensures { result ≡ spec.ends_so name.now ending.now }
{
    name.ends_with(ending)
}
