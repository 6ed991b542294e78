//! Bytes read as text.

ghost use Rattle.std.specs.Prelude.{◌≡◌, true, false, IfOk, MatchOption, map, string_bytes};
ghost use Rattle.std.specs.Str.{is_utf8};
ghost use Rattle.form_urlencoded.specs.Form as form;
ghost use Rattle.request_encodings.specs.Texts as spec;

use crate::encoding::{ByteEncoding, Encoding};
use percent_encoding::percent_decode;
use std::alloc::{AllocError, Global};
use std::borrow::CowSlice;
use std::str::from_utf8;

/// The text that a name or a value of a query stands for, with spaces for `+` and bytes for their escapes (URL
/// Standard, section 5.1).
///
/// `AllocError` if an allocation failed.
pub fn value_in(alloc: Global, encoding: Encoding, value: &[u8]) -> Result<String, AllocError>
    ensures { IfOk result (λ text. string_bytes text ≡ spec.value_in encoding value.now) }
{
    let bytes = bytes_of(alloc, value)?;
    let text = text_in(alloc, encoding, &bytes)?;
    Ok(text)
}

/// Whether the bytes that a name or a value of a query stands for are UTF-8.
///
/// `AllocError` if an allocation failed.
pub fn is_utf8_value(alloc: Global, value: &[u8]) -> Result<bool, AllocError>
    ensures { IfOk result (λ is. is ≡ is_utf8 (form.decode value.now)) }
{
    let bytes = bytes_of(alloc, value)?;
    Ok(utf8_text(&bytes).is_some())
}

fn bytes_of(alloc: Global, value: &[u8]) -> Result<Vec<u8>, AllocError>
    ensures { IfOk result (λ bytes. bytes.items ≡ form.decode value.now) }
{
    let spaced = spaced(alloc, value)?;
    match percent_decode(&spaced).into_cow(alloc)? {
        CowSlice::Owned(bytes) => Ok(bytes),
        CowSlice::Borrowed(_) => Ok(spaced),
    }
}

/// The value with a space for each `+`.
fn spaced(alloc: Global, value: &[u8]) -> Result<Vec<u8>, AllocError>
    ensures { IfOk result (λ bytes. bytes.items ≡ map form.plus_to_space value.now) }
{
    value.iter().map(|byte| plus_to_space(*byte)).collect(alloc)
}

fn plus_to_space(byte: u8) -> u8
    ensures { result ≡ form.plus_to_space byte }
{
    if byte == b'+' { b' ' } else { byte }
}

/// The text that bytes in an encoding are.
///
/// It has at most three bytes for each of them. `AllocError` if an allocation failed.
pub fn text_in(alloc: Global, encoding: Encoding, bytes: &[u8]) -> Result<String, AllocError>
    ensures { IfOk result (λ text. string_bytes text ≡ spec.text_in encoding bytes.now) }
{
    match encoding {
        Encoding::Utf8 => utf8_or_windows_1252(alloc, bytes),
        Encoding::Bytes(encoding) => decoded(alloc, encoding, bytes),
        Encoding::Unknown => utf8_or_nothing(alloc, bytes),
    }
}

fn utf8_or_windows_1252(alloc: Global, bytes: &[u8]) -> Result<String, AllocError>
    ensures { IfOk result (λ text. string_bytes text ≡ spec.text_in Encoding.Utf8 bytes.now) }
{
    match utf8_text(bytes) {
        Some(text) => String::from_str(alloc, text),
        None => decoded(alloc, ByteEncoding::Windows1252, bytes),
    }
}

fn utf8_text(bytes: &[u8]) -> Option<&str>
    ensures { MatchOption result (is_utf8 bytes.now ≡ false)
        (λ text. (is_utf8 bytes.now ≡ true) × (text.now ≡ bytes.now)) }
{
    match from_utf8(bytes) {
        Ok(text) => Some(text),
        Err(_) => None,
    }
}

fn utf8_or_nothing(alloc: Global, bytes: &[u8]) -> Result<String, AllocError>
    ensures { IfOk result (λ text. string_bytes text ≡ spec.text_in Encoding.Unknown bytes.now) }
{
    match utf8_text(bytes) {
        Some(text) => String::from_str(alloc, text),
        None => Ok(String::new(alloc)),
    }
}

/// The text of characters of one byte.
fn decoded(alloc: Global, encoding: ByteEncoding, bytes: &[u8]) -> Result<String, AllocError>
    ensures { IfOk result (λ text. string_bytes text ≡ spec.decoded encoding bytes.now) }
{
    let mut text = String::new(alloc);
    for byte in bytes {
        text.push(encoding.character(*byte))?;
    }
    Ok(text)
}
