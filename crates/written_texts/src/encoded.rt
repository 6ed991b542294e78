//! Texts that a source has encoded twice.

ghost use Rattle.std.specs.Prelude.{◌≡◌, ◌==◌, IfOk, string_bytes};
ghost use Rattle.std.specs.List.{list_all, slice_split};
ghost use Rattle.text_model.specs.Texts.{begins_with_triplet, percent, texts_of};
ghost use Rattle.written_texts.specs.Encoded as spec;

use request_encodings::{Encoding, value_in};
use std::alloc::{AllocError, Global};

/// The text that an encoded text stands for; any other text as it is.
pub(crate) fn decoded_again(alloc: Global, text: &str) -> Result<String, AllocError>
    ensures { IfOk result (λ decoded. string_bytes decoded ≡ spec.decoded_again text.now) }
{
    if is_encoded(alloc, text.as_bytes())? {
        return value_in(alloc, Encoding::Utf8, text.as_bytes());
    }
    String::from_str(alloc, text)
}

/// The identifier that an encoded one stands for; any other text as it is.
pub(crate) fn unescaped(alloc: Global, text: &str) -> Result<String, AllocError>
    ensures { IfOk result (λ unescaped. string_bytes unescaped ≡ spec.unescaped text.now) }
{
    let bytes = text.as_bytes();
    if is_escaped(bytes) {
        return value_in(alloc, Encoding::Utf8, bytes);
    }
    String::from_str(alloc, text)
}

/// Whether an identifier has escapes, and neither another `%` nor `+`.
fn is_escaped(text: &[u8]) -> bool
    ensures { result ≡ spec.is_escaped text.now }
{
    has_whole_escapes(text) && has_percent(text) && !has_plus(text)
}

/// Whether a text is a value as queries have them.
fn is_encoded(alloc: Global, text: &[u8]) -> Result<bool, AllocError>
    ensures { IfOk result (λ is. is ≡ spec.is_encoded text.now) }
{
    if has_space(text) || !has_whole_escapes(text) {
        return Ok(false);
    }
    if has_percent(text) {
        return Ok(true);
    }
    let words = words(alloc, text)?;
    Ok(has_three_words(&words))
}

fn has_space(text: &[u8]) -> bool
    ensures { result ≡ spec.has_space text.now }
{
    text.iter().any(|byte| *byte <= b' ')
}

fn has_percent(text: &[u8]) -> bool
    ensures { result ≡ spec.has percent text.now }
{
    text.iter().any(|byte| *byte == b'%')
}

fn has_plus(text: &[u8]) -> bool
    ensures { result ≡ spec.has spec.plus text.now }
{
    text.iter().any(|byte| *byte == b'+')
}

/// Whether each `%` begins an escape.
fn has_whole_escapes(text: &[u8]) -> bool
    ensures { result ≡ spec.has_whole_escapes text.now }
{
    let mut rest = text;
    while let [byte, after @ ..] = rest {
        if *byte == b'%' && !begins_with_escape(rest) {
            return false;
        }
        rest = after;
    }
    true
}

/// Whether an escape is at the beginning: `%` and two hexadecimal digits.
fn begins_with_escape(text: &[u8]) -> bool
    ensures { result ≡ begins_with_triplet text.now }
{
    match text {
        [b'%', high, low, ..] => high.is_ascii_hexdigit() && low.is_ascii_hexdigit(),
        _ => false,
    }
}

/// The parts of a text that `+` joins.
fn words(alloc: Global, text: &[u8]) -> Result<Vec<&[u8]>, AllocError>
    ensures { IfOk result (λ words. texts_of words.items ≡ slice_split (λ b. b == spec.plus) text.now) }
{
    text.split(|byte| *byte == b'+').collect(alloc)
}

/// Whether three words follow one another.
fn has_three_words(words: &[&[u8]]) -> bool
    ensures { result ≡ spec.has_three_words (texts_of words.now) }
{
    let mut rest = words;
    while let [first, others @ ..] = rest {
        if ends_as_word(first) && begin_with_words(others) {
            return true;
        }
        rest = others;
    }
    false
}

/// Whether a word is first, and the beginning of one second.
fn begin_with_words(words: &[&[u8]]) -> bool
    ensures { result ≡ spec.begin_with_words (texts_of words.now) }
{
    match words {
        [word, next, ..] => is_word(word) && begins_as_word(next),
        _ => false,
    }
}

/// A letter or `_`, and then letters, digits and `_`.
fn is_word(text: &[u8]) -> bool
    ensures { result ≡ spec.is_word text.now }
{
    match text {
        [first, rest @ ..] => is_word_start(*first) && are_word_bytes(rest),
        [] => false,
    }
}

fn are_word_bytes(text: &[u8]) -> bool
    ensures { result ≡ list_all spec.is_word_byte text.now }
{
    text.iter().all(|byte| is_word_byte(*byte))
}

fn begins_as_word(text: &[u8]) -> bool
    ensures { result ≡ spec.begins_as_word text.now }
{
    match text {
        [first, second, ..] => is_word_start(*first) && is_word_byte(*second),
        _ => false,
    }
}

/// Whether the last two bytes are as those of a word.
fn ends_as_word(text: &[u8]) -> bool
    ensures { result ≡ spec.ends_as_word text.now }
{
    begins_as_word(text.split_at(text.len().saturating_sub(2)).1)
}

fn is_word_start(byte: u8) -> bool
    ensures { result ≡ spec.is_word_start byte }
{
    byte.is_ascii_alphabetic() || byte == b'_'
}

fn is_word_byte(byte: u8) -> bool
    ensures { result ≡ spec.is_word_byte byte }
{
    byte.is_ascii_alphanumeric() || byte == b'_'
}
