//! The forms of a page.

ghost use Rattle.std.specs.Prelude.{◌≡◌, ◌+◌, ◌≤◌, length};
ghost use Rattle.std.specs.Char.{is_ascii_alphanumeric, is_ascii_digit};
ghost use Rattle.std.specs.List.{list_all, prefix_len};
ghost use Rattle.std.specs.Option.{option_copied};
ghost use Rattle.article_places.specs.PageForms as spec;
ghost use Rattle.article_places.specs.Words.{letters};

use crate::labels::{is_page_label, is_same};
use crate::runs::{Class, are, has_digit, run};
use crate::words::{are_letters, byte_at, letters};

/// How many digits a text begins with.
fn digit_run(text: &[u8]) -> usize
    ensures value { result ≡ prefix_len is_ascii_digit text.now }
    ensures within { result ≤ length text.now }
{
    run(Class::Digit, text)
}

/// How many digits are after the letters with which the word begins.
pub(crate) fn digits(word: &[u8]) -> usize
    ensures value { result ≡ spec.digits word.now }
    ensures within { letters word.now + result ≤ length word.now }
{
    digit_run(word.split_at(letters(word)).1)
}

/// Whether the letters with which the word begins say that a page is next.
pub(crate) fn has_label(word: &[u8]) -> bool
    ensures { result ≡ spec.has_label word.now }
{
    is_page_label(roman(word))
}

/// Whether the word begins with a page in digits.
pub(crate) fn is_numbered(word: &[u8]) -> bool
    ensures { result ≡ spec.is_numbered word.now }
{
    digits(word) > 0 && letters(word) <= 4 && !has_label(word)
}

pub(crate) fn is_stop(byte: u8) -> bool
    ensures { result ≡ spec.is_stop byte }
{
    byte == b'.'
}

fn are_alphanumeric(text: &[u8]) -> bool
    ensures { result ≡ list_all is_ascii_alphanumeric text.now }
{
    are(Class::Alphanumeric, text)
}

/// Whether this is a full stop, and letters and digits.
fn is_decimal(rest: &[u8]) -> bool
    ensures { result ≡ spec.is_decimal rest.now }
{
    match rest {
        [] => false,
        [byte, others @ ..] => is_stop(*byte) && are_alphanumeric(others) && has_digit(others),
    }
}

/// Whether this says that pages follow.
fn is_following(rest: &[u8]) -> bool
    ensures { result ≡ spec.is_following rest.now }
{
    is_same(rest, "f") || is_same(rest, "ff")
}

/// Whether this belongs to a page after its digits.
fn is_suffix(rest: &[u8]) -> bool
    ensures { result ≡ spec.is_suffix rest.now }
{
    rest.len() <= 2 && are_letters(rest) && !is_following(rest) || is_decimal(rest)
}

/// The page in digits with which the word begins.
pub(crate) fn numbered(word: &[u8]) -> &[u8]
    ensures { result.now ≡ spec.numbered word.now }
{
    let (front, rest) = word.split_at(letters(word) + digits(word));
    if is_suffix(rest) { word } else { front }
}

pub(crate) fn is_numeral(byte: u8) -> bool
    ensures { result ≡ spec.is_numeral byte }
{
    let letter = byte.to_ascii_lowercase();
    letter == b'i'
        || letter == b'v'
        || letter == b'x'
        || letter == b'l'
        || letter == b'c'
        || letter == b'd'
        || letter == b'm'
}

fn are_numerals(text: &[u8]) -> bool
    ensures { result ≡ list_all spec.is_numeral text.now }
{
    are(Class::Numeral, text)
}

/// The letters with which the word begins.
pub(crate) fn roman(word: &[u8]) -> &[u8]
    ensures { result.now ≡ spec.roman word.now }
{
    word.split_at(letters(word)).0
}

/// Whether the word is a Roman numeral.
pub(crate) fn is_roman_page(word: &[u8]) -> bool
    ensures { result ≡ spec.is_roman_page word.now }
{
    let count = letters(word);
    count > 0
        && are_numerals(roman(word))
        && (word.len() == count || word.len() == count + 1 && is_stop(byte_at(word, count)))
}

/// The page with which the word begins.
pub(crate) fn page(word: &[u8]) -> Option<&[u8]>
    ensures { option_copied result ≡ spec.page word.now }
{
    if is_numbered(word) {
        Some(numbered(word))
    } else if is_roman_page(word) {
        Some(roman(word))
    } else {
        None
    }
}
