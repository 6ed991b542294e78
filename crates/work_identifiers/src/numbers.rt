//! ISSNs and ISBNs as identifiers.

ghost use Rattle.std.specs.Prelude.{◌≡◌};
ghost use Rattle.std.specs.List.{count_by, list_all};
ghost use Rattle.text_model.specs.Texts.{texts_of};
ghost use Rattle.work_identifiers.specs.StandardNumbers as spec;

use crate::ends::{byte_at, from_start, to_end};
use crate::forms::MOST_BYTES;
use uri_text::begins_in_any_case;

/// A number that a standard gives to publications: to journals, or to books.
#[derive(Clone, Copy)]
pub enum StandardNumber {
    /// ISSNs (ISO 3297).
    Issn,
    /// ISBNs (ISO 2108), of ten digits or of 13.
    Isbn,
}

/// Words that say which number it is.
fn words(number: StandardNumber) -> &'static [&'static str]
    ensures { texts_of result.now ≡ spec.number_words number }
{
    match number {
        StandardNumber::Issn => &["urn:issn", "issn"],
        StandardNumber::Isbn => &["urn:isbn", "isbn", "isbn-10", "isbn-13"],
    }
}

/// Whether a text is an ISSN or an ISBN after a word that says so, as in `urn:ISSN:2901-0012`, and nothing else.
///
/// Which one it is, `standard_numbers` finds in the same text. Check digits are not tested.
pub fn is_number_named(number: StandardNumber, text: &[u8]) -> bool
    ensures { result ≡ spec.is_number_named number text.now }
{
    is_after_any(number, from_start(text))
}

/// Whether a text is an ISSN or an ISBN without a word, where something else says so, such as the key of a pair. An
/// ISSN alone has its hyphen.
pub fn is_number_alone(number: StandardNumber, text: &[u8]) -> bool
    ensures { result ≡ spec.is_number_alone number text.now }
{
    let text = from_start(text);
    is_number_at(number, text) && is_clear(number, text)
}

/// Whether the number is after one of the words.
fn is_after_any(number: StandardNumber, text: &[u8]) -> bool
    ensures { result ≡ spec.is_after_any number text.now }
{
    let known = words(number);
    for word in known {
        if is_number_after(number, text, word) {
            return true;
        }
    }
    false
}

fn is_number_after(number: StandardNumber, text: &[u8], word: &str) -> bool
    ensures { result ≡ spec.is_number_after number text.now word.now }
{
    let word = word.as_bytes();
    begins_in_any_case(text, word) && is_number_at(number, from_start(text.split_at(word.len()).1))
}

fn is_number_at(number: StandardNumber, text: &[u8]) -> bool
    ensures { result ≡ spec.is_number_at number text.now }
{
    text.len() <= MOST_BYTES && is_spelled(number, to_end(text))
}

/// Whether this has the digits of such a number, and hyphens alone beside them.
fn is_spelled(number: StandardNumber, text: &[u8]) -> bool
    ensures { result ≡ spec.is_spelled number text.now }
{
    are_number_bytes(text) && has_figures(number, figures(text))
}

fn are_number_bytes(text: &[u8]) -> bool
    ensures { result ≡ list_all spec.is_number_byte text.now }
{
    text.iter().all(|byte| is_number_byte(*byte))
}

fn is_number_byte(byte: u8) -> bool
    ensures { result ≡ spec.is_number_byte byte }
{
    is_figure(byte) || byte == b'-'
}

fn is_figure(byte: u8) -> bool
    ensures { result ≡ spec.is_figure byte }
{
    byte.is_ascii_digit() || byte == b'X' || byte == b'x'
}

fn figures(text: &[u8]) -> usize
    ensures { result ≡ count_by spec.is_figure text.now }
{
    text.iter().filter(|byte| is_figure(**byte)).count()
}

fn has_figures(number: StandardNumber, count: usize) -> bool
    ensures { result ≡ spec.has_figures number count }
{
    match number {
        StandardNumber::Issn => count == 8,
        StandardNumber::Isbn => count == 10 || count == 13,
    }
}

/// Whether the number is no other one that is written without a hyphen.
fn is_clear(number: StandardNumber, text: &[u8]) -> bool
    ensures { result ≡ spec.is_clear number text.now }
{
    match number {
        StandardNumber::Issn => byte_at(text, 4) == b'-',
        StandardNumber::Isbn => true,
    }
}
