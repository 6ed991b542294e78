//! The forms of identifiers.

ghost use Rattle.std.specs.Prelude.{◌≡◌};
ghost use Rattle.std.specs.Char.{is_ascii_digit};
ghost use Rattle.std.specs.List.{list_all};
ghost use Rattle.work_identifiers.specs.Forms as spec;

use crate::arxiv::is_arxiv;
use crate::ends::{ends_loosely, first_part};
use crate::namespace::Namespace;

/// How many bytes an identifier has at most.
pub(crate) const MOST_BYTES: usize = 500;

/// Whether this is an identifier of the namespace.
pub(crate) fn is_identifier(namespace: Namespace, text: &[u8]) -> bool
    ensures { result ≡ spec.is_identifier namespace text.now }
{
    text.len() <= MOST_BYTES && !ends_loosely(text) && has_form(namespace, text)
}

fn has_form(namespace: Namespace, text: &[u8]) -> bool
    ensures { result ≡ spec.has_form namespace text.now }
{
    match namespace {
        Namespace::Doi => is_doi(text),
        Namespace::Pmid => is_number(9, text),
        Namespace::Oclc => is_number(12, text),
        Namespace::Pmc => is_number(9, text),
        Namespace::Arxiv => is_arxiv(text),
    }
}

/// Whether the text has a prefix of DOIs, `/`, and a suffix.
fn is_doi(text: &[u8]) -> bool
    ensures { result ≡ spec.is_doi text.now }
{
    let prefix = first_part(text);
    is_doi_prefix(prefix)
        && text.len() >= prefix.len() + 2
        && text[prefix.len()] == b'/'
        && are_visible(text)
}

/// Whether this is `10.` and the code of a registrant.
fn is_doi_prefix(text: &[u8]) -> bool
    ensures { result ≡ spec.is_doi_prefix text.now }
{
    text.starts_with(b"10.") && is_registrant(text.split_at(3).1)
}

fn is_registrant(code: &[u8]) -> bool
    ensures { result ≡ spec.is_registrant code.now }
{
    is_between(4, 20, code.len()) && are_digits_or_stops(code)
}

pub(crate) fn is_between(low: usize, high: usize, number: usize) -> bool
    ensures { result ≡ spec.is_between low high number }
{
    low <= number && number <= high
}

pub(crate) fn are_digits(text: &[u8]) -> bool
    ensures { result ≡ list_all is_ascii_digit text.now }
{
    text.iter().all(|byte| byte.is_ascii_digit())
}

fn are_digits_or_stops(text: &[u8]) -> bool
    ensures { result ≡ list_all spec.is_digit_or_stop text.now }
{
    text.iter().all(|byte| is_digit_or_stop(*byte))
}

fn are_visible(text: &[u8]) -> bool
    ensures { result ≡ list_all spec.is_visible text.now }
{
    text.iter().all(|byte| is_visible(*byte))
}

pub(crate) fn is_digit_or_stop(byte: u8) -> bool
    ensures { result ≡ spec.is_digit_or_stop byte }
{
    byte.is_ascii_digit() || byte == b'.'
}

fn is_visible(byte: u8) -> bool
    ensures { result ≡ spec.is_visible byte }
{
    b'!' <= byte && byte <= b'~'
}

/// Whether these are digits, at least one and at most `most`.
pub(crate) fn is_number(most: usize, text: &[u8]) -> bool
    ensures { result ≡ spec.is_number most text.now }
{
    is_between(1, most, text.len()) && are_digits(text)
}
