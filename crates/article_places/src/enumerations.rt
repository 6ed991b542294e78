//! The numbers of a volume and of an issue in a text.

ghost use Rattle.std.specs.Prelude.{◌≡◌, ◌≤◌, IfOk, IfSome, length};
ghost use Rattle.std.specs.List.{list_all, prefix_len};
ghost use Rattle.std.specs.Option.{option_copied, option_map};
ghost use Rattle.std.specs.Str.{IsAscii};
ghost use Rattle.text_model.specs.Texts.{texts_of};
ghost use Rattle.article_places.specs.Enumerations as spec;

use crate::labels::{is_issue_word, is_label, is_supplement_word};
use crate::runs::{Class, are, run};
use crate::words::{are_digits, are_letters, byte_at, is_number, is_open, words};
use std::alloc::{AllocError, Global};

/// The numbers that a text has under the key of a volume or of an issue.
#[derive(Clone, Copy)]
pub struct Enumeration<'a> {
    /// The number of the volume, or that of the issue if the text has but one number.
    pub first: Option<&'a [u8]>,
    /// The number of an issue, or of a part of the volume, after the first number.
    pub issue: Option<&'a [u8]>,
    /// Which supplement it is; empty if the text only says that it is one.
    pub supplement: Option<&'a [u8]>,
}

/// The numbers of a volume and of an issue in a text; `None` if it has other words.
///
/// The text may have any bytes. `AllocError` if an allocation failed.
pub fn enumeration_in(alloc: Global, text: &[u8]) -> Result<Option<Enumeration<'_>>, AllocError>
    ensures value { IfOk result (λ found. option_map spec.numbers found ≡ spec.numbers_in text.now) }
    ensures first_ascii { IfOk result (λ found. IfSome found (λ e. IfSome e.first (λ number. IsAscii number.now))) }
    ensures issue_ascii { IfOk result (λ found. IfSome found (λ e. IfSome e.issue (λ number. IsAscii number.now))) }
    ensures supplement_ascii { IfOk result (λ found. IfSome found (λ e.
        IfSome e.supplement (λ mark. IsAscii mark.now))) }
{
    let found = found_numbers(alloc, text)?;
    Ok(found)
}

fn found_numbers(alloc: Global, text: &[u8]) -> Result<Option<Enumeration<'_>>, AllocError>
    ensures { IfOk result (λ found. option_map spec.numbers found ≡ spec.numbers_in text.now) }
{
    let words = words(alloc, text)?;
    Ok(from_first(after_label(&words)))
}

/// The words without one that says which number is first.
fn after_label<'a, 'b>(words: &'b [&'a [u8]]) -> &'b [&'a [u8]]
    ensures { texts_of result.now ≡ spec.after_label (texts_of words.now) }
{
    match words {
        [word, others @ ..] if is_label(word) => others,
        _ => words,
    }
}

/// The words without one that says that an issue is next.
fn after_issue_word<'a, 'b>(words: &'b [&'a [u8]]) -> &'b [&'a [u8]]
    ensures { texts_of result.now ≡ spec.after_issue_word (texts_of words.now) }
{
    match words {
        [word, others @ ..] if is_issue_word(word) => others,
        _ => words,
    }
}

/// The words without a year in brackets.
fn after_year<'a, 'b>(words: &'b [&'a [u8]]) -> &'b [&'a [u8]]
    ensures { texts_of result.now ≡ spec.after_year (texts_of words.now) }
{
    match words {
        [bracket, word, others @ ..] if is_open(byte_at(bracket, 0)) && is_year(word) => others,
        _ => words,
    }
}

fn from_first<'a>(words: &[&'a [u8]]) -> Option<Enumeration<'a>>
    ensures { option_map spec.numbers result ≡ spec.from_first (texts_of words.now) }
{
    match words {
        [word, others @ ..] if is_number(word) => after_first(word, after_year(others)),
        _ => ended(None, None, words),
    }
}

/// The numbers, if these words are after the first one.
fn after_first<'a>(first: &'a [u8], words: &[&'a [u8]]) -> Option<Enumeration<'a>>
    ensures { option_map spec.numbers result ≡ spec.after_first first.now (texts_of words.now) }
{
    match words {
        [word, others @ ..] if is_issue_word(word) => with_issue(first, after_issue_word(others)),
        [word, others @ ..] if is_s_number(word) => ended(Some(first), Some(word), others),
        _ => ended(Some(first), None, words),
    }
}

/// The numbers, if these words are after the first one and a word that says that an issue is next.
fn with_issue<'a>(first: &'a [u8], words: &[&'a [u8]]) -> Option<Enumeration<'a>>
    ensures { option_map spec.numbers result ≡ spec.with_issue first.now (texts_of words.now) }
{
    match words {
        [word, others @ ..] if is_number(word) => ended(
            Some(first),
            Some(word),
            after_issue_word(after_year(others)),
        ),
        _ => ended(Some(first), None, words),
    }
}

/// The numbers, if these words are after them.
fn ended<'a>(
    first: Option<&'a [u8]>,
    issue: Option<&'a [u8]>,
    words: &[&'a [u8]],
) -> Option<Enumeration<'a>>
    ensures { option_map spec.numbers result
        ≡ spec.ended (option_copied first.entry) (option_copied issue.entry) (texts_of words.now) }
{
    match words {
        [] => Some(Enumeration {
            first,
            issue,
            supplement: None,
        }),
        [word, others @ ..] if is_supplement_word(word) => Some(Enumeration {
            first,
            issue,
            supplement: Some(supplement(after_issue_word(others))?),
        }),
        _ => None,
    }
}

/// The mark of a supplement, from the words after its label: empty without words, and none if the words are others.
fn supplement<'a>(words: &[&'a [u8]]) -> Option<&'a [u8]>
    ensures { option_copied result ≡ spec.supplement (texts_of words.now) }
{
    match words {
        [] => Some(b""),
        [mark] if is_mark(mark) && !is_issue_word(mark) => Some(mark),
        _ => None,
    }
}

pub(crate) fn is_in_part(byte: u8) -> bool
    ensures { result ≡ spec.is_in_part byte }
{
    !(byte == b'-' || byte == b'/')
}

/// How many bytes are before the first `-` or `/`.
fn part_len(number: &[u8]) -> usize
    ensures value { result ≡ prefix_len spec.is_in_part number.now }
    ensures within { result ≤ length number.now }
{
    run(Class::InPart, number)
}

/// Whether this is a year from 1000 to 2999, or several.
fn is_year(number: &[u8]) -> bool
    ensures { result ≡ spec.is_year number.now }
{
    let year = number.split_at(part_len(number)).0;
    year.len() == 4 && are_digits(year) && (year[0] == b'1' || year[0] == b'2')
}

/// Whether this is `S` and a number, as of a supplement.
fn is_s_number(word: &[u8]) -> bool
    ensures { result ≡ spec.is_s_number word.now }
{
    byte_at(word, 0).to_ascii_lowercase() == b's' && is_number(word)
}

pub(crate) fn is_roman(byte: u8) -> bool
    ensures { result ≡ spec.is_roman byte }
{
    let letter = byte.to_ascii_lowercase();
    letter == b'i' || letter == b'v' || letter == b'x'
}

fn are_roman(word: &[u8]) -> bool
    ensures { result ≡ list_all spec.is_roman word.now }
{
    are(Class::SmallNumeral, word)
}

/// Whether the word says which supplement it is.
fn is_mark(word: &[u8]) -> bool
    ensures { result ≡ spec.is_mark word.now }
{
    is_number(word) || word.len() <= 1 && are_letters(word) || word.len() <= 5 && are_roman(word)
}
