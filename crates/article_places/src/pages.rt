//! The first and the last page in a text.

ghost use Rattle.std.specs.Prelude.{◌≡◌, ◌≤◌, ◌++◌, ◌&&◌, ◌∷◌, length, is_some, slice_get, IfOk, IfSome, OnOk};
ghost use Rattle.std.specs.List.{prefix_len, slice_split};
ghost use Rattle.std.specs.Option.{option_copied, option_map};
ghost use Rattle.std.specs.Str.{IsAscii};
ghost use Rattle.text_model.specs.Texts.{texts_of};
ghost use Rattle.article_places.specs.Labels.{is_range_word};
ghost use Rattle.article_places.specs.PageForms.{is_stop, page as spec_page};
ghost use Rattle.article_places.specs.Pages as spec;

use crate::labels::{is_range_word, is_same};
use crate::last_pages::last_page;
use crate::page_forms::{
    digits, has_label, is_numbered, is_roman_page, is_stop, numbered, page, roman,
};
use crate::runs::{Class, run};
use crate::words::{byte_at, letters};
use std::alloc::{AllocError, Global};

/// The first page that a text has, and the last one if it has a range.
#[derive(Clone, Copy)]
pub struct Pages<'a> {
    pub first: &'a [u8],
    pub last: Option<LastPage<'a>>,
}

/// A last page, in two parts that belong together: `2344-55` ends at `23` and `55`, which is page 2355.
#[derive(Clone, Copy)]
pub struct LastPage<'a> {
    /// The letters and digits that it has from the first page; may be empty.
    pub shared: &'a [u8],
    /// What the text has of it.
    pub written: &'a [u8],
}

/// The pages in a text; `None` if it has none. The clauses are about the last page as a whole.
///
/// The text may have any bytes. `AllocError` if an allocation failed.
pub fn pages_in(alloc: Global, text: &[u8]) -> Result<Option<Pages<'_>>, AllocError>
    ensures value { IfOk result (λ found. option_map spec.range found ≡ spec.pages_in text.now) }
    ensures first_ascii { IfOk result (λ found. IfSome found (λ pages. IsAscii pages.first.now)) }
    ensures last_ascii { IfOk result (λ found. IfSome found (λ pages.
        IfSome pages.last (λ last. IsAscii (spec.in_full last)))) }
{
    let found = found_pages(alloc, text)?;
    Ok(found)
}

fn found_pages(alloc: Global, text: &[u8]) -> Result<Option<Pages<'_>>, AllocError>
    ensures { IfOk result (λ found. option_map spec.range found ≡ spec.pages_in text.now) }
{
    let (before, after) = text.split_at(before_hyphen(text));
    let firsts = page_words(alloc, before)?;
    let lasts = page_words(alloc, after)?;
    Ok(from_page(first_page(&firsts), &firsts, &lasts))
}

/// Whether the byte is neither a letter, a digit nor a full stop.
fn is_between(byte: u8) -> bool
    ensures { result ≡ spec.is_between byte }
{
    !(byte.is_ascii_alphanumeric() || is_stop(byte))
}

pub(crate) fn is_no_hyphen(byte: u8) -> bool
    ensures { result ≡ spec.is_no_hyphen byte }
{
    byte != b'-'
}

/// How many bytes are before the first hyphen.
fn before_hyphen(text: &[u8]) -> usize
    ensures value { result ≡ prefix_len spec.is_no_hyphen text.now }
    ensures within { result ≤ length text.now }
{
    run(Class::NoHyphen, text)
}

/// How many full stops the text begins with.
fn stops(text: &[u8]) -> usize
    ensures value { result ≡ prefix_len is_stop text.now }
    ensures within { result ≤ length text.now }
{
    run(Class::Stop, text)
}

/// How many letters say that a page is next.
fn label_length(word: &[u8]) -> usize
    ensures value { result ≡ spec.label_length word.now }
    ensures within { result ≤ length word.now }
{
    let count = letters(word);
    if has_label(word) || is_same(roman(word), "s") && is_stop(byte_at(word, count)) {
        count
    } else {
        0
    }
}

/// The word without these letters, and without full stops at its beginning.
fn bare(word: &[u8]) -> &[u8]
    ensures { result.now ≡ spec.bare word.now }
{
    let rest = word.split_at(label_length(word)).1;
    rest.split_at(stops(rest)).1
}

/// Appends the bare word, if it is not empty.
fn push_bare<'a>(words: &mut Vec<&'a [u8]>, word: &'a [u8]) -> Result<(), AllocError>
    ensures { OnOk result (texts_of words.new.items ≡ texts_of words.old.items ++ spec.bare_word word.now) }
{
    let bare = bare(word);
    if bare.len() > 0 {
        words.push(bare)?;
    }
    Ok(())
}

/// The words of a text; some may be empty.
fn split(alloc: Global, text: &[u8]) -> Result<Vec<&[u8]>, AllocError>
    ensures { IfOk result (λ words. texts_of words.items ≡ slice_split spec.is_between text.now) }
{
    text.split(|byte| is_between(*byte)).collect(alloc)
}

/// The words of a text that may be pages.
fn page_words(alloc: Global, text: &[u8]) -> Result<Vec<&[u8]>, AllocError>
    ensures { IfOk result (λ words. texts_of words.items ≡ spec.page_words text.now) }
{
    let found = split(alloc, text)?;
    let mut words = Vec::new(alloc);
    for word in &found {
        push_bare(&mut words, word)?;
    }
    Ok(words)
}

/// The first page with a number.
fn first_number<'a>(words: &[&'a [u8]]) -> Option<&'a [u8]>
    ensures { option_copied result ≡ spec.first_number (texts_of words.now) }
{
    for word in words {
        if is_numbered(word) {
            return Some(numbered(word));
        }
    }
    None
}

/// The first page; only the first word may be a Roman numeral.
fn first_page<'a>(words: &[&'a [u8]]) -> Option<&'a [u8]>
    ensures { option_copied result ≡ spec.first_page (texts_of words.now) }
{
    match words {
        [] => None,
        [word, others @ ..] => match page(word) {
            Some(page) => Some(page),
            None => first_number(others),
        },
    }
}

fn begins_with_number(words: &[&[u8]]) -> bool
    ensures { result ≡ spec.begins_with_number (texts_of words.now) }
{
    match words {
        [] => false,
        [word, ..] => is_numbered(word),
    }
}

/// Whether the hyphen is a part of a page such as `C-12`.
fn is_sectioned(first: &[u8], lasts: &[&[u8]]) -> bool
    ensures { result ≡ spec.is_sectioned first.now (texts_of lasts.now) }
{
    first.len() == 1 && digits(first) == 0 && begins_with_number(lasts)
}

fn first_word<'a>(words: &[&'a [u8]]) -> Option<&'a [u8]>
    ensures { option_copied result ≡ slice_get (texts_of words.now) 0 }
{
    match words {
        [] => None,
        [word, ..] => Some(word),
    }
}

/// Whether the first word is a page, and the second one, such as `to`, says that the last page is next.
fn is_range(word: &[u8], between: &[u8]) -> bool
    ensures { result ≡ (is_some (spec_page word.now) && is_range_word between.now) }
{
    page(word).is_some() && is_range_word(between)
}

/// The word at which a range ends that begins with this one, if these are after it.
fn after_word<'a>(word: &[u8], others: &[&'a [u8]], lasts: &[&'a [u8]]) -> Option<&'a [u8]>
    ensures { option_copied result ≡ spec.last_word (word.now ∷ texts_of others.now) (texts_of lasts.now) }
{
    match others {
        [] => first_word(lasts),
        [between, words @ ..] if is_range(word, between) => first_word(words),
        _ => None,
    }
}

/// The word at which a range ends: after a hyphen that has but one word before it, or after a page and such a word.
fn last_word<'a>(firsts: &[&'a [u8]], lasts: &[&'a [u8]]) -> Option<&'a [u8]>
    ensures { option_copied result ≡ spec.last_word (texts_of firsts.now) (texts_of lasts.now) }
{
    match firsts {
        [] => None,
        [word, others @ ..] => after_word(word, others, lasts),
    }
}

/// The last page.
fn last_in<'a>(first: &'a [u8], firsts: &[&'a [u8]], lasts: &[&'a [u8]]) -> Option<LastPage<'a>>
    ensures { option_map spec.in_full result
        ≡ spec.last_in first.now (texts_of firsts.now) (texts_of lasts.now) }
{
    let word = last_word(firsts, lasts)?;
    last_page(first, page(word)?)
}

fn from_page<'a>(
    first: Option<&'a [u8]>,
    firsts: &[&'a [u8]],
    lasts: &[&'a [u8]],
) -> Option<Pages<'a>>
    ensures { option_map spec.range result
        ≡ spec.from_page (option_copied first.entry) (texts_of firsts.now) (texts_of lasts.now) }
{
    let first = first?;
    if is_sectioned(first, lasts) {
        return None;
    }
    Some(Pages {
        first,
        last: last_in(first, firsts, lasts),
    })
}
