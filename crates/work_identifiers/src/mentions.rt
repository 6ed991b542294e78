//! Identifiers that titles mention among their words.

ghost use Rattle.std.specs.Prelude.{◌≡◌, ◌≤◌, [], IfOk, IfSome, length};
ghost use Rattle.std.specs.List.{count_by, prefix_len};
ghost use Rattle.std.specs.Option.{option_copied};
ghost use Rattle.std.specs.Str.{IsAscii};
ghost use Rattle.text_model.specs.Texts.{texts_of};
ghost use Rattle.work_identifiers.specs.Mentions as spec;

use crate::addresses::is_one_of;
use crate::ends::{from_start, to_end};
use crate::namespace::Namespace;
use crate::places::{identifier_alone, identifier_in};
use std::alloc::{AllocError, Global};
use uri_text::begins_in_any_case;

/// How many bytes of a title are searched at most.
const LONGEST_TITLE: usize = 1000;

/// How many digits an identifier among words has at least: one more than a year.
const FEWEST_DIGITS: usize = 5;

/// How many words of a title have so many digits at most. With more it is a table or a list.
const MOST_NUMBERS: usize = 4;

/// The first identifier that a title mentions, as `Silt and tides. doi:10.1000/182` does: a word of five digits or
/// more that `identifier_in` reads, or such a number after a word that says so, as `PMID:` does.
///
/// A title of more than 1,000 bytes, or with more than four such words, mentions none. Nor does that of an erratum or
/// of another notice: it has the identifier of the article that it is about. `AllocError` if an allocation failed.
pub fn mention_in(
    alloc: Global,
    namespace: Namespace,
    text: &[u8],
) -> Result<Option<&[u8]>, AllocError>
    ensures value { IfOk result (λ found. option_copied found ≡ spec.mention_in namespace text.now) }
    ensures ascii { IfOk result (λ found. IfSome found (λ identifier. IsAscii identifier.now)) }
{
    if !is_searched(text) {
        return Ok(None);
    }
    let words = words_of(alloc, text)?;
    mention_among(alloc, namespace, &words)
}

/// The first identifier of few words with numbers.
fn mention_among<'a>(
    alloc: Global,
    namespace: Namespace,
    words: &[&'a [u8]],
) -> Result<Option<&'a [u8]>, AllocError>
    ensures value { IfOk result
        (λ found. option_copied found ≡ spec.mention_among namespace (texts_of words.now)) }
    ensures ascii { IfOk result (λ found. IfSome found (λ identifier. IsAscii identifier.now)) }
{
    if numbers_among(words) <= MOST_NUMBERS {
        first_mention(alloc, namespace, words)
    } else {
        Ok(None)
    }
}

/// How many words have numbers.
fn numbers_among(words: &[&[u8]]) -> usize
    ensures { result ≡ count_by spec.has_number (texts_of words.now) }
{
    words.iter().filter(|word| has_number(word)).count()
}

fn is_searched(text: &[u8]) -> bool
    ensures { result ≡ spec.is_searched text.now }
{
    text.len() <= LONGEST_TITLE && has_number(text) && !is_notice(text)
}

fn digits_of(text: &[u8]) -> usize
    ensures { result ≡ spec.digits_of text.now }
{
    text.iter().filter(|byte| byte.is_ascii_digit()).count()
}

/// Whether a text has at least the digits of an identifier.
fn has_number(text: &[u8]) -> bool
    ensures { result ≡ spec.has_number text.now }
{
    digits_of(text) >= FEWEST_DIGITS
}

/// Whether this is the title of a notice about another article.
fn is_notice(text: &[u8]) -> bool
    ensures { result ≡ spec.is_notice text.now }
{
    begins_with_one_of(notices(), after_signer(from_letter(text)))
}

/// What is after the first word, if that names who signs a notice.
fn after_signer(text: &[u8]) -> &[u8]
    ensures { result.now ≡ spec.after_signer text.now }
{
    if begins_with_one_of(signers(), text) {
        text.split_at(text.len().min(word_length(text) + 1)).1
    } else {
        text
    }
}

/// The text from its first letter.
fn from_letter(text: &[u8]) -> &[u8]
    ensures { result.now ≡ spec.from_letter text.now }
{
    text.split_at(length_before_letter(text)).1
}

fn length_before_letter(text: &[u8]) -> usize
    ensures value { result ≡ prefix_len spec.is_no_letter text.now }
    ensures within { result ≤ length text.now }
{
    text.iter().take_while(|byte| is_no_letter(**byte)).count()
}

fn word_length(text: &[u8]) -> usize
    ensures value { result ≡ prefix_len spec.is_no_space text.now }
    ensures within { result ≤ length text.now }
{
    text.iter().take_while(|byte| is_no_space(**byte)).count()
}

fn is_no_letter(byte: u8) -> bool
    ensures { result ≡ spec.is_no_letter byte }
{
    !byte.is_ascii_alphabetic()
}

fn is_space(byte: u8) -> bool
    ensures { result ≡ spec.is_space byte }
{
    byte <= b' '
}

fn is_no_space(byte: u8) -> bool
    ensures { result ≡ spec.is_no_space byte }
{
    !is_space(byte)
}

/// Whether a text has one of these beginnings, in capital or small letters.
fn begins_with_one_of(beginnings: &[&str], text: &[u8]) -> bool
    ensures { result ≡ spec.begins_with_one_of (texts_of beginnings.now) text.now }
{
    for beginning in beginnings {
        if begins_in_any_case(text, beginning.as_bytes()) {
            return true;
        }
    }
    false
}

/// What the titles of notices begin with.
fn notices() -> &'static [&'static str]
    ensures { texts_of result.now ≡ spec.notices }
{
    &[
        "errat",
        "corrigend",
        "correction",
        "retract",
        "withdraw",
        "expression of",
        "comment",
        "reply",
        "response",
        "addend",
    ]
}

/// Who may be named before that.
fn signers() -> &'static [&'static str]
    ensures { texts_of result.now ≡ spec.signers }
{
    &["author", "publisher"]
}

/// The words of a text; some may be empty.
fn words_of(alloc: Global, text: &[u8]) -> Result<Vec<&[u8]>, AllocError>
    ensures { IfOk result (λ words. texts_of words.items ≡ spec.words_of text.now) }
{
    text.split(|byte| is_space(*byte)).collect(alloc)
}

/// The first identifier that is one of these words.
fn first_mention<'a>(
    alloc: Global,
    namespace: Namespace,
    words: &[&'a [u8]],
) -> Result<Option<&'a [u8]>, AllocError>
    ensures value { IfOk result
        (λ found. option_copied found ≡ spec.first_mention namespace [] (texts_of words.now)) }
    ensures ascii { IfOk result (λ found. IfSome found (λ identifier. IsAscii identifier.now)) }
{
    let mut before: &[u8] = b"";
    for word in words {
        if let Some(identifier) = mention_at(alloc, namespace, before, word)? {
            return Ok(Some(identifier));
        }
        before = word;
    }
    Ok(None)
}

/// The identifier that a word with a number is, by itself or after the word before it.
fn mention_at<'a>(
    alloc: Global,
    namespace: Namespace,
    before: &[u8],
    word: &'a [u8],
) -> Result<Option<&'a [u8]>, AllocError>
    ensures value { IfOk result
        (λ found. option_copied found ≡ spec.mention_at namespace before.now word.now) }
    ensures ascii { IfOk result (λ found. IfSome found (λ identifier. IsAscii identifier.now)) }
{
    if !has_number(word) {
        return Ok(None);
    }
    match identifier_in(alloc, namespace, word)? {
        Some(identifier) => Ok(Some(identifier)),
        None => Ok(labelled(namespace, before, word)),
    }
}

/// The number that a word is, after a word that says which one.
fn labelled<'a>(namespace: Namespace, before: &[u8], word: &'a [u8]) -> Option<&'a [u8]>
    ensures value { option_copied result ≡ spec.labelled namespace before.now word.now }
    ensures ascii { IfSome result (λ identifier. IsAscii identifier.now) }
{
    if is_label(namespace, before) {
        identifier_alone(namespace, word)
    } else {
        None
    }
}

/// Whether the word says which number is after it.
fn is_label(namespace: Namespace, word: &[u8]) -> bool
    ensures { result ≡ spec.is_label namespace word.now }
{
    is_one_of(namespace.words(), to_end(from_start(word)))
}
