//! The words of a text.

ghost use Rattle.std.specs.Prelude.{◌≡◌, ◌≤◌, ◌++◌, length, IfOk, OnOk, slice_index};
ghost use Rattle.std.specs.Char.{is_ascii_alphabetic, is_ascii_digit};
ghost use Rattle.std.specs.List.{list_all, prefix_len, slice_split};
ghost use Rattle.text_model.specs.Texts.{texts_of};
ghost use Rattle.article_places.specs.Words as spec;

use crate::labels::{is_label, is_supplement_word};
use crate::runs::{Class, are, has_digit, run};
use std::alloc::{AllocError, Global};

/// Spaces, control characters, punctuation, quotes and closing brackets.
fn is_gap(byte: u8) -> bool
    ensures { result ≡ spec.is_gap byte }
{
    byte <= b' '
        || byte == b'.'
        || byte == b','
        || byte == b':'
        || byte == b';'
        || byte == b'"'
        || byte == b'\''
        || byte == b')'
        || byte == b']'
}

pub(crate) fn is_open(byte: u8) -> bool
    ensures { result ≡ spec.is_open byte }
{
    byte == b'(' || byte == b'['
}

/// How many letters the word begins with.
pub(crate) fn letters(word: &[u8]) -> usize
    ensures value { result ≡ spec.letters word.now }
    ensures within { result ≤ length word.now }
{
    run(Class::Letter, word)
}

/// How many bytes are before the first opening bracket.
fn outside(text: &[u8]) -> usize
    ensures value { result ≡ prefix_len spec.is_not_open text.now }
    ensures within { result ≤ length text.now }
{
    run(Class::NotOpen, text)
}

/// Whether the word has a label of two letters or more, and a number that begins with a digit.
fn is_joined(word: &[u8]) -> bool
    ensures { result ≡ spec.is_joined word.now }
{
    let letters = letters(word);
    if letters < 2 || !byte_at(word, letters).is_ascii_digit() {
        return false;
    }
    let label = word.split_at(letters).0;
    is_label(label) || is_supplement_word(label)
}

/// Appends a word, a joined one as two.
fn push_apart<'a>(words: &mut Vec<&'a [u8]>, word: &'a [u8]) -> Result<(), AllocError>
    ensures { OnOk result (texts_of words.new.items ≡ texts_of words.old.items ++ spec.apart word.now) }
{
    if word.is_empty() {
        return Ok(());
    }
    if is_joined(word) {
        let (label, number) = word.split_at(letters(word));
        words.push(label)?;
        words.push(number)?;
    } else {
        words.push(word)?;
    }
    Ok(())
}

/// The parts of a text between gaps; some may be empty.
fn parts(alloc: Global, text: &[u8]) -> Result<Vec<&[u8]>, AllocError>
    ensures { IfOk result (λ parts. texts_of parts.items ≡ slice_split spec.is_gap text.now) }
{
    text.split(|byte| is_gap(*byte)).collect(alloc)
}

/// The words of a text without brackets.
fn words_in(alloc: Global, text: &[u8]) -> Result<Vec<&[u8]>, AllocError>
    ensures { IfOk result (λ words. texts_of words.items ≡ spec.words_in text.now) }
{
    let parts = parts(alloc, text)?;
    let mut words = Vec::new(alloc);
    for part in &parts {
        push_apart(&mut words, part)?;
    }
    Ok(words)
}

/// Appends the opening bracket with which a text begins, and the words after it.
fn push_bracketed<'a>(
    alloc: Global,
    words: &mut Vec<&'a [u8]>,
    text: &'a [u8],
) -> Result<(), AllocError>
    ensures { OnOk result (texts_of words.new.items ≡ texts_of words.old.items ++ spec.bracketed text.now) }
{
    if text.is_empty() {
        return Ok(());
    }
    let (bracket, inside) = text.split_at(1);
    words.push(bracket)?;
    let mut more = words_in(alloc, inside)?;
    words.append(&mut more)?;
    Ok(())
}

/// The words of a text, of which an opening bracket is one.
pub(crate) fn words(alloc: Global, text: &[u8]) -> Result<Vec<&[u8]>, AllocError>
    ensures { IfOk result (λ words. texts_of words.items ≡ spec.words text.now) }
{
    let (before, bracketed) = text.split_at(outside(text));
    let mut words = words_in(alloc, before)?;
    push_bracketed(alloc, &mut words, bracketed)?;
    Ok(words)
}

pub(crate) fn is_number_byte(byte: u8) -> bool
    ensures { result ≡ spec.is_number_byte byte }
{
    byte.is_ascii_alphanumeric() || byte == b'-' || byte == b'/'
}

fn are_number_bytes(word: &[u8]) -> bool
    ensures { result ≡ list_all spec.is_number_byte word.now }
{
    are(Class::NumberByte, word)
}

/// Whether the word is a number as volumes and issues have them.
pub(crate) fn is_number(word: &[u8]) -> bool
    ensures { result ≡ spec.is_number word.now }
{
    are_number_bytes(word) && has_digit(word)
}

/// The byte at the index; NUL past the end.
pub(crate) fn byte_at(text: &[u8], index: usize) -> u8
    ensures { result ≡ slice_index text.now index }
{
    if index < text.len() { text[index] } else { 0 }
}

pub(crate) fn are_digits(text: &[u8]) -> bool
    ensures { result ≡ list_all is_ascii_digit text.now }
{
    are(Class::Digit, text)
}

pub(crate) fn are_letters(word: &[u8]) -> bool
    ensures { result ≡ list_all is_ascii_alphabetic word.now }
{
    are(Class::Letter, word)
}
