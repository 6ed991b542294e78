//! The ends of titles.

ghost use Rattle.std.specs.Prelude.{◌≡◌};
ghost use Rattle.std.specs.Option.{option_copied};
ghost use Rattle.std.specs.Char.{is_ascii_digit};
ghost use Rattle.std.specs.List.{list_all};
ghost use Rattle.retraction_remarks.specs.Parts.{after_parts};
ghost use Rattle.retraction_remarks.specs.Remarks as spec;

use crate::parts::{Part, after_parts};

/// How many bytes a note has at most.
const MOST_BYTES_OF_NOTE: usize = 150;

/// How many bytes a remark has at most.
const MOST_BYTES: usize = 200;

/// Where a title may end before its bytes do.
#[derive(Clone, Copy)]
pub(crate) enum End {
    /// At a remark.
    AtRemark,
    /// At the bracket of a translated title.
    AtBracket,
}

fn is_loose(byte: u8) -> bool
    ensures { result ≡ spec.is_loose byte }
{
    byte == b' ' || byte == b'.'
}

fn are_loose(text: &[u8]) -> bool
    ensures { result ≡ list_all spec.is_loose text.now }
{
    for byte in text {
        if !is_loose(*byte) {
            return false;
        }
    }
    true
}

/// Whether nothing else is left of a title.
fn is_over(text: &[u8]) -> bool
    ensures { result ≡ spec.is_over text.now }
{
    text.len() <= 3 && are_loose(text)
}

fn is_closing(byte: u8) -> bool
    ensures { result ≡ spec.is_closing byte }
{
    byte == b']' || byte == b')' || byte == b'*'
}

/// Whether a remark in brackets ends here.
fn closes(text: &[u8]) -> bool
    ensures { result ≡ spec.closes text.now }
{
    match text {
        [] => false,
        [first, rest @ ..] => is_closing(*first) && is_over(rest),
    }
}

/// Whether the byte may be in a note.
fn is_inner(byte: u8) -> bool
    ensures { result ≡ spec.is_inner byte }
{
    byte != b'[' && byte != b']'
}

/// Whether a remark in brackets ends here or later.
fn closes_later(text: &[u8]) -> bool
    ensures { result ≡ spec.closes_later text.now }
{
    for (at, byte) in text.iter().enumerate() {
        if closes(text.split_at(at).1) {
            return true;
        }
        if !is_inner(*byte) {
            return false;
        }
    }
    false
}

fn is_note(text: &[u8]) -> bool
    ensures { result ≡ spec.is_note text.now }
{
    text.len() <= MOST_BYTES_OF_NOTE && closes_later(text)
}

fn are_digits(text: &[u8]) -> bool
    ensures { result ≡ list_all is_ascii_digit text.now }
{
    for byte in text {
        if !byte.is_ascii_digit() {
            return false;
        }
    }
    true
}

fn is_year(text: &[u8]) -> bool
    ensures { result ≡ spec.is_year text.now }
{
    let (year, rest) = text.split_at(text.len().min(4));
    are_digits(year) && closes(rest)
}

/// Whether a note is after these parts.
fn has_note(parts: &[Part], text: &[u8]) -> bool
    ensures { result ≡ spec.passes spec.is_note (after_parts parts.now text.now) }
{
    match after_parts(parts, text) {
        Some(rest) => is_note(rest),
        None => false,
    }
}

/// Whether a year is after a space.
fn has_year(text: &[u8]) -> bool
    ensures { result ≡ spec.has_year text.now }
{
    match after_parts(&[Part::Gap], text) {
        Some(rest) => is_year(rest),
        None => false,
    }
}

/// Whether this is the end of a remark in brackets, after its words.
#[tactic(auto, unfolding(crate::specs::Remarks::ends_remark))]
fn ends_remark(text: &[u8]) -> bool
    ensures { result ≡ spec.ends_remark text.now }
{
    closes(text)
        || has_note(&[Part::Space, Part::Separator], text)
        || has_note(&[Part::Preposition], text)
        || has_year(text)
}

/// Whether this is a remark in brackets after a title.
#[tactic(auto, unfolding(crate::specs::Remarks::opened, crate::specs::Remarks::is_bracketed))]
fn is_bracketed(text: &[u8]) -> bool
    ensures { result ≡ spec.is_bracketed text.now }
{
    let words = [
        Part::Spaces,
        Part::Opening,
        Part::Space,
        Part::Sentence,
        Part::Word,
        Part::Work,
    ];
    match after_parts(&words, text) {
        Some(rest) => ends_remark(rest),
        None => false,
    }
}

fn is_capital(text: &[u8]) -> bool
    ensures { result ≡ spec.is_capital text.now }
{
    for byte in text {
        if byte.is_ascii_lowercase() {
            return false;
        }
    }
    true
}

/// Whether this is a remark in capitals after a title.
#[tactic(auto, unfolding(crate::specs::Remarks::separated, crate::specs::Remarks::is_separated))]
fn is_separated(text: &[u8]) -> bool
    ensures { result ≡ spec.is_separated text.now }
{
    let words = [
        Part::Spaces,
        Part::Separator,
        Part::Spaces,
        Part::Word,
        Part::Label,
    ];
    match after_parts(&words, text) {
        Some(rest) => is_over(rest) && is_capital(text),
        None => false,
    }
}

/// Whether this is a remark after a title.
#[tactic(auto, unfolding(crate::specs::Remarks::is_remark))]
fn is_remark(text: &[u8]) -> bool
    ensures { result ≡ spec.is_remark text.now }
{
    text.len() <= MOST_BYTES && (is_bracketed(text) || is_separated(text))
}

/// Whether this is the end of a translated title.
fn is_bracket(text: &[u8]) -> bool
    ensures { result ≡ spec.is_bracket text.now }
{
    match text {
        [] => false,
        [first, rest @ ..] => *first == b']' && is_over(rest),
    }
}

fn is_at(end: End, text: &[u8]) -> bool
    ensures { result ≡ spec.is_at end text.now }
{
    match end {
        End::AtRemark => is_remark(text),
        End::AtBracket => is_bracket(text),
    }
}

/// What is before the first place where a title ends so.
pub(crate) fn before_end(end: End, text: &[u8]) -> Option<&[u8]>
    ensures { option_copied result ≡ spec.before_place (spec.is_at end) text.now }
{
    for at in 0..text.len() {
        let (front, rest) = text.split_at(at);
        if is_at(end, rest) {
            return Some(front);
        }
    }
    None
}
