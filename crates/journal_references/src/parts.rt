//! The parts of forms, and how many bytes of a text each takes.

ghost use Rattle.std.specs.Prelude.{◌≡◌, ◌≤◌, ◌+◌, IfSome, length};
ghost use Rattle.journal_references.specs.Parts as spec;

use crate::dates::{begins_with_day, date_length, month_length};
use crate::pieces::{Piece, piece_length};
use crate::runs::{Class, run};
use crate::words::{Word, word_length};

/// A part of a form.
#[derive(Clone, Copy)]
pub(crate) enum Part {
    /// A sign, which may have spaces before and after it.
    Sign(u8),
    /// Punctuation, spaces, both or nothing.
    Mark,
    /// A closing bracket, or nothing.
    Closing,
    /// The title of an issue, before `;`.
    Title,
    /// The name of a month or a season, maybe with a day, or nothing.
    Month,
    /// The English name of a month, maybe with a day, or nothing.
    Date,
    /// No day before a month.
    NoDay,
    /// A word.
    Needed(Word),
    /// A word, or nothing.
    Maybe(Word),
    /// A piece.
    Read(Piece),
}

/// How many spaces the text begins with.
fn spaces(text: &[u8]) -> usize
    ensures value { result ≡ spec.spaces text.now }
    ensures within { result ≤ length text.now }
{
    run(Class::Space, text)
}

fn sign_length(sign: u8, text: &[u8]) -> Option<usize>
    ensures value { result ≡ spec.sign_length sign text.now }
    ensures within { IfSome result (λ n. n ≤ length text.now) }
{
    let before = spaces(text);
    match text.split_at(before).1 {
        [first, rest @ ..] if *first == sign => Some(before + 1 + spaces(rest)),
        _ => None,
    }
}

/// `:`, `,`, `;` or `.`.
fn is_mark(byte: u8) -> bool
    ensures { result ≡ spec.is_mark byte }
{
    byte == b':' || byte == b',' || byte == b';' || byte == b'.'
}

fn mark_length(text: &[u8]) -> usize
    ensures value { result ≡ spec.mark_length text.now }
    ensures within { result ≤ length text.now }
{
    let before = spaces(text);
    match text.split_at(before).1 {
        [first, rest @ ..] if is_mark(*first) => before + 1 + spaces(rest),
        _ => before,
    }
}

/// How many bytes a closing bracket has, if the text begins with one.
fn closing_length(text: &[u8]) -> usize
    ensures value { result ≡ spec.closing_length text.now }
    ensures within { result ≤ length text.now }
{
    match text {
        [first, ..] if *first == b')' => 1,
        _ => 0,
    }
}

/// How many bytes of the text the part takes, if the text begins with it.
pub(crate) fn part_length(part: Part, text: &[u8]) -> Option<usize>
    ensures value { result ≡ spec.part_length part text.now }
    ensures within { IfSome result (λ n. n ≤ length text.now) }
{
    match part {
        Part::Sign(sign) => sign_length(sign, text),
        Part::Mark => Some(mark_length(text)),
        Part::Closing => Some(closing_length(text)),
        Part::Title => Some(run(Class::TitleByte, text)),
        Part::Month => Some(month_length(text)),
        Part::Date => Some(date_length(text)),
        Part::NoDay if begins_with_day(text) => None,
        Part::NoDay => Some(0),
        Part::Needed(word) => word_length(word, text),
        Part::Maybe(word) => Some(word_length(word, text).unwrap_or(0)),
        Part::Read(piece) => piece_length(piece, text),
    }
}
