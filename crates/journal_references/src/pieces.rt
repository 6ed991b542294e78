//! The pieces of a reference.

ghost use Rattle.std.specs.Prelude.{◌≡◌, ◌≤◌, IfSome, count_by, length, slice_index};
ghost use Rattle.std.specs.Char.{is_ascii_alphabetic, is_ascii_digit};
ghost use Rattle.std.specs.List.{list_all, list_any, prefix_len};
ghost use Rattle.journal_references.specs.Pieces as spec;

use crate::runs::{Class, are, count, has_one, run};
use crate::words::letters;
use uri_text::begins_in_any_case;

/// How many bytes a number of a volume or an issue has at most.
const MOST_BYTES_OF_NUMBER: usize = 9;

/// The most bytes of an issue in brackets, and of the month and the day between a year and a volume.
const MOST_BYTES_INSIDE: usize = 20;

/// How many bytes pages have at most.
const MOST_BYTES_OF_PAGES: usize = 30;

/// A piece of a reference: the longest run of bytes of its class, if it passes its test.
#[derive(Clone, Copy)]
pub(crate) enum Piece {
    /// The number of a volume.
    Volume,
    /// The number of a volume that is no year.
    Plain,
    /// The number of an issue.
    Issue,
    /// The number of an issue that does not end with a year.
    PlainIssue,
    /// An issue in brackets.
    Inner,
    /// A page or a range of pages, or the number of an article.
    Pages,
    /// A year.
    Year,
    /// A month and a day after a year, or nothing. They are not kept.
    Days,
}

pub(crate) fn is_hyphen(byte: u8) -> bool
    ensures { result ≡ spec.is_hyphen byte }
{
    byte == b'-'
}

fn is_page_byte(byte: u8) -> bool
    ensures { result ≡ spec.is_page_byte byte }
{
    byte.is_ascii_alphanumeric() || is_hyphen(byte)
}

fn is_number_byte(byte: u8) -> bool
    ensures { result ≡ spec.is_number_byte byte }
{
    is_page_byte(byte) || byte == b'/'
}

fn is_inner_byte(byte: u8) -> bool
    ensures { result ≡ spec.is_inner_byte byte }
{
    is_number_byte(byte) || byte == b' ' || byte == b'.'
}

/// The byte at the index; NUL past the end.
fn byte_at(text: &[u8], index: usize) -> u8
    ensures { result ≡ slice_index text.now index }
{
    if index < text.len() { text[index] } else { 0 }
}

/// The last byte; NUL if there is none.
pub(crate) fn last(text: &[u8]) -> u8
    ensures { result ≡ spec.last text.now }
{
    byte_at(text, text.len().saturating_sub(1))
}

/// Whether there is a letter or a digit at both ends.
fn is_closed(text: &[u8]) -> bool
    ensures { result ≡ spec.is_closed text.now }
{
    byte_at(text, 0).is_ascii_alphanumeric() && last(text).is_ascii_alphanumeric()
}

fn are_digits(text: &[u8]) -> bool
    ensures { result ≡ list_all is_ascii_digit text.now }
{
    are(Class::Digit, text)
}

pub(crate) fn has_digit(text: &[u8]) -> bool
    ensures { result ≡ list_any is_ascii_digit text.now }
{
    has_one(Class::Digit, text)
}

fn count_of_digits(text: &[u8]) -> usize
    ensures { result ≡ count_by is_ascii_digit text.now }
{
    count(Class::Digit, text)
}

fn count_of_letters(text: &[u8]) -> usize
    ensures { result ≡ count_by is_ascii_alphabetic text.now }
{
    count(Class::Letter, text)
}

/// Whether this is a year from 1500 to 2099.
fn is_year(text: &[u8]) -> bool
    ensures { result ≡ spec.is_year text.now }
{
    text.len() == 4
        && are_digits(text)
        && (text[0] == b'1' && text[1] >= b'5' || text[0] == b'2' && text[1] == b'0')
}

fn is_volume(text: &[u8]) -> bool
    ensures { result ≡ spec.is_volume text.now }
{
    byte_at(text, 0).is_ascii_digit()
        && is_closed(text)
        && text.len() <= MOST_BYTES_OF_NUMBER
        && count_of_letters(text) <= 1
}

fn is_issue(text: &[u8]) -> bool
    ensures { result ≡ spec.is_issue text.now }
{
    has_digit(text) && is_closed(text) && text.len() <= MOST_BYTES_OF_NUMBER
}

fn ends_with_year(text: &[u8]) -> bool
    ensures { result ≡ spec.ends_with_year text.now }
{
    is_year(text.split_at(text.len().saturating_sub(4)).1)
}

/// Whether the digits at the beginning are a year.
fn begins_with_year(text: &[u8]) -> bool
    ensures { result ≡ spec.begins_with_year text.now }
{
    is_year(text.split_at(run(Class::Digit, text)).0)
}

/// Whether this is an issue, as it may be in brackets.
fn is_inner(text: &[u8]) -> bool
    ensures { result ≡ spec.is_inner text.now }
{
    (has_digit(text) || begins_in_any_case(text, b"suppl"))
        && is_closed(text)
        && text.len() <= MOST_BYTES_INSIDE
        && !(ends_with_year(text) || begins_with_year(text))
}

/// Whether this may be a page in digits, or a range that begins with one.
fn is_numbered(text: &[u8]) -> bool
    ensures { result ≡ spec.is_numbered text.now }
{
    let count = letters(text);
    count <= 3
        && byte_at(text, count).is_ascii_digit()
        && (last(text).is_ascii_digit()
            || byte_at(text, text.len().saturating_sub(2)).is_ascii_digit())
}

pub(crate) fn is_roman_byte(byte: u8) -> bool
    ensures { result ≡ spec.is_roman_byte byte }
{
    let letter = byte.to_ascii_lowercase();
    letter == b'i' || letter == b'v' || letter == b'x' || letter == b'l' || is_hyphen(byte)
}

fn are_roman(text: &[u8]) -> bool
    ensures { result ≡ list_all spec.is_roman_byte text.now }
{
    are(Class::RomanByte, text)
}

fn has_hyphen(text: &[u8]) -> bool
    ensures { result ≡ list_any spec.is_hyphen text.now }
{
    has_one(Class::Hyphen, text)
}

/// Whether this is a range of pages in Roman numerals.
fn is_roman(text: &[u8]) -> bool
    ensures { result ≡ spec.is_roman text.now }
{
    are_roman(text) && has_hyphen(text)
}

fn are_pages(text: &[u8]) -> bool
    ensures { result ≡ spec.are_pages text.now }
{
    is_closed(text) && text.len() <= MOST_BYTES_OF_PAGES && (is_numbered(text) || is_roman(text))
}

/// Whether this may be between a year and `;`.
fn are_days(text: &[u8]) -> bool
    ensures { result ≡ spec.are_days text.now }
{
    text.len() <= MOST_BYTES_INSIDE && count_of_digits(text) <= 3
}

impl Piece {
    /// Whether the byte is of the piece's class.
    fn is_byte(self, byte: u8) -> bool
        ensures { result ≡ spec.is_byte self byte }
    {
        match self {
            Piece::Volume | Piece::Plain | Piece::Issue => is_number_byte(byte),
            Piece::PlainIssue | Piece::Year => is_number_byte(byte),
            Piece::Inner | Piece::Days => is_inner_byte(byte),
            Piece::Pages => is_page_byte(byte),
        }
    }

    /// How many bytes of the class the text begins with.
    fn run(self, text: &[u8]) -> usize
        ensures value { result ≡ prefix_len (spec.is_byte self) text.now }
        ensures within { result ≤ length text.now }
    {
        for (at, byte) in text.iter().enumerate() {
            if !self.is_byte(*byte) {
                return at;
            }
        }
        text.len()
    }

    /// Whether the run passes the test.
    fn is_piece(self, text: &[u8]) -> bool
        ensures { result ≡ spec.is_piece self text.now }
    {
        match self {
            Piece::Volume => is_volume(text),
            Piece::Plain => is_volume(text) && !is_year(text),
            Piece::Issue => is_issue(text),
            Piece::PlainIssue => is_issue(text) && !ends_with_year(text),
            Piece::Inner => is_inner(text),
            Piece::Pages => are_pages(text),
            Piece::Year => is_year(text),
            Piece::Days => are_days(text),
        }
    }
}

/// How many bytes the piece has with which the text begins.
pub(crate) fn piece_length(piece: Piece, text: &[u8]) -> Option<usize>
    ensures value { result ≡ spec.piece_length piece text.now }
    ensures within { IfSome result (λ n. n ≤ length text.now) }
{
    let count = piece.run(text);
    if piece.is_piece(text.split_at(count).0) {
        Some(count)
    } else {
        None
    }
}
