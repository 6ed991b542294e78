//! Bytes of one class in a text.

ghost use Rattle.std.specs.Prelude.{◌≡◌, ◌≤◌, count_by, length};
ghost use Rattle.std.specs.List.{list_all, list_any, prefix_len};
ghost use Rattle.journal_references.specs.Runs as spec;

use crate::pieces::{is_hyphen, is_roman_byte};

/// A class of bytes.
#[derive(Clone, Copy)]
pub(crate) enum Class {
    Digit,
    Letter,
    Space,
    /// Of the title of an issue.
    TitleByte,
    /// Between a word and what is next to it.
    WordGap,
    /// Between a day and the month after it.
    DayGap,
    /// Between a month or a day and what is next to it.
    MonthGap,
    /// Of the name of a season, or of a month in another language.
    NameByte,
    /// Of a range of pages in Roman numerals.
    RomanByte,
    Hyphen,
}

impl Class {
    fn has(self, byte: u8) -> bool
        ensures { result ≡ spec.has self byte }
    {
        match self {
            Class::Digit => byte.is_ascii_digit(),
            Class::Letter => byte.is_ascii_alphabetic(),
            Class::Space => byte == b' ',
            Class::TitleByte => byte != b';',
            Class::WordGap => byte == b' ' || byte == b'.' || byte == b':',
            Class::DayGap => byte == b' ' || byte == b'.',
            Class::MonthGap => byte == b' ' || byte == b'.' || byte == b',',
            Class::NameByte => {
                byte.is_ascii_alphabetic() || byte >= 0x80 || byte == b'-' || byte == b'/'
            }
            Class::RomanByte => is_roman_byte(byte),
            Class::Hyphen => is_hyphen(byte),
        }
    }
}

/// How many bytes of the class the text begins with.
pub(crate) fn run(class: Class, text: &[u8]) -> usize
    ensures value { result ≡ prefix_len (spec.has class) text.now }
    ensures within { result ≤ length text.now }
{
    for (at, byte) in text.iter().enumerate() {
        if !class.has(*byte) {
            return at;
        }
    }
    text.len()
}

/// Whether the text has no byte of another class.
pub(crate) fn are(class: Class, text: &[u8]) -> bool
    ensures { result ≡ list_all (spec.has class) text.now }
{
    for byte in text {
        if !class.has(*byte) {
            return false;
        }
    }
    true
}

/// Whether the text has a byte of the class.
pub(crate) fn has_one(class: Class, text: &[u8]) -> bool
    ensures { result ≡ list_any (spec.has class) text.now }
{
    for byte in text {
        if class.has(*byte) {
            return true;
        }
    }
    false
}

/// How many bytes of the class the text has.
pub(crate) fn count(class: Class, text: &[u8]) -> usize
    ensures { result ≡ count_by (spec.has class) text.now }
{
    text.iter().filter(|byte| class.has(**byte)).count()
}
