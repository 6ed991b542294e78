//! Bytes of one class in a text.

ghost use Rattle.std.specs.Prelude.{◌≡◌, ◌≤◌, length};
ghost use Rattle.std.specs.Char.{is_ascii_digit};
ghost use Rattle.std.specs.List.{list_all, list_any, prefix_len};
ghost use Rattle.article_places.specs.Runs as spec;

use crate::enumerations::{is_in_part, is_roman};
use crate::page_forms::{is_numeral, is_stop};
use crate::pages::is_no_hyphen;
use crate::words::{is_number_byte, is_open};

/// A class of bytes.
#[derive(Clone, Copy)]
pub(crate) enum Class {
    Digit,
    Letter,
    Alphanumeric,
    /// Of a Roman numeral.
    Numeral,
    /// Of a Roman numeral with no letter but `i`, `v` and `x`.
    SmallNumeral,
    /// Of the number of a volume or an issue.
    NumberByte,
    /// Of one number of several.
    InPart,
    /// No opening bracket.
    NotOpen,
    NoHyphen,
    Stop,
}

impl Class {
    fn has(self, byte: u8) -> bool
        ensures { result ≡ spec.has self byte }
    {
        match self {
            Class::Digit => byte.is_ascii_digit(),
            Class::Letter => byte.is_ascii_alphabetic(),
            Class::Alphanumeric => byte.is_ascii_alphanumeric(),
            Class::Numeral => is_numeral(byte),
            Class::SmallNumeral => is_roman(byte),
            Class::NumberByte => is_number_byte(byte),
            Class::InPart => is_in_part(byte),
            Class::NotOpen => !is_open(byte),
            Class::NoHyphen => is_no_hyphen(byte),
            Class::Stop => is_stop(byte),
        }
    }
}

/// How many bytes of the class the text begins with.
pub(crate) fn run(class: Class, text: &[u8]) -> usize
    ensures value { result ≡ prefix_len (spec.has class) text.now }
    ensures within { result ≤ length text.now }
{
    for (at, byte) in text.iter().enumerate() {
        if !class.has(*byte) {
            return at;
        }
    }
    text.len()
}

/// Whether the text has no byte of another class.
pub(crate) fn are(class: Class, text: &[u8]) -> bool
    ensures { result ≡ list_all (spec.has class) text.now }
{
    for byte in text {
        if !class.has(*byte) {
            return false;
        }
    }
    true
}

pub(crate) fn has_digit(text: &[u8]) -> bool
    ensures { result ≡ list_any is_ascii_digit text.now }
{
    for byte in text {
        if byte.is_ascii_digit() {
            return true;
        }
    }
    false
}
