//! Character references.

ghost use Rattle.std.specs.Prelude.{◌≡◌, ◌≤◌, drop};
ghost use Rattle.std.specs.Char.{digit_value, is_digit};
ghost use Rattle.std.specs.List.{list_all};
ghost use Rattle.std.specs.Str.{bytes_eq};
ghost use Rattle.text_model.specs.Texts.{texts_of};
ghost use Rattle.title_markup.specs.References as spec;

use crate::endings::{from_last, last_byte, last_bytes};
use crate::names;

/// The first number after those of characters.
const BEYOND: u32 = 0x11_0000;

/// How many bytes a reference has at most.
const MOST_BYTES: usize = 10;

/// How a number is written.
#[derive(Clone, Copy)]
pub(crate) enum Base {
    /// With the digits 0 to 9.
    Decimal,
    /// With the digits 0 to 9 and A to F, in capital or small letters.
    Hexadecimal,
}

/// A reference at the end of a text.
#[derive(Clone, Copy)]
pub(crate) struct Reference {
    /// How many bytes it has.
    pub(crate) len: usize,
    /// What it denotes.
    pub(crate) character: char,
}

impl Base {
    fn radix(self) -> u32
        ensures value { result ≡ spec.radix self }
        ensures bound { result ≤ 16 }
    {
        match self {
            Base::Decimal => 10,
            Base::Hexadecimal => 16,
        }
    }
}

/// The value of a digit; 36 for another byte than a digit or a letter.
fn digit_value(byte: u8) -> u32
    ensures value { result ≡ digit_value byte }
    ensures bound { result ≤ 36 }
{
    char::from(byte).to_digit(36).unwrap_or(36)
}

fn is_digit(base: Base, byte: u8) -> bool
    ensures { result ≡ is_digit byte (spec.radix base) }
{
    digit_value(byte) < base.radix()
}

fn are_digits(base: Base, text: &[u8]) -> bool
    ensures { result ≡ list_all (λ b. is_digit b (spec.radix base)) text.now }
{
    for byte in text {
        if !is_digit(base, *byte) {
            return false;
        }
    }
    true
}

/// The number that digits are; one past those of characters, if it is greater.
fn value(base: Base, digits: &[u8]) -> u32
    ensures { result ≡ spec.value base digits.now }
{
    let mut number = 0;
    for digit in digits {
        number = (number * base.radix() + digit_value(*digit)).min(BEYOND);
    }
    number
}

/// The character with that number; none for NUL and for surrogates.
fn character(number: u32) -> Option<char>
    ensures { result ≡ spec.character number }
{
    if number == 0 {
        None
    } else {
        char::from_u32(number)
    }
}

fn number_in(base: Base, text: &[u8]) -> Option<char>
    ensures { result ≡ spec.number_in base text.now }
{
    if !text.is_empty() && are_digits(base, text) {
        character(value(base, text))
    } else {
        None
    }
}

/// The character whose number is after `#`.
fn numbered(text: &[u8]) -> Option<char>
    ensures { result ≡ spec.numbered text.now }
{
    match text {
        [] => None,
        [b'x' | b'X', digits @ ..] => number_in(Base::Hexadecimal, digits),
        _ => number_in(Base::Decimal, text),
    }
}

fn is_named(listed: &str, name: &[u8]) -> bool
    ensures { result ≡ bytes_eq listed.now name.now }
{
    listed.as_bytes() == name
}

fn others(characters: &[char]) -> &[char]
    ensures { result.now ≡ drop 1 characters.now }
{
    match characters {
        [] => characters,
        [_, others @ ..] => others,
    }
}

/// The character that is at the place of its name.
fn listed(names: &[&str], characters: &[char], name: &[u8]) -> Option<char>
    ensures { result ≡ spec.listed (texts_of names.now) characters.now name.now }
{
    let mut rest = characters;
    for other in names {
        if is_named(other, name) {
            return rest.first().copied();
        }
        rest = others(rest);
    }
    None
}

/// The character with this name, looked up among the names that are as long.
fn named(name: &[u8]) -> Option<char>
    ensures { result ≡ spec.named name.now }
{
    let size = name.len();
    if size <= 2 {
        listed(names::names_of_two(), names::characters_of_two(), name)
    } else if size == 3 {
        listed(names::names_of_three(), names::characters_of_three(), name)
    } else if size == 4 {
        listed(names::names_of_four(), names::characters_of_four(), name)
    } else if size == 5 {
        listed(names::names_of_five(), names::characters_of_five(), name)
    } else {
        listed(names::names_of_six(), names::characters_of_six(), name)
    }
}

/// What a reference denotes, by what is between its `&` and `;`.
fn character_of(body: &[u8]) -> Option<char>
    ensures { result ≡ spec.character_of body.now }
{
    match body {
        [] => None,
        [b'#', number @ ..] => numbered(number),
        _ => named(body),
    }
}

/// A text without its first and its last byte.
fn body_of(text: &[u8]) -> &[u8]
    ensures { result.now ≡ spec.body_of text.now }
{
    match text {
        [] => text,
        [_, rest @ ..] => rest.split_at(rest.len().saturating_sub(1)).0,
    }
}

/// The reference with which a text ends.
#[tactic(auto, unfolding(crate::specs::References::reference_ending))]
pub(crate) fn reference_ending(text: &[u8]) -> Option<Reference>
    ensures { result ≡ spec.reference_ending text.now }
{
    if last_byte(text) != b';' {
        return None;
    }
    let reference = from_last(b'&', last_bytes(MOST_BYTES, text))?;
    let character = character_of(body_of(reference))?;
    Some(Reference {
        len: reference.len(),
        character,
    })
}
