//! Places in a text: what is before a byte decides what the byte means.

ghost use Rattle.std.specs.Prelude.{◌≡◌, IfOk};
ghost use Rattle.latex_text.specs.Places as spec;
ghost use Rattle.latex_text.specs.declared.places.Place.TheVariants.{Start};

use std::alloc::{AllocError, Global};

/// What is before a byte.
#[derive(Clone, Copy)]
pub(crate) enum Place {
    /// No part of a word, or the beginning of the text.
    Start,
    /// Part of a word.
    Word,
    /// `O` or `D` at the beginning of a word.
    Initial,
    /// The backslash of a command.
    Escaped,
    /// Letters of a command's name.
    Name,
    /// A command whose name is a sign.
    Sign,
    /// Part of a formula.
    Formula,
}

fn is_letter(byte: u8) -> bool
    ensures { result ≡ spec.is_letter byte }
{
    byte.is_ascii_alphabetic()
}

fn is_word_byte(byte: u8) -> bool
    ensures { result ≡ spec.is_word_byte byte }
{
    byte.is_ascii_alphanumeric() || byte == b'_' || byte == b'}' || byte >= 0x80
}

fn is_initial(byte: u8) -> bool
    ensures { result ≡ spec.is_initial byte }
{
    byte == b'O' || byte == b'D'
}

/// The place after a byte that is no part of a command or of a formula.
fn in_text(at_start: bool, byte: u8) -> Place
    ensures { result ≡ spec.in_text at_start byte }
{
    if byte == b'\\' {
        Place::Escaped
    } else if byte == b'$' {
        Place::Formula
    } else if !is_word_byte(byte) {
        Place::Start
    } else if is_initial(byte) && at_start {
        Place::Initial
    } else {
        Place::Word
    }
}

impl Place {
    /// The place after one more byte.
    fn next(self, byte: u8) -> Place
        ensures { result ≡ spec.next self byte }
    {
        match self {
            Place::Start => in_text(true, byte),
            Place::Word | Place::Initial | Place::Sign => in_text(false, byte),
            Place::Escaped if is_letter(byte) => Place::Name,
            Place::Escaped => Place::Sign,
            Place::Name if is_letter(byte) => Place::Name,
            Place::Name => in_text(false, byte),
            Place::Formula if byte == b'$' => Place::Start,
            Place::Formula => Place::Formula,
        }
    }

    /// Whether a command may begin here.
    pub(crate) fn has_commands(self) -> bool
        ensures { result ≡ spec.has_commands self }
    {
        match self {
            Place::Start | Place::Word | Place::Initial | Place::Name | Place::Sign => true,
            Place::Escaped | Place::Formula => false,
        }
    }

    /// Whether a group may begin here that is no argument of a command.
    pub(crate) fn has_groups(self) -> bool
        ensures { result ≡ spec.has_groups self }
    {
        match self {
            Place::Start | Place::Word | Place::Initial => true,
            Place::Escaped | Place::Name | Place::Sign | Place::Formula => false,
        }
    }

    pub(crate) fn follows_initial(self) -> bool
        ensures { result ≡ spec.follows_initial self }
    {
        match self {
            Place::Initial => true,
            Place::Start
            | Place::Word
            | Place::Escaped
            | Place::Name
            | Place::Sign
            | Place::Formula => false,
        }
    }
}

/// The place of each byte of a text.
pub(crate) fn places_in(alloc: Global, text: &[u8]) -> Result<Vec<Place>, AllocError>
    ensures { IfOk result (λ places. places.items ≡ spec.places Start text.now) }
{
    let mut places = Vec::with_capacity(alloc, text.len())?;
    let mut place = Place::Start;
    for byte in text {
        places.push(place)?;
        place = place.next(*byte);
    }
    Ok(places)
}
