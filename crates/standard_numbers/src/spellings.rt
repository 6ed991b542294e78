//! The numbers in a text, as the text spells them.

ghost use Rattle.std.specs.Prelude.{◌≡◌, ◌<◌, ◌≤◌, length, IfOk, IfSome};
ghost use Rattle.std.specs.Char.{is_ascii_digit};
ghost use Rattle.std.specs.List.{list_all};
ghost use Rattle.text_model.specs.Texts.{texts_of};
ghost use Rattle.standard_numbers.specs.Spellings as spec;
ghost use Rattle.standard_numbers.specs.Private.Kinds.{length_at};

use crate::isbn::isbn_length;
use crate::issn::issn_length;
use std::alloc::{AllocError, Global};

/// The standard of a number.
#[derive(Clone, Copy)]
pub(crate) enum Kind {
    Issn,
    Isbn,
}

impl Kind {
    /// The length of the number with which a text begins, after the byte before; `None` if it does not begin with one.
    fn length_at(self, before: u8, text: &[u8]) -> Option<usize>
        ensures value { result ≡ length_at self before text.now }
        ensures within { IfSome result (λ n. (0 < n) × (n ≤ length text.now)) }
    {
        match self {
            Kind::Issn => issn_length(before, text),
            Kind::Isbn => isbn_length(before, text),
        }
    }
}

/// The numbers in a text, which has no small letters, from left to right.
pub(crate) fn spellings(alloc: Global, kind: Kind, text: &[u8]) -> Result<Vec<&[u8]>, AllocError>
    ensures { IfOk result (λ found. texts_of found.items ≡ spec.spellings (length_at kind) text.now) }
{
    let mut found = Vec::new(alloc);
    let mut before = b' ';
    let mut left = 0;
    for (at, byte) in text.iter().enumerate() {
        let rest = text.split_at(at).1;
        if left > 0 {
            left -= 1;
        } else if let Some(count) = kind.length_at(before, rest) {
            found.push(rest.split_at(count).0)?;
            left = count - 1;
        }
        before = *byte;
    }
    Ok(found)
}

/// A hyphen or a space.
pub(crate) fn is_joint(byte: u8) -> bool
    ensures { result ≡ spec.is_joint byte }
{
    byte == b'-' || byte == b' '
}

/// Whether all bytes are decimal digits.
pub(crate) fn are_all_digits(bytes: &[u8]) -> bool
    ensures { result ≡ list_all is_ascii_digit bytes.now }
{
    for byte in bytes {
        if !byte.is_ascii_digit() {
            return false;
        }
    }
    true
}

/// Whether a byte may be the first of that many digits, of which the last may be `X`.
fn is_next(count: usize, byte: u8) -> bool
    ensures { result ≡ spec.is_next count byte }
{
    count > 0 && (byte.is_ascii_digit() || count == 1 && byte == b'X')
}

/// Whether these are that many digits, of which the last may be `X`.
#[tactic(auto, using(crate::proofs::Steps::not_next))]
pub(crate) fn are_digits(count: usize, bytes: &[u8]) -> bool
    ensures { result ≡ spec.are_digits count bytes.now }
{
    let mut left = count;
    for byte in bytes {
        if !is_next(left, *byte) {
            return false;
        }
        left -= 1;
    }
    left == 0
}
