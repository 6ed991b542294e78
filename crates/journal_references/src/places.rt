//! The place of a reference in a text, and the name before it.

ghost use Rattle.std.specs.Prelude.{◌≡◌, ◌≤◌, length, take};
ghost use Rattle.std.specs.List.{suffix_len};
ghost use Rattle.std.specs.Option.{option_map};
ghost use Rattle.journal_references.specs.Parts.{match_of};
ghost use Rattle.journal_references.specs.References as spec;

use crate::forms::match_form;
use crate::matches::Match;
use crate::pieces::last;

/// A name, and what matches after it.
#[derive(Clone, Copy)]
pub(crate) struct Place<'a> {
    pub(crate) name: &'a [u8],
    pub(crate) found: Match<'a>,
}

/// Whether no reference begins after the byte.
fn is_inside(byte: u8) -> bool
    ensures { result ≡ spec.is_inside byte }
{
    byte.is_ascii_alphanumeric() || byte == b'.' || byte == b':' || byte == b'/' || byte == b'-'
}

fn is_loose(byte: u8) -> bool
    ensures { result ≡ spec.is_loose byte }
{
    byte == b' '
        || byte == b'.'
        || byte == b','
        || byte == b';'
        || byte == b':'
        || byte == b'('
        || byte == b'['
        || byte == b'-'
}

/// How many such bytes are at the end.
fn loose_end(text: &[u8]) -> usize
    ensures value { result ≡ suffix_len spec.is_loose text.now }
    ensures within { result ≤ length text.now }
{
    text.iter()
        .rev()
        .take_while(|byte| is_loose(**byte))
        .count()
}

/// The text without them.
fn tight(text: &[u8]) -> &[u8]
    ensures { result.now ≡ spec.tight text.now }
{
    text.split_at(text.len() - loose_end(text)).0
}

/// What matches after that many bytes.
fn match_at(text: &[u8], count: usize) -> Option<Match<'_>>
    requires { count ≤ length text.now }
    ensures { option_map match_of result ≡ spec.match_at text.now count }
{
    let (front, rest) = text.split_at(count);
    if is_inside(last(front)) {
        None
    } else {
        match_form(rest)
    }
}

/// The name in the first bytes.
fn name_before(text: &[u8], count: usize) -> &[u8]
    requires { count ≤ length text.now }
    ensures { result.now ≡ spec.tight (take count text.now) }
{
    tight(text.split_at(count).0)
}

/// The reference that begins after that many bytes.
#[tactic(auto, using(crate::proofs::Steps::match_steps))]
fn place_at(text: &[u8], count: usize) -> Option<Place<'_>>
    requires { count ≤ length text.now }
    ensures { option_map spec.place_of result ≡ spec.reference_at text.now count }
{
    match match_at(text, count) {
        Some(found) => Some(Place {
            name: name_before(text, count),
            found,
        }),
        None => None,
    }
}

/// The first reference.
pub(crate) fn first_place(text: &[u8]) -> Option<Place<'_>>
    ensures { option_map spec.place_of result ≡ spec.first_reference text.now 0 (length text.now) }
{
    for count in 0..text.len() {
        if let Some(place) = place_at(text, count) {
            return Some(place);
        }
    }
    None
}
