//! Tags.

ghost use Rattle.std.specs.Prelude.{◌≡◌, ◌≤◌, ◌==◌, not, length};
ghost use Rattle.std.specs.List.{prefix_len};
ghost use Rattle.title_markup.specs.Endings.{closing};
ghost use Rattle.title_markup.specs.Tags as spec;

use crate::endings::{last_byte, last_bytes};

/// How many bytes a name has at most.
const MOST_BYTES_OF_NAME: usize = 20;

/// How many bytes are in a tag at most after its name, with the space and `>`.
const MOST_BYTES_AFTER_NAME: usize = 202;

/// How many bytes a tag has at most.
const MOST_BYTES: usize = 224;

fn is_name_byte(byte: u8) -> bool
    ensures { result ≡ spec.is_name_byte byte }
{
    byte.is_ascii_alphanumeric() || byte == b':' || byte == b'-'
}

/// How many bytes the name has with which a text begins.
fn name_len(text: &[u8]) -> usize
    ensures value { result ≡ spec.name_length text.now }
    ensures within { result ≤ length text.now }
{
    for (at, byte) in text.iter().enumerate() {
        if !is_name_byte(*byte) {
            return at;
        }
    }
    text.len()
}

fn begins_with_letter(text: &[u8]) -> bool
    ensures { result ≡ spec.begins_with_letter text.now }
{
    match text {
        [] => false,
        [first, ..] => first.is_ascii_alphabetic(),
    }
}

#[tactic(auto, unfolding(crate::specs::Tags::begins_with_name))]
fn begins_with_name(text: &[u8]) -> bool
    ensures { result ≡ spec.begins_with_name text.now }
{
    begins_with_letter(text) && name_len(text) <= MOST_BYTES_OF_NAME
}

fn begins(mark: u8, text: &[u8]) -> bool
    ensures { result ≡ spec.begins mark text.now }
{
    match text {
        [] => false,
        [first, ..] => *first == mark,
    }
}

/// The text without a `/` at its beginning.
fn unslashed(text: &[u8]) -> &[u8]
    ensures { result.now ≡ spec.unslashed text.now }
{
    match text {
        [b'/', rest @ ..] => rest,
        _ => text,
    }
}

/// How many bytes are before the first `>`.
fn open_len(text: &[u8]) -> usize
    ensures value { result ≡ prefix_len (λ b. not (b == closing)) text.now }
    ensures within { result ≤ length text.now }
{
    for (at, byte) in text.iter().enumerate() {
        if *byte == b'>' {
            return at;
        }
    }
    text.len()
}

/// Whether the first `>` is the last byte.
fn closes(text: &[u8]) -> bool
    ensures { result ≡ spec.closes text.now }
{
    text.len() == open_len(text) + 1
}

/// Whether a tag may end so after its name.
#[tactic(auto, unfolding(crate::specs::Tags::ends_tag))]
fn ends_tag(text: &[u8]) -> bool
    ensures { result ≡ spec.ends_tag text.now }
{
    let is_short = text.len() <= 1
        || begins(b'/', text) && text.len() <= 2
        || begins(b' ', text) && text.len() <= MOST_BYTES_AFTER_NAME;
    closes(text) && is_short
}

/// Whether this is a tag without its `<` or `</`.
#[tactic(auto, unfolding(crate::specs::Tags::is_inside))]
fn is_inside(text: &[u8]) -> bool
    ensures { result ≡ spec.is_inside text.now }
{
    begins_with_name(text) && ends_tag(text.split_at(name_len(text)).1)
}

fn is_tag(text: &[u8]) -> bool
    ensures { result ≡ spec.is_tag text.now }
{
    match text {
        [] => false,
        [first, rest @ ..] => *first == b'<' && is_inside(unslashed(rest)),
    }
}

fn is_bracket(byte: u8) -> bool
    ensures { result ≡ spec.is_bracket byte }
{
    byte == b'<' || byte == b'>'
}

/// How many bytes are after the last bracket.
fn inner_len(text: &[u8]) -> usize
    ensures value { result ≡ spec.inner_length text.now }
    ensures within { result ≤ length text.now }
{
    text.iter()
        .rev()
        .take_while(|byte| !is_bracket(**byte))
        .count()
}

/// The text without its last byte.
fn unended(text: &[u8]) -> &[u8]
    ensures { result.now ≡ spec.unended text.now }
{
    text.split_at(text.len().saturating_sub(1)).0
}

/// The text from the last bracket before its last byte on; without one, all of it.
fn from_bracket(text: &[u8]) -> &[u8]
    ensures { result.now ≡ spec.from_bracket text.now }
{
    let front = unended(text);
    let before = front.len() - inner_len(front);
    text.split_at(before.saturating_sub(1)).1
}

/// How many bytes the tag has with which a text ends.
///
/// It looks no further back than to the last bracket before, so a text is read in time linear in its bytes.
#[tactic(auto, unfolding(crate::specs::Tags::tag_length))]
pub(crate) fn tag_len(text: &[u8]) -> Option<usize>
    ensures { result ≡ spec.tag_length text.now }
{
    if last_byte(text) != b'>' {
        return None;
    }
    let tag = from_bracket(last_bytes(MOST_BYTES, text));
    if is_tag(tag) { Some(tag.len()) } else { None }
}
