//! Numbers as sources write them, in ASCII.

ghost use Rattle.std.specs.Prelude.{◌≡◌, ◌&&◌, not, IfOk, OnOk, string_bytes};
ghost use Rattle.written_numbers.specs.Characters.{is_in};
ghost use Rattle.written_numbers.specs.Numbers as spec;

use crate::characters::push_character;
use crate::laws::plain_numbers_stay;
use std::alloc::{AllocError, Global};

/// A visible character of ASCII that is no quotation mark.
#[tactic(auto, unfolding(crate::specs::Numbers::visible))]
fn is_visible(byte: u8) -> bool
    ensures { result ≡ is_in spec.visible byte }
{
    matches!(byte, b'!' | b'#'..=b'~')
}

/// Whether a byte may be next in a text that stays as it is.
fn may_follow(is_gap: bool, byte: u8) -> bool
    ensures { result ≡ spec.may_follow is_gap byte }
{
    is_visible(byte) || byte == b' ' && !is_gap
}

/// Whether a text has visible characters of ASCII alone, with single spaces between them.
fn is_plain(text: &[u8]) -> bool
    ensures { result ≡ spec.is_plain text.now }
{
    let mut rest = text;
    let mut is_gap = true;
    while let [byte, after @ ..] = rest {
        if !may_follow(is_gap, *byte) {
            return false;
        }
        is_gap = *byte == b' ';
        rest = after;
    }
    !is_gap
}

/// The text with what is written for each character.
#[tactic(auto, unfolding(crate::specs::Numbers::in_ascii), using(crate::proofs::Mapped::mapped_next))]
fn in_ascii(alloc: Global, text: &str) -> Result<String, AllocError>
    ensures { IfOk result (λ ascii. string_bytes ascii ≡ spec.in_ascii text.now) }
{
    let mut ascii = String::with_capacity(alloc, text.len())?;
    for character in text.chars() {
        push_character(&mut ascii, character)?;
    }
    Ok(ascii)
}

/// Appends a part, after a space if there is a gap before it; nothing if it is empty.
fn push_part(text: &mut String, has_gap: bool, part: &str) -> Result<(), AllocError>
    ensures { OnOk result (string_bytes text.new ≡ spec.with_part has_gap (string_bytes text.old) part.now) }
{
    if part.is_empty() {
        return Ok(());
    }
    if has_gap {
        text.push(' ')?;
    }
    text.push_str(part)?;
    Ok(())
}

fn is_begun(text: &str) -> bool
    ensures { result ≡ spec.is_begun text.now }
{
    !text.is_empty()
}

fn ends_with_hyphen(text: &str) -> bool
    ensures { result ≡ spec.ends_with_hyphen text.now }
{
    text.as_bytes().last().copied().unwrap_or(0) == b'-'
}

/// Appends a word, after a space if others are before it.
fn push_word(words: &mut String, word: &str) -> Result<(), AllocError>
    ensures { OnOk result (string_bytes words.new ≡ spec.with_word (string_bytes words.old) word.now) }
{
    let has_gap = is_begun(words.as_str());
    push_part(words, has_gap, word)
}

/// The words of a line, with single spaces.
#[tactic(auto, unfolding(crate::specs::Numbers::words), using(crate::proofs::NumberLines::word_more))]
fn words(alloc: Global, line: &str) -> Result<String, AllocError>
    ensures { IfOk result (λ words. string_bytes words ≡ spec.words line.now) }
{
    let mut words = String::with_capacity(alloc, line.len())?;
    for word in line.split(' ') {
        push_word(&mut words, word)?;
    }
    Ok(words)
}

/// Appends the words of a line, after a space if others are before it that do not end with a hyphen.
fn push_line(alloc: Global, text: &mut String, line: &str) -> Result<(), AllocError>
    ensures { OnOk result (string_bytes text.new ≡ spec.with_line (string_bytes text.old) (spec.words line.now)) }
{
    let words = words(alloc, line)?;
    let has_gap = is_begun(text.as_str()) && !ends_with_hyphen(text.as_str());
    push_part(text, has_gap, words.as_str())
}

/// The lines of a text, each with single spaces, one after another.
#[tactic(auto, unfolding(crate::specs::Numbers::joined_lines), using(crate::proofs::NumberLines::line_more))]
fn joined_lines(alloc: Global, text: &str) -> Result<String, AllocError>
    ensures { IfOk result (λ joined. string_bytes joined ≡ spec.joined_lines text.now) }
{
    let mut joined = String::with_capacity(alloc, text.len())?;
    for line in text.split('\n') {
        push_line(alloc, &mut joined, line)?;
    }
    Ok(joined)
}

/// The number, page, date or volume in ASCII, on one line and with single spaces.
///
/// The time is linear in the bytes of the text, and the result has at most as many. `AllocError` if an allocation
/// failed.
#[tactic(auto, unfolding(crate::specs::Numbers::number_text))]
pub fn number_text(alloc: Global, text: &str) -> Result<String, AllocError>
    ensures { IfOk result (λ number. string_bytes number ≡ spec.number_text text.now) }
{
    plain_numbers_stay();
    if is_plain(text.as_bytes()) {
        return String::from_str(alloc, text);
    }
    let ascii = in_ascii(alloc, text)?;
    joined_lines(alloc, ascii.as_str())
}
