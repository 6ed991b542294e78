//! Identifiers without what the layout of a page has put into them.

ghost use Rattle.std.specs.Prelude.{◌≡◌, ◌++◌, IfOk, OnOk, string_bytes};
ghost use Rattle.written_numbers.specs.Characters.{is_in};
ghost use Rattle.written_numbers.specs.Layout as spec;

use std::alloc::{AllocError, Global};

/// A space, a joiner or a hyphen of a layout, or a quotation mark.
#[tactic(auto, unfolding(crate::specs::Layout::layout))]
fn is_layout(character: char) -> bool
    ensures { result ≡ is_in spec.layout character }
{
    matches!(
        character,
        '\u{a0}' | '«' | '\u{ad}' | '»'
            | '\u{2000}'..='\u{200d}'
            | '\u{2018}'..='\u{201f}'
            | '\u{202f}'
            | '\u{2039}'..='\u{203a}'
            | '\u{205f}'..='\u{2060}'
            | '\u{3000}'
            | '\u{feff}'
    )
}

/// A line feed for another end of a line; the other characters as they are.
#[tactic(auto, unfolding(crate::specs::Layout::unbroken, crate::specs::Layout::breaks))]
fn unbroken(character: char) -> char
    ensures { result ≡ spec.unbroken character }
{
    match character {
        '\r' | '\u{2028}'..='\u{2029}' => '\n',
        _ => character,
    }
}

/// Appends what is written for a character of an identifier.
#[tactic(auto, unfolding(crate::specs::Layout::identifier_character))]
fn push_character(text: &mut String, character: char) -> Result<(), AllocError>
    ensures { OnOk result (string_bytes text.new ≡ string_bytes text.old ++ spec.identifier_character character) }
{
    if is_layout(character) {
        return Ok(());
    }
    text.push(unbroken(character))
}

/// The text without the characters of a layout, and with a line feed for each end of a line.
#[tactic(auto, unfolding(crate::specs::Layout::without_layout), using(crate::proofs::Mapped::mapped_next))]
pub(crate) fn without_layout(alloc: Global, text: &str) -> Result<String, AllocError>
    ensures { IfOk result (λ plain. string_bytes plain ≡ spec.without_layout text.now) }
{
    let mut plain = String::with_capacity(alloc, text.len())?;
    for character in text.chars() {
        push_character(&mut plain, character)?;
    }
    Ok(plain)
}
