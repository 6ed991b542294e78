//! The characters of numbers.

ghost use Rattle.std.specs.Prelude.{◌≡◌, ◌-◌, ◌++◌, ◌<◌, ◌≤◌, OnOk, string_bytes};
ghost use Rattle.written_numbers.specs.Characters as spec;

use std::alloc::AllocError;

/// A dash, a hyphen or a minus sign.
#[tactic(auto, unfolding(crate::specs::Characters::dashes))]
fn is_dash(character: char) -> bool
    ensures { result ≡ spec.is_in spec.dashes character }
{
    matches!(
        character,
        '\u{ad}' | '\u{2010}'..='\u{2015}'
            | '\u{2043}'
            | '\u{2212}'
            | '\u{fe58}'
            | '\u{fe63}'
            | '\u{ff0d}'
    )
}

/// A space that is not that of ASCII.
#[tactic(auto, unfolding(crate::specs::Characters::wide_spaces))]
fn is_wide_space(character: char) -> bool
    ensures { result ≡ spec.is_in spec.wide_spaces character }
{
    matches!(
        character,
        '\u{a0}' | '\u{2000}'..='\u{200b}' | '\u{202f}' | '\u{205f}' | '\u{3000}' | '\u{feff}'
    )
}

/// A quotation mark, or a mark of the direction of a text.
#[tactic(auto, unfolding(crate::specs::Characters::marks))]
fn is_mark(character: char) -> bool
    ensures { result ≡ spec.is_in spec.marks character }
{
    matches!(
        character,
        '"' | '«'
            | '»'
            | '\u{200c}'..='\u{200f}'
            | '\u{2018}'..='\u{201f}'
            | '\u{202a}'..='\u{202e}'
            | '\u{2039}'..='\u{203a}'
            | '\u{2066}'..='\u{2069}'
            | '\u{ff02}'
    )
}

/// What ends a line of a number.
#[tactic(auto, unfolding(crate::specs::Characters::line_ends))]
fn ends_line(character: char) -> bool
    ensures { result ≡ spec.is_in spec.line_ends character }
{
    matches!(character, '\t' | '\n' | '\r')
}

/// The character of ASCII with a code that is less by so much.
fn less(character: char, by: u32) -> char
    requires low { by ≤ character }
    requires high { character - by < 128 }
    ensures { result ≡ character - by }
{
    char::from((u32::from(character) - by) as u8)
}

/// The character that is written for a digit or a full-width character; the other characters as they are.
#[tactic(auto, unfolding(crate::specs::Characters::narrow))]
fn narrow(character: char) -> char
    ensures { result ≡ spec.narrow character }
{
    match character {
        '\u{660}'..='\u{669}' => less(character, 0x630),
        '\u{6f0}'..='\u{6f9}' => less(character, 0x6c0),
        '\u{966}'..='\u{96f}' => less(character, 0x936),
        '\u{ff01}'..='\u{ff5e}' => less(character, 0xfee0),
        _ => character,
    }
}

/// The character that is written for one of a number.
#[tactic(auto, unfolding(crate::specs::Characters::ascii_of))]
fn ascii_of(character: char) -> char
    ensures { result ≡ spec.ascii_of character }
{
    if is_dash(character) {
        '-'
    } else if is_wide_space(character) {
        ' '
    } else if ends_line(character) {
        '\n'
    } else {
        narrow(character)
    }
}

/// Appends what is written for a character of a number.
#[tactic(auto, unfolding(crate::specs::Characters::number_character))]
pub(crate) fn push_character(text: &mut String, character: char) -> Result<(), AllocError>
    ensures { OnOk result (string_bytes text.new ≡ string_bytes text.old ++ spec.number_character character) }
{
    if is_mark(character) {
        return Ok(());
    }
    text.push(ascii_of(character))
}
