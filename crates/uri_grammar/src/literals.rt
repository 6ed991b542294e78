//! Literals (RFC 6570, section 2.1).

ghost use Rattle.std.specs.Prelude.{◌≡◌, ◌<◌, ◌≤◌, IfOk, length, take, drop, encode_utf8_all};
ghost use Rattle.text_model.specs.Writing.{written_ur};
ghost use Rattle.uri_grammar.specs.Literals.{is_literal_character, AreLiterals};
ghost use Rattle.uri_grammar.specs.Private.Lengths.{literal_item_len};
ghost use Rattle.uri_grammar.specs.declared.parts.Part.{Part};

use crate::characters::{begins_with_triplet, text_of};
use crate::parts::Part;
use crate::template::MAX_BYTES;
use std::alloc::{AllocError, Global};
use uri_text::{Text, encode_ur};

#[tactic(auto, unfolding(crate::specs::Literals::is_literal_character))]
fn is_literal_character(c: char) -> bool
    ensures { result ≡ is_literal_character c }
{
    match c {
        '!' | '#'..='$' | '&'..=';' | '=' | '?'..='[' | ']' | '_' | 'a'..='z' | '~' => true,
        '\u{A0}'..='\u{D7FF}' | '\u{E000}'..='\u{F8FF}' => true,
        '\u{F900}'..='\u{FDCF}' | '\u{FDF0}'..='\u{FFEF}' => true,
        '\u{10000}'..='\u{DFFFD}' => u32::from(c) % 0x1_0000 <= 0xFFFD,
        '\u{E1000}'..='\u{EFFFD}' => true,
        '\u{F0000}'..='\u{FFFFD}' | '\u{100000}'..='\u{10FFFD}' => true,
        _ => false,
    }
}

/// How many characters the literal at the beginning has, which is one character or one triplet; 0 if there is none.
fn literal_item_len(text: &[char]) -> usize
    ensures value { result ≡ literal_item_len text.now }
    ensures within { result ≤ length text.now }
{
    match text {
        [c, ..] if is_literal_character(*c) => 1,
        _ if begins_with_triplet(text) => 3,
        _ => 0,
    }
}

/// How many characters the literals at the beginning have.
pub(crate) fn literals_len(text: &[char]) -> usize
    requires { length text.now ≤ MAX_BYTES }
    ensures within { result ≤ length text.now }
    ensures literals { AreLiterals (take result text.now) }
    ensures longest { literal_item_len (drop result text.now) ≡ 0 }
    ensures some { 0 < result → 0 < literal_item_len text.now }
{
    let mut len = 0;
    let mut more = literal_item_len(text);
    while more > 0 {
        len += more;
        more = literal_item_len(text.split_at(len).1);
    }
    len
}

/// A text as it is written in a link.
fn written(alloc: Global, text: &str) -> Result<Text, AllocError>
    requires { length text.now ≤ MAX_BYTES }
    ensures { IfOk result (λ written. written ≡ written_ur text.now) }
{
    let mut written = String::with_capacity(alloc, 3 * text.len())?;
    encode_ur(&mut written, text.as_bytes());
    Ok(Text::new(written))
}

/// Literals as a part.
pub(crate) fn literal(alloc: Global, literals: &[char]) -> Result<Part, AllocError>
    requires { length (encode_utf8_all literals.now) ≤ MAX_BYTES }
    ensures { IfOk result (λ part. part ≡ Part.Literal (written_ur (encode_utf8_all literals.now))) }
{
    let text = text_of(alloc, literals)?;
    Ok(Part::Literal(written(alloc, &text)?))
}
