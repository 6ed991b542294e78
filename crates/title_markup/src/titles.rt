//! Titles without markup.

ghost use Rattle.std.specs.Prelude.{◌≡◌, ◌-◌, ◌++◌, ◌∷◌, [], encode_utf8, length, take, IfOk, OnOk};
ghost use Rattle.std.specs.Option.{unwrap_or, is_some};
ghost use Rattle.title_markup.specs.Titles as spec;

use crate::references::reference_ending;
use crate::tags::tag_len;
use std::alloc::{AllocError, Global};

/// Takes away that many bytes at the end.
fn cut(text: &mut Vec<u8>, len: usize)
    ensures { text.new.items ≡ take (length text.old.items - len) text.old.items }
{
    text.truncate(text.len().saturating_sub(len));
}

fn push_character(text: &mut Vec<u8>, character: char) -> Result<(), AllocError>
    ensures { OnOk result (text.new.items ≡ text.old.items ++ encode_utf8 character) }
{
    let mut bytes = [0; 4];
    text.extend_from_slice(character.encode_utf8(&mut bytes).as_bytes())
}

/// Reads the markup with which a text ends, if it ends with some.
#[tactic(auto, unfolding(crate::specs::Titles::shortened))]
fn shorten(text: &mut Vec<u8>) -> Result<bool, AllocError>
    ensures value { IfOk result (λ is. is ≡ is_some (spec.shortened text.old.items)) }
    ensures after { OnOk result (text.new.items ≡ unwrap_or (spec.shortened text.old.items) text.old.items) }
{
    if let Some(len) = tag_len(text) {
        cut(text, len);
        return Ok(true);
    }
    if let Some(reference) = reference_ending(text) {
        cut(text, reference.len);
        push_character(text, reference.character)?;
        return Ok(true);
    }
    Ok(false)
}

/// The same, again and again.
fn settle(text: &mut Vec<u8>) -> Result<(), AllocError>
    ensures { OnOk result (text.new.items ≡ spec.settled text.old.items) }
{
    while shorten(text)? {}
    Ok(())
}

fn push_settled(text: &mut Vec<u8>, byte: u8) -> Result<(), AllocError>
    ensures { OnOk result (text.new.items ≡ spec.settled (text.old.items ++ byte ∷ [])) }
{
    text.push(byte)?;
    settle(text)?;
    Ok(())
}

#[tactic(auto, unfolding(crate::specs::Titles::read))]
fn read(alloc: Global, title: &[u8]) -> Result<Vec<u8>, AllocError>
    ensures { IfOk result (λ text. text.items ≡ spec.read title.now) }
{
    let mut text = Vec::with_capacity(alloc, title.len())?;
    for byte in title {
        push_settled(&mut text, *byte)?;
    }
    Ok(text)
}

pub(crate) fn is_blank(text: &[u8]) -> bool
    ensures { result ≡ spec.is_blank text.now }
{
    for byte in text {
        if *byte > b' ' {
            return false;
        }
    }
    true
}

/// The title without tags, and with the characters for references; one of which nothing would be left as it is.
///
/// It may have any bytes. It is read in one pass, in time linear in its bytes. `AllocError` if an allocation failed.
pub fn without_markup(alloc: Global, title: &[u8]) -> Result<Vec<u8>, AllocError>
    ensures { IfOk result (λ text. text.items ≡ spec.without_markup title.now) }
{
    let text = read(alloc, title)?;
    if is_blank(&text) {
        let unread = Vec::from_slice(alloc, title)?;
        return Ok(unread);
    }
    Ok(text)
}
