//! Texts without the commands of LaTeX.

ghost use Rattle.std.specs.Prelude.{◌≡◌, ◌++◌, ◌∷◌, [], IfOk, OnOk};
ghost use Rattle.latex_text.specs.Places.{has};
ghost use Rattle.latex_text.specs.Texts as spec;
ghost use Rattle.latex_text.specs.Commands as commands;
ghost use Rattle.latex_text.specs.declared.places.Place.TheVariants.{Start};

use crate::commands::{Command, command_of};
use crate::groups::{closing_at, push_ungrouped};
use crate::laws::plain_texts_stay;
use crate::places::{Place, places_in};
use std::alloc::{AllocError, Global};

/// How many bytes a title has at most; a longer text stays.
const MOST_BYTES: usize = 2000;

/// Appends what is written for a command.
fn push_written(text: &mut Vec<u8>, character: Option<char>) -> Result<(), AllocError>
    ensures { OnOk result (text.new.items ≡ text.old.items ++ commands.written character) }
{
    if let Some(character) = character {
        let mut bytes = [0; 4];
        text.extend_from_slice(character.encode_utf8(&mut bytes).as_bytes())?;
    }
    Ok(())
}

/// What a command and the text after it are read as.
fn done(alloc: Global, rest: &[u8], command: Command) -> Result<Vec<u8>, AllocError>
    ensures { IfOk result (λ text. text.items ≡ spec.done rest.now command) }
{
    let mut text = Vec::with_capacity(alloc, rest.len())?;
    push_written(&mut text, command.character)?;
    push_ungrouped(&mut text, rest.split_at(command.len.min(rest.len())).1)?;
    Ok(text)
}

fn push_front(text: &mut Vec<u8>, byte: u8) -> Result<(), AllocError>
    ensures { OnOk result (text.new.items ≡ byte ∷ text.old.items) }
{
    text.insert(0, byte)?;
    Ok(())
}

/// Puts a byte before a text that has been read, and reads the command or the group that begins with it.
#[tactic(auto, unfolding(crate::specs::Texts::changed))]
fn put(alloc: Global, place: Place, byte: u8, mut rest: Vec<u8>) -> Result<Vec<u8>, AllocError>
    ensures { IfOk result (λ text. text.items ≡ spec.put place byte rest.items) }
{
    if byte == b'\\' && place.has_commands() {
        if let Some(command) = command_of(place.follows_initial(), &rest) {
            return done(alloc, &rest, command);
        }
    } else if byte == b'{' && place.has_groups() {
        if let Some(at) = closing_at(&rest) {
            rest.remove(at);
            return Ok(rest);
        }
    }
    push_front(&mut rest, byte)?;
    Ok(rest)
}

#[tactic(auto, unfolding(crate::specs::Texts::read))]
fn read(alloc: Global, text: &[u8]) -> Result<Vec<u8>, AllocError>
    ensures { IfOk result (λ read. read.items ≡ spec.read text.now) }
{
    let places = places_in(alloc, text)?;
    let mut read = Vec::with_capacity(alloc, text.len())?;
    let mut rest = text;
    while let [before @ .., byte] = rest {
        read = put(alloc, places[before.len()], *byte, read)?;
        rest = before;
    }
    Ok(read)
}

fn is_blank(text: &[u8]) -> bool
    ensures { result ≡ spec.is_blank text.now }
{
    for byte in text {
        if *byte > b' ' {
            return false;
        }
    }
    true
}

fn has(text: &[u8], mark: u8) -> bool
    ensures { result ≡ has mark text.now }
{
    for byte in text {
        if *byte == mark {
            return true;
        }
    }
    false
}

/// The text without the commands of LaTeX, and with the letters that they denote; one that is longer than 2,000 bytes,
/// or of which nothing would be left, as it is.
///
/// It may have any bytes. The time is bounded by the square of its bytes, of which there are at most 2,000.
/// `AllocError` if an allocation failed.
pub fn without_latex(alloc: Global, text: &[u8]) -> Result<Vec<u8>, AllocError>
    ensures { IfOk result (λ text_read. text_read.items ≡ spec.without_latex text.now) }
{
    plain_texts_stay();
    if text.len() <= MOST_BYTES && (has(text, b'\\') || has(text, b'{')) {
        let read = read(alloc, text)?;
        if !is_blank(&read) {
            return Ok(read);
        }
    }
    let unread = Vec::from_slice(alloc, text)?;
    Ok(unread)
}
