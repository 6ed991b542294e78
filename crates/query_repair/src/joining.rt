//! Which piece belongs to the pair before it.

ghost use Rattle.std.specs.Prelude.{◌≡◌, ◌==◌, ◌||◌, ◌≤◌, ◌++◌, length, IfOk, OnOk};
ghost use Rattle.std.specs.List.{list_any, prefix_len};
ghost use Rattle.text_model.specs.Texts.{texts_of};
ghost use Rattle.query_repair.specs.Joining as spec;

use crate::keys::{begins_pair, byte_at, is_title, key_of};
use std::alloc::{AllocError, Global};

/// Whether this is the pair of a title or a name.
fn is_titled(pair: &[u8]) -> bool
    ensures { result ≡ spec.is_titled pair.now }
{
    begins_pair(pair) && is_title(key_of(pair))
}

fn has_equals_sign(piece: &[u8]) -> bool
    ensures { result ≡ list_any (λ b. b == 0x3d) piece.now }
{
    for byte in piece {
        if *byte == b'=' {
            return true;
        }
    }
    false
}

/// Whether a space or an escape is in the piece.
fn has_space(piece: &[u8]) -> bool
    ensures { result ≡ list_any (λ b. b == 0x2b || b == 0x25) piece.now }
{
    for byte in piece {
        if *byte == b'+' || *byte == b'%' {
            return true;
        }
    }
    false
}

/// Whether the piece is text, and neither a pair nor a key alone.
#[tactic(auto, unfolding(crate::specs::Joining::is_loose))]
fn is_loose(piece: &[u8]) -> bool
    ensures { result ≡ spec.is_loose piece.now }
{
    !has_equals_sign(piece) && has_space(piece)
}

fn is_entity_byte(byte: u8) -> bool
    ensures { result ≡ spec.is_entity_byte byte }
{
    byte.is_ascii_alphanumeric() || byte == b'#'
}

fn entity_len(piece: &[u8]) -> usize
    ensures value { result ≡ prefix_len spec.is_entity_byte piece.now }
    ensures within { result ≤ length piece.now }
{
    for (at, byte) in piece.iter().enumerate() {
        if !is_entity_byte(*byte) {
            return at;
        }
    }
    piece.len()
}

/// Whether the piece begins with the rest of an entity.
#[tactic(auto, unfolding(crate::specs::Joining::begins_entity))]
fn begins_entity(piece: &[u8]) -> bool
    ensures { result ≡ spec.begins_entity piece.now }
{
    let end = entity_len(piece);
    2 <= end && end <= 10 && byte_at(piece, end) == b';'
}

/// Whether a piece belongs to the value of a pair.
#[tactic(auto, unfolding(crate::specs::Joining::belongs))]
fn belongs(pair: &[u8], piece: &[u8]) -> bool
    ensures { result ≡ spec.belongs pair.now piece.now }
{
    is_titled(pair) && is_loose(piece) || begins_pair(pair) && begins_entity(piece)
}

fn separator(is_part: bool) -> &'static [u8]
    ensures { result.now ≡ spec.separator is_part }
{
    if is_part { b"%26" } else { b"&" }
}

/// The pair to which the next piece may belong.
fn pair_after<'a>(is_part: bool, pair: &'a [u8], piece: &'a [u8]) -> &'a [u8]
    ensures { result.now ≡ spec.pair_after is_part pair.now piece.now }
{
    if is_part { pair } else { piece }
}

/// Appends pieces to the first one.
fn push_joined(text: &mut Vec<u8>, first: &[u8], others: &[&[u8]]) -> Result<(), AllocError>
    ensures { OnOk result (text.new.items ≡ text.old.items ++ spec.joined_after first.now (texts_of others.now)) }
{
    let mut pair = first;
    for piece in others {
        let is_part = belongs(pair, piece);
        text.extend_from_slice(separator(is_part))?;
        text.extend_from_slice(piece)?;
        pair = pair_after(is_part, pair, piece);
    }
    Ok(())
}

/// The pieces as a query again.
pub(crate) fn joined(alloc: Global, pieces: &[&[u8]]) -> Result<Vec<u8>, AllocError>
    ensures { IfOk result (λ text. text.items ≡ spec.joined (texts_of pieces.now)) }
{
    let mut text = Vec::new(alloc);
    if let [first, others @ ..] = pieces {
        text.extend_from_slice(first)?;
        push_joined(&mut text, first, others)?;
    }
    Ok(text)
}
