//! The pieces of a query.

ghost use Rattle.std.specs.Prelude.{◌≡◌, ◌==◌, ◌≤◌, ◌++◌, length, IfOk, OnOk};
ghost use Rattle.std.specs.List.{list_all, slice_split};
ghost use Rattle.text_model.specs.Texts.{texts_of};
ghost use Rattle.query_repair.specs.Pieces as spec;

use crate::keys::{begins_pair, is_key_byte, is_known, key_of};
use std::alloc::{AllocError, Global};
use uri_text::begins_in_any_case;

/// What is between bytes of this kind.
pub(crate) fn split_at_each(alloc: Global, mark: u8, query: &[u8]) -> Result<Vec<&[u8]>, AllocError>
    ensures { IfOk result (λ parts. texts_of parts.items ≡ slice_split (λ b. b == mark) query.now) }
{
    query.split(|byte| *byte == mark).collect(alloc)
}

/// How many bytes the mark has with which a part begins, `amp;` or `?`.
fn mark_len(part: &[u8]) -> usize
    ensures value { result ≡ spec.mark_length part.now }
    ensures within { result ≤ length part.now }
{
    if begins_in_any_case(part, b"amp;") {
        4
    } else if matches!(part, [b'?', ..]) {
        1
    } else {
        0
    }
}

/// The part without the marks at its beginning.
#[tactic(auto, unfolding(crate::specs::Pieces::unmarked), using(crate::proofs::Marks::no_mark))]
fn unmarked(part: &[u8]) -> &[u8]
    ensures { result.now ≡ spec.unmarked part.now }
{
    let mut rest = part;
    while mark_len(rest) > 0 {
        rest = rest.split_at(mark_len(rest)).1;
    }
    rest
}

/// The part without marks if a pair or a known key follows them.
#[tactic(auto, unfolding(crate::specs::Pieces::cleaned), using(crate::proofs::Marks::none_marked))]
pub(crate) fn cleaned(part: &[u8]) -> &[u8]
    ensures { result.now ≡ spec.cleaned part.now }
{
    if begins_pair(part) || mark_len(part) == 0 {
        return part;
    }
    let rest = unmarked(part);
    if begins_pair(rest) || is_known(rest) {
        rest
    } else {
        part
    }
}

/// How many bytes are before the first `?`.
fn base_len(part: &[u8]) -> usize
    ensures value { result ≡ spec.base_length part.now }
    ensures within { result ≤ length part.now }
{
    for (at, byte) in part.iter().enumerate() {
        if *byte == b'?' {
            return at;
        }
    }
    part.len()
}

fn base_of(part: &[u8]) -> &[u8]
    ensures { result.now ≡ spec.base_of part.now }
{
    part.split_at(base_len(part)).0
}

/// What follows the first `?`s.
fn after_base(part: &[u8]) -> &[u8]
    ensures { result.now ≡ spec.after_base part.now }
{
    unmarked(part.split_at(base_len(part)).1)
}

fn is_base_byte(byte: u8) -> bool
    ensures { result ≡ spec.is_base_byte byte }
{
    is_key_byte(byte) || byte == b':' || byte == b'-' || byte == b'='
}

fn are_base_bytes(base: &[u8]) -> bool
    ensures { result ≡ list_all spec.is_base_byte base.now }
{
    for byte in base {
        if !is_base_byte(*byte) {
            return false;
        }
    }
    true
}

/// Whether this is a pair as base URLs have them.
fn is_base(base: &[u8]) -> bool
    ensures { result ≡ spec.is_base base.now }
{
    begins_pair(base) && !is_known(key_of(base)) && are_base_bytes(base)
}

/// Whether this begins with a pair of a key that sources send.
fn begins_known(rest: &[u8]) -> bool
    ensures { result ≡ spec.begins_known rest.now }
{
    begins_pair(rest) && is_known(key_of(rest))
}

/// Whether the part is the end of a base URL and the first pair of the source.
#[tactic(auto, unfolding(crate::specs::Pieces::has_base))]
fn has_base(part: &[u8]) -> bool
    ensures { result ≡ spec.has_base part.now }
{
    is_base(base_of(part)) && begins_known(after_base(part))
}

/// Appends the part, as two pieces if its first one is of a base URL.
fn push_opened<'a>(pieces: &mut Vec<&'a [u8]>, part: &'a [u8]) -> Result<(), AllocError>
    ensures { OnOk result (texts_of pieces.new.items ≡ texts_of pieces.old.items ++ spec.opened part.now) }
{
    let mut rest = part;
    if has_base(part) {
        pieces.push(base_of(part))?;
        rest = after_base(part);
    }
    pieces.push(rest)?;
    Ok(())
}

/// The pieces of a query.
pub(crate) fn pieces(alloc: Global, query: &[u8]) -> Result<Vec<&[u8]>, AllocError>
    ensures { IfOk result (λ pieces. texts_of pieces.items ≡ spec.pieces query.now) }
{
    let parts = split_at_each(alloc, b'&', query)?;
    let mut pieces = Vec::new(alloc);
    for part in &parts {
        push_opened(&mut pieces, cleaned(part))?;
    }
    Ok(pieces)
}
