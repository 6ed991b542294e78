//! The whole query.

ghost use Rattle.std.specs.Prelude.{◌≡◌, ◌++◌, IfOk, OnOk};
ghost use Rattle.text_model.specs.Texts.{texts_of};
ghost use Rattle.query_repair.specs.Pieces.{pieces};
ghost use Rattle.query_repair.specs.Joining.{joined};
ghost use Rattle.query_repair.specs.Repair as spec;

use crate::joining::joined;
use crate::keys::begins_pair;
use crate::pieces::{cleaned, pieces, split_at_each};
use std::alloc::{AllocError, Global};

/// The query in the key/encoded-value form.
///
/// It may have any bytes. The result has at most twice their number. `AllocError` if an allocation failed.
#[tactic(auto, unfolding(crate::specs::Repair::repaired))]
pub fn repaired(alloc: Global, query: &[u8]) -> Result<Vec<u8>, AllocError>
    ensures { IfOk result (λ text. text.items ≡ spec.repaired query.now) }
{
    let parts = split_at_each(alloc, b'&', query)?;
    if has_no_second_pair(&parts) {
        let separated = separated(alloc, query)?;
        joined_pieces(alloc, &separated)
    } else {
        joined_pieces(alloc, query)
    }
}

/// The query with its pieces joined.
fn joined_pieces(alloc: Global, query: &[u8]) -> Result<Vec<u8>, AllocError>
    ensures { IfOk result (λ text. text.items ≡ joined (pieces query.now)) }
{
    let pieces = pieces(alloc, query)?;
    let text = joined(alloc, &pieces)?;
    Ok(text)
}

/// Whether no `&` is before a pair.
fn has_no_second_pair(parts: &[&[u8]]) -> bool
    ensures { result ≡ spec.has_no_second_pair (texts_of parts.now) }
{
    match parts {
        [] => true,
        [_, others @ ..] => !has_pair(others),
    }
}

fn has_pair(parts: &[&[u8]]) -> bool
    ensures { result ≡ spec.has_pair (texts_of parts.now) }
{
    for part in parts {
        if begins_pair(cleaned(part)) {
            return true;
        }
    }
    false
}

/// What is before a part: `&` if a pair follows.
fn between(part: &[u8]) -> u8
    ensures { result ≡ spec.between part.now }
{
    if begins_pair(part) { b'&' } else { b';' }
}

/// The query with `&` for each `;` before a pair.
#[tactic(auto, unfolding(crate::specs::Repair::separated))]
fn separated(alloc: Global, query: &[u8]) -> Result<Vec<u8>, AllocError>
    ensures { IfOk result (λ text. text.items ≡ spec.separated query.now) }
{
    let parts = split_at_each(alloc, b';', query)?;
    let text = separated_parts(alloc, &parts)?;
    Ok(text)
}

fn separated_parts(alloc: Global, parts: &[&[u8]]) -> Result<Vec<u8>, AllocError>
    ensures { IfOk result (λ text. text.items ≡ spec.separated_parts (texts_of parts.now)) }
{
    let mut text = Vec::new(alloc);
    if let [first, others @ ..] = parts {
        text.extend_from_slice(first)?;
        push_others(&mut text, others)?;
    }
    Ok(text)
}

fn push_others(text: &mut Vec<u8>, others: &[&[u8]]) -> Result<(), AllocError>
    ensures { OnOk result (text.new.items ≡ text.old.items ++ spec.after_first (texts_of others.now)) }
{
    for part in others {
        text.push(between(part))?;
        text.extend_from_slice(part)?;
    }
    Ok(())
}
