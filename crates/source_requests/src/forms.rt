//! Pairs as a form (URL Standard, section 5.2).

ghost use Rattle.std.specs.Prelude.{◌≡◌, [], All, IfOk, OnOk, string_bytes, if◌then◌else◌};
ghost use Rattle.source_requests.specs.Requests as spec;

use crate::sent_pair::SentPair;
use form_urlencoded::Serializer;
use kev_read::MAX_QUERY_BYTES;
use std::alloc::{AllocError, Global};

/// The form of the pairs that fit.
pub(crate) fn fitting_form(alloc: Global, pairs: &[SentPair<'_>]) -> Result<String, AllocError>
    ensures form { IfOk result (λ text. string_bytes text ≡ spec.written (spec.fitting pairs.now)) }
    ensures utf8 { IfOk result (λ _. All spec.IsUtf8Pair (spec.fitting pairs.now)) }
{
    let mut text = String::new(alloc);
    for pair in pairs {
        if !push_pair(alloc, &mut text, pair)? {
            return Ok(text);
        }
    }
    Ok(text)
}

/// Appends a pair to a form, if it fits then.
fn push_pair(alloc: Global, text: &mut String, pair: &SentPair<'_>) -> Result<bool, AllocError>
    ensures fits { IfOk result (λ is. is ≡ spec.fits (spec.with_pair (string_bytes text.old) pair.now)) }
    ensures text { OnOk result (string_bytes text.new
        ≡ (if spec.fits (spec.with_pair (string_bytes text.old) pair.now)
        then spec.with_pair (string_bytes text.old) pair.now else string_bytes text.old)) }
    ensures utf8 { IfOk result (λ _. spec.IsUtf8Pair pair.now) }
{
    let piece = form_of(alloc, pair)?;
    let separator = if text.is_empty() { "" } else { "&" };
    let len = text.len().saturating_add(separator.len());
    if len.saturating_add(piece.len()) > MAX_QUERY_BYTES {
        return Ok(false);
    }
    text.push_str(separator)?;
    text.push_str(&piece)?;
    Ok(true)
}

/// The form of one pair.
fn form_of(alloc: Global, pair: &SentPair<'_>) -> Result<String, AllocError>
    ensures form { IfOk result (λ text. string_bytes text ≡ spec.with_pair [] pair.now) }
    ensures utf8 { IfOk result (λ _. spec.IsUtf8Pair pair.now) }
{
    let mut form = Serializer::new(String::new(alloc));
    form.append_pair(pair.key, pair.value)?;
    Ok(form.finish())
}
