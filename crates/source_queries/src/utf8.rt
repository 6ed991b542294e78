//! Whether a query is UTF-8.

ghost use Rattle.std.specs.Prelude.{◌≡◌, ◌&&◌, IfOk};
ghost use Rattle.std.specs.List.{list_all};
ghost use Rattle.std.specs.Str.{is_utf8};
ghost use Rattle.form_urlencoded.specs.Form as form;
ghost use Rattle.source_queries.specs.Utf8 as spec;

use form_urlencoded::raw_pairs;
use request_encodings::{Encoding, is_utf8_value};
use std::alloc::{AllocError, Global};

/// Whether all names and values of the query are UTF-8, and this encoding of it is UTF-8 too.
#[tactic(auto, unfolding(crate::specs::Utf8::is_utf8_in))]
pub(crate) fn is_utf8_in(
    alloc: Global,
    encoding: Encoding,
    query: &[u8],
) -> Result<bool, AllocError>
    ensures { IfOk result (λ is. is ≡ spec.is_utf8_in encoding query.now) }
{
    if is_utf8(encoding) {
        are_utf8(alloc, query)
    } else {
        Ok(false)
    }
}

fn is_utf8(encoding: Encoding) -> bool
    ensures { result ≡ spec.is_utf8_encoding encoding }
{
    matches!(encoding, Encoding::Utf8)
}

fn are_utf8(alloc: Global, query: &[u8]) -> Result<bool, AllocError>
    ensures { IfOk result (λ are. are ≡ list_all spec.is_utf8_pair (form.parse query.now)) }
{
    for (name, value) in raw_pairs(query) {
        if !is_utf8_pair(alloc, name, value)? {
            return Ok(false);
        }
    }
    Ok(true)
}

fn is_utf8_pair(alloc: Global, name: &[u8], value: &[u8]) -> Result<bool, AllocError>
    ensures { IfOk result (λ is. is ≡ is_utf8 (form.decode name.now) && is_utf8 (form.decode value.now)) }
{
    Ok(is_utf8_value(alloc, name)? && is_utf8_value(alloc, value)?)
}
