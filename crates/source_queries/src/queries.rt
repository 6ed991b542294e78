//! The whole query.

ghost use Rattle.std.specs.Prelude.{◌≡◌, IfOk};
ghost use Rattle.source_queries.specs.Utf8 as spec;

use crate::forms::written;
use crate::utf8::is_utf8_in;
use query_repair::repaired;
use request_encodings::declared_in;
use std::alloc::{AllocError, Global};

/// The query of a source, repaired and in UTF-8.
///
/// It may have any bytes. `AllocError` if an allocation failed.
#[tactic(auto, unfolding(crate::specs::Utf8::source_query))]
pub fn source_query(alloc: Global, query: &[u8]) -> Result<Vec<u8>, AllocError>
    ensures { IfOk result (λ text. text.items ≡ spec.source_query query.now) }
{
    let repaired = repaired(alloc, query)?;
    in_utf8(alloc, repaired)
}

/// The query with its names and values in UTF-8.
#[tactic(auto, unfolding(crate::specs::Utf8::utf8_query))]
fn in_utf8(alloc: Global, query: Vec<u8>) -> Result<Vec<u8>, AllocError>
    ensures { IfOk result (λ text. text.items ≡ spec.utf8_query query.items) }
{
    let encoding = declared_in(alloc, &query)?;
    if is_utf8_in(alloc, encoding, &query)? {
        return Ok(query);
    }
    let text = written(alloc, encoding, &query)?;
    Ok(text.into_bytes())
}
