//! Reading a query of any source.

ghost use Rattle.std.specs.Prelude.{◌≡◌, ◌⊎◌, All, IfErr, IfOk};
ghost use Rattle.kev_read.specs.declared.read.TheConstants.{MAX_QUERY_BYTES};
ghost use Rattle.source_requests.specs.Requests as spec;

use crate::utf8::are_utf8;
use kev_read::{KevError, MAX_QUERY_BYTES};
use openurl_reading::{Reading, read_openurl};
use source_queries::source_query;
use std::alloc::Global;

/// Reads a query of any source, also one that is damaged or in another encoding than UTF-8.
///
/// `TooLong` if it has more than 65,536 bytes, before or after it is repaired and made UTF-8; `NoMemory` if an
/// allocation failed.
pub fn read_source(alloc: Global, query: &[u8]) -> Result<Reading, KevError>
    ensures ok { IfOk result (λ reading. reading ≡ spec.reading_of_source query.now) }
    ensures err { IfErr result (λ e. (e ≡ KevError.NoMemory)
        ⊎ ((e ≡ KevError.TooLong) × spec.IsTooLong query.now)) }
    ensures fits { IfOk result (λ _. spec.IsShort query.now) }
    ensures utf8 { IfOk result (λ reading. All spec.IsUtf8Pair reading.pairs) }
{
    if query.len() > MAX_QUERY_BYTES {
        return Err(KevError::TooLong);
    }
    let text = source_query(alloc, query)?;
    let reading = read_openurl(alloc, &text)?;
    are_utf8(reading.pairs());
    Ok(reading)
}
