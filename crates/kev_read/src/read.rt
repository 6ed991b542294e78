//! Reading a query: its limits, pairs and versions.

ghost use Rattle.std.specs.Prelude.{◌≡◌, ◌≤◌, ◌<◌, ◌↔◌, ◌⊎◌, length, IfOk, IfErr, IsTrue, Some, None};
ghost use Rattle.kev_read.specs.Pairs.{pairs_of};
ghost use Rattle.kev_read.specs.ReadQuery.{IsBounded};
ghost use Rattle.kev_read.specs.Refusal.{refusal};

use crate::error::KevError;
use crate::key_order::key_order;
use crate::pair_reader::read_pairs;
use crate::request::Request;
use crate::version::states_other_version;
use form_urlencoded::raw_pairs;
use std::alloc::Global;

/// The maximum size of a query, in bytes.
pub const MAX_QUERY_BYTES: usize = 65_536;

/// The maximum number of pairs in a request.
pub const MAX_PAIRS: usize = 4_096;

/// Reads a query in the key/encoded-value form of ANSI/NISO Z39.88-2004.
///
/// The pairs are those of [`form_urlencoded::parse`]: the query is split at each `&`, empty pieces are
/// dropped, and the others are decoded, with U+FFFD for bytes that are not UTF-8. The versions are
/// compared decoded.
///
/// Differences from the standard, each with its test in `tests/commands/test_requests.py`:
/// - `ctx_ver` and `url_ver` may be missing; if one is given more than once, its first value counts
///   (`test_refused_queries`).
/// - Texts are read as UTF-8 whatever `ctx_enc` says; bytes that are not UTF-8 become U+FFFD (`test_first_values`).
/// - Nothing is fetched: a description by reference, such as `rft_ref`, is a text like any other
///   (`test_first_values`).
/// - No key is checked against a metadata format; each is kept under its own name, even `rft_val_fmt`
///   (`test_first_values`).
/// - Only `rft.au`, `rft_id` and declared keys are lists (`test_lists`). For any other key the first value counts, even
///   for identifiers such as `svc_id` (`test_first_values`).
/// - An empty value is a value, and a key without `=` has an empty value (`test_first_values`).
/// - A query has at most 65,536 bytes, and 4,096 pairs that are not empty (`test_refused_queries`).
pub fn read_kev(alloc: Global, query: &[u8]) -> Result<Request, KevError>
    ensures accepted { IfOk result (λ _. refusal query.now ≡ None) }
    ensures pairs { IfOk result (λ request. request.pairs ≡ pairs_of query.now) }
    ensures query_bytes { IfOk result (λ request. request.query_bytes ≡ length query.now) }
    ensures bounded { IfOk result IsBounded }
    ensures refused { IfErr result (λ e. (e ≡ KevError.NoMemory) ⊎ (refusal query.now ≡ Some e)) }

    // Even if memory has run out.
    ensures too_long { (result ≡ Err KevError.TooLong) ↔ (MAX_QUERY_BYTES < length query.now) }
    ensures too_many { (result ≡ Err KevError.TooManyPairs)
        ↔ ((length query.now ≤ MAX_QUERY_BYTES) × (MAX_PAIRS < length (pairs_of query.now))) }
    ensures limits { (MAX_QUERY_BYTES ≡ 65536) × (MAX_PAIRS ≡ 4096) }
{
    if query.len() > MAX_QUERY_BYTES {
        return Err(KevError::TooLong);
    }
    if has_too_many_pairs(query) {
        return Err(KevError::TooManyPairs);
    }
    let pairs = read_pairs(alloc, query)?;
    if states_other_version(&pairs) {
        return Err(KevError::WrongVersion);
    }
    let order = key_order(alloc, &pairs)?;
    Ok(Request::new(pairs, order, query.len()))
}

#[tactic(auto, using(crate::proofs::PairCount::two_bytes_a_pair))]
fn has_too_many_pairs(query: &[u8]) -> bool
    ensures { IsTrue result ↔ (MAX_PAIRS < length (pairs_of query.now)) }
{
    // A pair has at least one byte, and an `&` separates it from the next.
    query.len() > 2 * MAX_PAIRS && pair_count(query) > MAX_PAIRS
}

/// How many pairs a query has, without decoding them.
fn pair_count(query: &[u8]) -> usize
    ensures { result ≡ length (pairs_of query.now) }
{
    let mut count = 0;
    for _ in raw_pairs(query) {
        count += 1;
    }
    count
}
