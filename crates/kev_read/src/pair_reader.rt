//! Reading the pairs of a query.

ghost use Rattle.std.specs.Prelude.{◌≡◌, ◌≢◌, ◌<◌, ◌≤◌, true, All, IfOk, OnOk, drop, length, slice_index, slice_range};
ghost use Rattle.form_urlencoded.specs.Form.{ampersand};
ghost use Rattle.kev_read.specs.Pairs.{decoded, pairs_of};
ghost use Rattle.kev_read.specs.Private.Layout.{IsPlaced, pair_in};
ghost use Rattle.kev_read.specs.Private.Ordinary.{IsOrdinary};
ghost use Rattle.kev_read.specs.Private.Reading.{Grows, HoldsPart, HoldsQuery, IsFirstPair};

use crate::decoding::push_decoded;
use crate::marked_key::mark;
use crate::pairs::{Pairs, Place, Span};
use crate::parts::{key_part, value_part};
use std::alloc::{AllocError, Global};

/// The pairs of a query.
pub(crate) fn read_pairs(alloc: Global, query: &[u8]) -> Result<Pairs, AllocError>
    ensures { IfOk result (λ pairs. pairs ≡ pairs_of query.now) }
{
    // A decoded part is no longer than its code, unless U+FFFD replaces bytes that are not UTF-8.
    let mut text = Vec::with_capacity(alloc, 2 * query.len())?;
    text.extend_from_slice(query)?;
    let mut places = Vec::with_capacity(alloc, query.len() / 16)?;
    let mut done = 0;
    while done < query.len() {
        if query[done] == b'&' {
            done += 1;
        } else {
            let (place, next) = read_pair(&mut text, query, done)?;
            places.push(place)?;
            done = next;
        }
    }
    Ok(Pairs::new(text, places))
}

/// Where the pair is in the text whose key begins at the place in the query, and the place after the pair and the `&`
/// that ends it.
fn read_pair(text: &mut Vec<u8>, query: &[u8], start: usize) -> Result<(Place, usize), AllocError>
    requires within { start < length query.now }
    requires some { slice_index query.now start ≢ ampersand }
    requires held { HoldsQuery query.now text.old.items }
    ensures grows { OnOk result (Grows text.old.items text.new.items) }
    ensures placed { IfOk result (λ read. IsPlaced text.new.items read.0) }
    ensures first { IfOk result (λ read. IsFirstPair (drop start query.now) (pair_in text.new.items read.0)
        (drop read.1 query.now)) }
    ensures next { IfOk result (λ read. start < read.1) }
{
    let (key_len, is_ordinary) = key_part(query.split_at(start).1);
    let key_end = start + key_len;
    let key = read_part(text, query, start, key_end, is_ordinary)?;
    let mark = mark(&text[key.start..key.end]);
    if key_end == query.len() || query[key_end] == b'&' {
        let value = Span {
            start: key_end,
            end: key_end,
        };
        return Ok((Place { key, value, mark }, key_end + 1));
    }
    let value_start = key_end + 1;
    let (value_len, is_ordinary) = value_part(query.split_at(value_start).1);
    let value_end = value_start + value_len;
    let value = read_part(text, query, value_start, value_end, is_ordinary)?;
    Ok((Place { key, value, mark }, value_end + 1))
}

/// Where the decoded part of the query is in the text, to which it is appended unless its bytes stand for themselves.
#[inline(always)]
fn read_part(
    text: &mut Vec<u8>,
    query: &[u8],
    start: usize,
    end: usize,
    is_ordinary: bool,
) -> Result<Span, AllocError>
    requires forwards { start ≤ end }
    requires within { end ≤ length query.now }
    requires held { HoldsQuery query.now text.old.items }
    requires ordinary { is_ordinary ≡ true → All IsOrdinary (slice_range query.now start end) }
    ensures grows { OnOk result (Grows text.old.items text.new.items) }
    ensures part { IfOk result (HoldsPart text.new.items (decoded (slice_range query.now start end))) }
{
    if is_ordinary {
        return Ok(Span { start, end });
    }
    let start_of_text = text.len();
    push_decoded(text, &query[start..end])?;
    Ok(Span {
        start: start_of_text,
        end: text.len(),
    })
}
