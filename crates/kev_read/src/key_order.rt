//! The pairs of a request in the order of their keys.

ghost use Rattle.std.specs.Prelude.{◌≡◌, ◌<◌, ◌≤◌, ℕ, All, IfOk, Some, false, get_or, length, true};
ghost use Rattle.std.specs.List.{range_with_len};
ghost use Rattle.std.specs.List.Sorted.{IsNonDecreasingBy, IsPartitionPoint};
ghost use Rattle.std.specs.Option.{option_map};
ghost use Rattle.std.specs.Ordering.{is_le, ordering_index};
ghost use Rattle.std.specs.Str.{bytes_eq};
ghost use Rattle.kev_read.specs.Private.KeyOrder.{IsKeyOrder, IsKeyRun, compared, has_index, key_at, passes_at};
ghost use Rattle.kev_read.specs.Private.Layout.{key_text};

use crate::marked_key::MarkedKey;
use crate::pairs::Pairs;
use crate::read::MAX_PAIRS;
use std::alloc::{AllocError, Global};
use std::cmp::Ordering;

/// The indices of all pairs, in the order of their keys; pairs with the same key are in the order of the query.
pub(crate) fn key_order(alloc: Global, pairs: &Pairs) -> Result<Vec<u16>, AllocError>
    requires { length pairs.now ≤ MAX_PAIRS }
    ensures { IfOk result (λ order. IsKeyOrder pairs.now order.items) }
{
    let mut order = indices(alloc, pairs.len() as u16)?;
    order.sort_by(|a, b| compare_at(pairs, *a, *b))?;
    Ok(order)
}

fn indices(alloc: Global, count: u16) -> Result<Vec<u16>, AllocError>
    ensures { IfOk result (λ indices. indices.items ≡ range_with_len 0 count) }
{
    (0..count).collect(alloc)
}

/// How the keys of the pairs at two indices compare, by their marks if those differ.
#[inline(always)]
fn compare_at(pairs: &Pairs, index: u16, other: u16) -> Ordering
    ensures { result ≡ compared (key_at pairs.now index) (key_at pairs.now other) }
{
    match (pairs.mark(index as usize), pairs.mark(other as usize)) {
        (Some(mark), Some(other_mark)) if mark != other_mark => mark.cmp(&other_mark),
        _ => compare_keys(pairs, index, other),
    }
}

/// How the keys of the pairs at two indices compare. It is called seldom, and so kept out of loops.
#[inline(never)]
fn compare_keys(pairs: &Pairs, index: u16, other: u16) -> Ordering
    ensures { result ≡ compared (key_at pairs.now index) (key_at pairs.now other) }
{
    compare(pairs, index, pairs.key(other as usize))
}

/// How the key of the pair at the index compares with another; no key comes before every key.
#[inline(always)]
fn compare(pairs: &Pairs, index: u16, other: Option<MarkedKey<'_>>) -> Ordering
    ensures { result ≡ compared (key_at pairs.now index) (option_map key_text other.entry) }
{
    match (pairs.key(index as usize), other) {
        (Some(key), Some(other)) => key.compare(other),
        (Some(_), None) => Ordering::Greater,
        (None, Some(_)) => Ordering::Less,
        (None, None) => Ordering::Equal,
    }
}

/// Where the pairs that have the key are in the order: the place of the first, and how many, by binary search.
pub(crate) fn run_of(pairs: &Pairs, order: &[u16], key: &str) -> (usize, usize)
    requires { IsKeyOrder pairs.now order.now }
    ensures { IsKeyRun pairs.now order.now key.now result.0 result.1 }
{
    run_of_marked(pairs, order, MarkedKey::new(key))
}

/// [`run_of`], of a key with its mark.
fn run_of_marked(pairs: &Pairs, order: &[u16], key: MarkedKey<'_>) -> (usize, usize)
    requires { IsKeyOrder pairs.now order.now }
    ensures { IsKeyRun pairs.now order.now key.entry.text.now result.0 result.1 }
{
    let start = order.partition_point(|index| compare(pairs, *index, Some(key)).is_lt());
    let (_, rest) = order.split_at(start);
    (start, run_length(pairs, rest, key))
}

/// How many of the indices, whose keys are in rising order, come before the first with a greater key. Most keys have
/// one pair or none, so a search is made only if the second index has no greater key.
fn run_length(pairs: &Pairs, rest: &[u16], key: MarkedKey<'_>) -> usize
    requires { IsNonDecreasingBy (λ index. ordering_index (compared (key_at pairs.now index) (Some key.text.now)))
        rest.now }
    ensures bound { result ≤ length rest.now }
    ensures split { IsPartitionPoint
        (λ index. is_le (compared (key_at pairs.now index) (Some key.entry.text.now)) ≡ true)
        (λ index. is_le (compared (key_at pairs.now index) (Some key.entry.text.now)) ≡ false) rest.now result }
{
    if is_past(pairs, rest, 0, key) {
        0
    } else if is_past(pairs, rest, 1, key) {
        1
    } else {
        rest.partition_point(|index| compare(pairs, *index, Some(key)).is_le())
    }
}

/// Whether the index at the place is that of a greater key, or there is no index at the place.
fn is_past(pairs: &Pairs, indices: &[u16], place: usize, key: MarkedKey<'_>) -> bool
    ensures past { result ≡ true → place < length indices.now
        → is_le (compared (key_at pairs.now (get_or indices.now place 0)) (Some key.entry.text.now)) ≡ false }
    ensures not_past { result ≡ false → (place < length indices.now)
        × (is_le (compared (key_at pairs.now (get_or indices.now place 0)) (Some key.entry.text.now)) ≡ true) }
{
    if place < indices.len() {
        !compare(pairs, indices[place], Some(key)).is_le()
    } else {
        true
    }
}

/// The indices of the pairs that have the key.
pub(crate) fn indices_of<'a>(pairs: &Pairs, order: &'a [u16], key: &str) -> &'a [u16]
    requires { IsKeyOrder pairs.now order.now }
    ensures found { (index : ℕ) → has_index index result.now ≡ passes_at (bytes_eq key.now) pairs.now index }
    ensures within { All (λ index. index < length pairs.now) result.now }
{
    let (first, count) = run_of(pairs, order, key);
    &order[first..first + count]
}
