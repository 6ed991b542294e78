//! Requests: filters of the pairs, the values of a key that no rule can name, and where filling stops.

use crate::environments::{has_texts, nearly_full};
use kev_read::{KeyValues, Request, read_kev};
use std::alloc::Global;
use std::test::Fail;
use target_vars::{Env, VarsError};

/// Whether the key has these values.
fn has_values(request: &Request, key: &str, values: &[&str]) -> bool {
    for (i, value) in request.all(key).enumerate() {
        if values.get(i).copied() != Some(value) {
            return false;
        }
    }
    request.all(key).count() == values.len()
}

#[test]
fn filters_the_pairs(rt: HostRuntime) -> Result<(), Fail> {
    let request = read_kev(rt.alloc(), b"x=1&y=2&x=3")?;
    let are_found = has_values(&request, "x", &["1", "3"]);
    let is_none = request.first("z").is_none();
    assert_eq!(rt; (request.pairs(), are_found, is_none), (3, true, true));
    Ok(())
}

/// Neither a template nor code can name the key of the last pair.
const EMPTY_KEY: &[u8] = b"c=1&a=2&b=3&a=4&bb=5&c=6&b=7&=8";

/// Some of its pairs, of which there are eight.
const PAIRS: [(usize, (&str, &str)); 3] = [(0, ("c", "1")), (4, ("bb", "5")), (7, ("", "8"))];

fn has_pairs(request: &Request, pairs: &[(usize, (&str, &str))]) -> bool {
    for &(index, pair) in pairs {
        if index >= request.pairs() || request.pair(index) != pair {
            return false;
        }
    }
    true
}

/// Whether this is the one value of the key.
fn has_only_value(values: &KeyValues<'_>, key: &str, value: &[u8]) -> bool {
    let (first, count) = values.members_at(key);
    let index = first as usize;
    if count != 1 || index >= values.len() {
        return false;
    }
    let (start, length) = values.span(index);
    let place = start as usize..start as usize + length as usize;
    values.buffer().get(place) == Some(value)
}

/// How many members there are under the empty key if it is filled in as a list.
fn count_filled(alloc: Global, request: &Request) -> Result<usize, VarsError> {
    let mut env = Env::new(alloc);
    request.fill(&["c", "z", "a", "", "c"], &mut env)?;
    Ok(env.count(""))
}

/// How many pairs there are, whether those above are among them, whether the empty key has its value, and how many
/// members there are under it.
fn empty_key(alloc: Global) -> Result<(usize, bool, bool, usize), Fail> {
    let request = read_kev(alloc, EMPTY_KEY)?;
    let has_pairs = has_pairs(&request, &PAIRS);
    let has_value = has_only_value(&request.values_by_key(alloc)?, "", b"8");
    let count = count_filled(alloc, &request)?;
    Ok((request.pairs(), has_pairs, has_value, count))
}

#[test]
fn a_key_may_be_empty(rt: HostRuntime) -> Result<(), Fail> {
    assert_eq!(rt; empty_key(rt.alloc())?, (8, true, true, 1));
    Ok(())
}

/// The result for a request of which the second value is too long, and whether the pairs before it alone were added.
fn fill_nearly_full(alloc: Global) -> Result<(Result<(), VarsError>, bool), Fail> {
    let request = read_kev(alloc, b"x=1&y=22&z=3")?;
    let mut env = nearly_full(alloc)?;
    let filled = request.fill(&[], &mut env);
    let texts = [("x", Some("1")), ("y", None), ("z", None)];
    Ok((filled, has_texts(&env, &texts)))
}

#[test]
fn stops_at_a_refused_pair(rt: HostRuntime) -> Result<(), Fail> {
    assert_eq!(rt;
        fill_nearly_full(rt.alloc())?,
        (Err(VarsError::TooLarge), true)
    );
    Ok(())
}
