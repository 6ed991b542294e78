//! What readings have.

use openurl_reading::{Pairs, read_openurl};
use std::alloc::Global;
use std::test::Fail;

/// A query, and values of its reading: a key and its first value, which is empty if the key has none.
pub(crate) type Case = (&'static str, &'static [(&'static str, &'static str)]);

/// The number of the first case whose reading has another value, and that value.
pub(crate) fn first_difference(alloc: Global, cases: &[Case]) -> Result<Option<String>, Fail> {
    for (query, values) in cases {
        let reading = read_openurl(alloc, query.as_bytes())?;
        if let Some(key) = other_value(reading.pairs(), values) {
            let found = reading.pairs().first(key).unwrap_or("");
            return Ok(Some(format!(in alloc; "{query}: {key} is {found}")?));
        }
    }
    Ok(None)
}

/// The first key that has another first value.
fn other_value<'a>(pairs: &Pairs, values: &'a [(&'static str, &'static str)]) -> Option<&'a str> {
    for (key, value) in values {
        if pairs.first(key).unwrap_or("") != *value {
            return Some(key);
        }
    }
    None
}

/// The values of a key, each with a space after it.
pub(crate) fn values(alloc: Global, pairs: &Pairs, key: &str) -> Result<String, Fail> {
    let mut all = String::new(alloc);
    for index in 0..pairs.len() {
        let (name, value) = pairs.pair(index);
        if name == key {
            all.push_str(value)?;
            all.push_str(" ")?;
        }
    }
    Ok(all)
}
