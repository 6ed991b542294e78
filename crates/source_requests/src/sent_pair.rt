//! The pairs that a request gets.

ghost use Rattle.std.specs.Prelude.{◌≡◌, ◌==◌, ◌∷◌, [], IfOk, codes, count_by, filter, not, if◌then◌else◌};
ghost use Rattle.source_requests.specs.Requests as spec;

use openurl_reading::Pairs;
use std::alloc::{AllocError, Global};
use std::marker::Model;

/// A key and its value.
#[derive(Drop)]
pub(crate) struct SentPair<'a> {
    pub(crate) key: &'a str,
    pub(crate) value: &'a str,
}

impl<'a> Model for SentPair<'a> {
    ghost use Rattle.kev_read.specs.Pairs.{KeyValue};

    ghost Value = { KeyValue };

    ghost view = { λ pair. record { key = pair.key.now; value = pair.value.now } };
}

/// All pairs.
pub(crate) fn all_pairs(alloc: Global, pairs: &Pairs) -> Result<Vec<SentPair<'_>>, AllocError>
    ensures { IfOk result (λ list. list.items ≡ pairs.now) }
{
    let mut list = Vec::with_capacity(alloc, pairs.len())?;
    for index in 0..pairs.len() {
        let (key, value) = pairs.pair(index);
        list.push(SentPair { key, value })?;
    }
    Ok(list)
}

/// The pairs for targets that answer every request.
pub(crate) fn any_pairs(alloc: Global, pairs: &Pairs) -> Result<Vec<SentPair<'_>>, AllocError>
    ensures { IfOk result (λ list. list.items ≡ spec.any_pairs pairs.now) }
{
    led_by(alloc, "rft.issn", "ANY", pairs)
}

/// The key of an ISSN or an ISBN.
pub(crate) fn number_key(number: &str) -> &'static str
    ensures { result.now
        ≡ (if spec.has_issn_length number.now then codes "rft.issn" else codes "rft.isbn") }
{
    if characters(number.as_bytes()) == 8 {
        "rft.issn"
    } else {
        "rft.isbn"
    }
}

/// How many characters a number has without its hyphens.
fn characters(number: &[u8]) -> usize
    ensures { result ≡ count_by (λ b. not (b == 0x2d)) number.now }
{
    let mut count: usize = 0;
    for byte in number {
        if *byte != b'-' {
            count += 1;
        }
    }
    count
}

/// A pair of this key, and then the pairs that find no rows.
pub(crate) fn led_by<'a>(
    alloc: Global,
    key: &'a str,
    value: &'a str,
    pairs: &'a Pairs,
) -> Result<Vec<SentPair<'a>>, AllocError>
    ensures { IfOk result (λ list. list.items
        ≡ spec.led_by record { key = key.now; value = value.now } pairs.now) }
{
    let mut list = Vec::new(alloc);
    list.push(SentPair { key, value })?;
    for pair in all_pairs(alloc, pairs)? {
        if !is_row_key(pair.key) {
            list.push(pair)?;
        }
    }
    Ok(list)
}

/// Whether the key finds rows.
fn is_row_key(key: &str) -> bool
    ensures { result ≡ spec.is_row_key key.now }
{
    key == "rft.issn" || key == "rft.eissn" || key == "rft.isbn"
}
