//! Which pairs of a source count.

ghost use Rattle.std.specs.Prelude.{◌≡◌, ◌-◌, ◌==◌, ◌&&◌, ◌||◌, IfOk, length, not};
ghost use Rattle.std.specs.Str.{str_eq_ignore_ascii_case};
ghost use Rattle.text_model.specs.Texts.{texts_of};
ghost use Rattle.openurl_reading.specs.Counting as spec;
ghost use Rattle.openurl_reading.specs.Keys.{is_one_of};

use crate::keys::{is_one_of, key_of};
use crate::pairs::{Pairs, push_text};
use kev_read::QueryPairs;
use standard_names::known_columns;
use std::alloc::{AllocError, Global};

/// The maximum number of pairs that count.
const MOST_PAIRS: usize = 300;

/// The pairs that count, and how many are left out beyond their maximum number.
pub(crate) fn counting(alloc: Global, query: &QueryPairs) -> Result<(Pairs, usize), AllocError>
    ensures counting { IfOk result (λ read. read.0 ≡ spec.counting query.now) }
    ensures left_out { IfOk result (λ read. read.1 ≡ spec.left_out query.now) }
{
    let mut list = Vec::new(alloc);
    let mut left_out = 0;
    for index in 0..query.len() {
        let (sent, value) = query.pair(index);
        let name = key_of(alloc, sent)?;
        let key = name.as_str();
        if is_accepted(alloc, key, value)? {
            if list.len() < MOST_PAIRS {
                push_text(alloc, &mut list, key, value)?;
            } else {
                left_out += 1;
            }
        }
    }
    Ok((Pairs::new(list), left_out))
}

/// Whether a pair counts.
fn is_accepted(alloc: Global, key: &str, value: &str) -> Result<bool, AllocError>
    ensures { IfOk result (λ is. is ≡ spec.is_accepted record { key = key.now; value = value.now }) }
{
    let is_free = !is_added_key(key.as_bytes()) && !is_column(key);
    let is_void = is_void(alloc, key, value)?;
    Ok(is_free && !is_void)
}

/// Whether the key is one of those that the resolver adds.
fn is_added_key(key: &[u8]) -> bool
    ensures { result ≡ spec.is_added_key key.now }
{
    key.len() >= 2 && key[0] == b'x' && key[1] == b'.'
}

/// Whether the key is a column of holdings tables.
fn is_column(key: &str) -> bool
    ensures { result ≡ spec.is_column key.now }
{
    is_one_of(known_columns(), key) || key == "title_page"
}

/// Whether a text is one of these, in small or capital letters.
pub(crate) fn is_one_in_any_case(texts: &[&str], text: &str) -> bool
    ensures { result ≡ spec.is_one_in_any_case (texts_of texts.now) text.now }
{
    for one in texts {
        if is_same(one, text) {
            return true;
        }
    }
    false
}

/// Whether the value says nothing under the key.
fn is_void(alloc: Global, key: &str, value: &str) -> Result<bool, AllocError>
    ensures { IfOk result (λ is. is ≡ spec.is_void record { key = key.now; value = value.now }) }
{
    if is_blank(value.as_bytes()) {
        return Ok(true);
    }
    if is_any_row(alloc, key, value.as_bytes())? {
        return Ok(true);
    }
    Ok(key == "rft_id" && is_prefix(value))
}

/// Whether the value finds the rows of targets that answer every request.
fn is_any_row(alloc: Global, key: &str, value: &[u8]) -> Result<bool, AllocError>
    ensures { IfOk result (λ is. is ≡ (is_one_of spec.row_keys key.now && spec.is_any value.now)) }
{
    if is_one_of(row_keys(), key) {
        is_any(alloc, value)
    } else {
        Ok(false)
    }
}

pub(crate) fn is_blank(value: &[u8]) -> bool
    ensures { result ≡ spec.is_blank value.now }
{
    value.iter().all(|byte| *byte <= b' ')
}

/// The keys that find rows, with their names in OpenURL 0.1, and the field of a form for their numbers.
fn row_keys() -> &'static [&'static str]
    ensures { texts_of result.now ≡ spec.row_keys }
{
    &[
        "rft.issn",
        "rft.eissn",
        "rft.isbn",
        "issn",
        "eissn",
        "isbn",
        "number",
    ]
}

/// Whether the value is the number of the rows of targets that answer every request.
fn is_any(alloc: Global, value: &[u8]) -> Result<bool, AllocError>
    ensures { IfOk result (λ is. is ≡ spec.is_any value.now) }
{
    let plain = plain(alloc, value)?;
    Ok(plain.as_slice() == b"ANY".as_slice())
}

/// The value without hyphens and spaces, in upper case.
fn plain(alloc: Global, value: &[u8]) -> Result<Vec<u8>, AllocError>
    ensures { IfOk result (λ bytes. bytes.items ≡ spec.plain value.now) }
{
    let mut bytes = Vec::new(alloc);
    for byte in value {
        if is_plain(*byte) {
            bytes.push(byte.to_ascii_uppercase())?;
        }
    }
    Ok(bytes)
}

/// Neither a hyphen nor a space.
fn is_plain(byte: u8) -> bool
    ensures { result ≡ not (byte == 0x2d || byte == 0x20) }
{
    byte != b'-' && byte != b' '
}

/// Whether the value is what identifiers begin with, and no more.
fn is_prefix(value: &str) -> bool
    ensures { result ≡ spec.is_prefix value.now }
{
    is_one_in_any_case(prefixes(), value)
}

/// Whether two texts differ at most in upper and lower case.
fn is_same(text: &str, other: &str) -> bool
    ensures { result ≡ str_eq_ignore_ascii_case text.now other.now }
{
    text.eq_ignore_ascii_case(other)
}

/// What identifiers begin with.
fn prefixes() -> &'static [&'static str]
    ensures { texts_of result.now ≡ spec.prefixes }
{
    &[
        "info:doi/",
        "info:doi:",
        "info:doi/doi:",
        "info:pmid/",
        "info:pmid:",
        "info:pmcid/",
        "info:pmc/",
        "info:oclcnum/",
        "info:lccn/",
        "info:bibcode/",
        "info:arxiv/",
        "info:hdl/",
        "info:eric/",
        "info:oai/",
        "info:sici/",
        "urn:issn:",
        "urn:isbn:",
        "urn:doi:",
        "urn:nbn:",
        "doi:",
        "pmid:",
        "pmcid:",
        "oclc:",
        "issn:",
        "isbn:",
        "arxiv:",
        "oai:arxiv.org:",
        "doi.org/",
        "dx.doi.org/",
        "www.doi.org/",
        "http://doi.org/",
        "https://doi.org/",
        "http://dx.doi.org/",
        "https://dx.doi.org/",
        "http://www.doi.org/",
        "https://www.doi.org/",
    ]
}
