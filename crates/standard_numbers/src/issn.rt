//! ISSNs (ISO 3297).

ghost use Rattle.std.specs.Prelude.{◌≡◌, ◌+◌, ◌<◌, ◌≤◌, true, length, IfOk, IfSome, IsTrue};
ghost use Rattle.standard_numbers.specs.Issn as spec;

use crate::check_digits::{value, weighted};
use crate::ranked::Ranked;
use crate::spellings::{Kind, are_all_digits, are_digits, is_joint, spellings};
use crate::texts::{ascii_text, byte_at};
use std::alloc::{AllocError, Global};
use uri_text::Text;

/// The ISSNs in a text, as the standard writes them, those with a right check digit first.
///
/// The text may have any bytes. Numbers are found in letters of either case, with a hyphen, a space or neither in their
/// middle, and not next to another digit or hyphen. One that the text has twice is there twice. `AllocError` if an
/// allocation failed.
pub fn issns_in(alloc: Global, text: &[u8]) -> Result<Vec<Text>, AllocError>
    ensures { IfOk result (λ issns. issns.items ≡ spec.issns_in text.now) }
{
    let capitals = text.to_ascii_uppercase(alloc)?;
    let issns = issns_in_capitals(alloc, &capitals)?;
    Ok(issns)
}

fn issns_in_capitals(alloc: Global, text: &[u8]) -> Result<Vec<Text>, AllocError>
    ensures { IfOk result (λ issns. issns.items ≡ spec.issns_in_capitals text.now) }
{
    let said = says_issn(text);
    let found = spellings(alloc, Kind::Issn, text)?;
    let mut ranked = Ranked::new(alloc);
    for spelling in &found {
        let issn = issn_of(alloc, spelling)?;
        let bytes = issn.as_str().as_bytes();
        if counts(said, bytes) {
            let is_right = is_right_issn(bytes);
            ranked.push(issn, is_right)?;
        }
    }
    let issns = ranked.into_list()?;
    Ok(issns)
}

/// The length of the ISSN that a text begins with, after the byte before; `None` if it does not begin with one.
pub(crate) fn issn_length(before: u8, text: &[u8]) -> Option<usize>
    ensures value { result ≡ spec.issn_length before text.now }
    ensures within { IfSome result (λ n. (0 < n) × (n ≤ length text.now)) }
{
    let half = if is_joint(byte_at(text, 4)) { 5 } else { 4 };
    if touches(before) || touches(byte_at(text, half + 4)) {
        return None;
    }
    has_halves(half, text).then_some(half + 4)
}

/// Whether a text begins with four digits, and has the other four from a place on.
#[tactic(auto, using(crate::proofs::IssnForms::short_halves))]
fn has_halves(half: usize, text: &[u8]) -> bool
    requires small { half ≤ 5 }
    ensures value { result ≡ spec.has_halves half text.now }
    ensures within { IsTrue result → half + 4 ≤ length text.now }
{
    if text.len() < half + 4 {
        return false;
    }
    are_all_digits(text.split_at(4).0) && are_digits(4, text.split_at(half).1.split_at(4).0)
}

/// A digit or a hyphen.
fn touches(byte: u8) -> bool
    ensures { result ≡ spec.touches byte }
{
    byte.is_ascii_digit() || byte == b'-'
}

/// The ISSN of eight or nine bytes.
fn issn_of(alloc: Global, spelling: &[u8]) -> Result<Text, AllocError>
    requires { spec.is_issn (spec.issn_of spelling.now) ≡ true }
    ensures { IfOk result (λ issn. issn ≡ spec.issn_of spelling.now) }
{
    let mut bytes = Vec::with_capacity(alloc, 9)?;
    bytes.extend_from_slice(spelling.split_at(4).0)?;
    bytes.push(b'-')?;
    bytes.extend_from_slice(spelling.split_at(spelling.len() - 4).1)?;
    ascii_text(alloc, &bytes)
}

/// Whether the sum of the digits, times 8 to 1, is a multiple of 11 (ISO 3297, the check digit).
fn is_right_issn(issn: &[u8]) -> bool
    requires { length issn.now ≡ 9 }
    ensures { result ≡ spec.is_right_issn issn.now }
{
    (weighted(8, issn.split_at(4).0) + weighted(4, issn.split_at(5).1)).is_multiple_of(11)
}

/// Whether the text, in capitals, has the letters `ISSN`.
#[tactic(auto, using(crate::proofs::Steps::says_later, crate::proofs::Steps::says_here))]
fn says_issn(text: &[u8]) -> bool
    ensures { result ≡ spec.says_issn text.now }
{
    for (at, _) in text.iter().enumerate() {
        if text.split_at(at).1.starts_with(b"ISSN") {
            return true;
        }
    }
    false
}

/// Whether this is an ISSN, and not zeros or a span of years.
fn counts(said: bool, issn: &[u8]) -> bool
    requires { length issn.now ≡ 9 }
    ensures { result ≡ spec.counts said issn.now }
{
    issn != b"0000-0000".as_slice() && (said || is_right_issn(issn) || !is_span(issn))
}

/// Two years, the second not before the first.
fn is_span(issn: &[u8]) -> bool
    requires { length issn.now ≡ 9 }
    ensures { result ≡ spec.is_span issn.now }
{
    let (start, end) = (issn.split_at(4).0, issn.split_at(5).1);
    let (first, second) = (number_of(start), number_of(end));
    are_all_digits(end) && 1400 <= first && first <= second && second <= 2099
}

/// The number that four digits write.
fn number_of(digits: &[u8]) -> u32
    requires { length digits.now ≡ 4 }
    ensures { result ≡ spec.number_of digits.now }
{
    1000 * value(digits[0]) + 100 * value(digits[1]) + 10 * value(digits[2]) + value(digits[3])
}
