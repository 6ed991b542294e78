//! ISBNs (ISO 2108).

ghost use Rattle.std.specs.Prelude.{◌≡◌, ◌<◌, ◌≤◌, ◌||◌, true, false, length, IfOk, IfSome};
ghost use Rattle.standard_numbers.specs.Spellings.{are_digits};
ghost use Rattle.standard_numbers.specs.Isbn as spec;

use crate::check_digits::{alternating, weighted};
use crate::ranked::Ranked;
use crate::spellings::{Kind, is_joint, spellings};
use crate::texts::{ascii_text, byte_at};
use std::alloc::{AllocError, Global};
use uri_text::Text;

/// The ISBNs in a text, each as 13 digits, those with a right check digit first.
///
/// The text may have any bytes. Numbers are found with hyphens and spaces, one at most between two digits, and not next
/// to another digit. One of ten digits becomes the one of 13 with the check digit that the standard gives, and goes
/// first if its own was right. One that the text has twice is there twice. `AllocError` if an allocation failed.
pub fn isbns_in(alloc: Global, text: &[u8]) -> Result<Vec<Text>, AllocError>
    ensures { IfOk result (λ isbns. isbns.items ≡ spec.isbns_in text.now) }
{
    let capitals = text.to_ascii_uppercase(alloc)?;
    let found = spellings(alloc, Kind::Isbn, &capitals)?;
    let mut ranked = Ranked::new(alloc);
    for spelling in &found {
        let digits = compact(alloc, spelling)?;
        let isbn = isbn_of(alloc, &digits)?;
        ranked.push(isbn, is_right_isbn(&digits))?;
    }
    let isbns = ranked.into_list()?;
    Ok(isbns)
}

/// The length of the ISBN that a text begins with, after the byte before; `None` if it does not begin with one.
pub(crate) fn isbn_length(before: u8, text: &[u8]) -> Option<usize>
    ensures value { result ≡ spec.isbn_length before text.now }
    ensures within { IfSome result (λ n. (0 < n) × (n ≤ length text.now)) }
{
    if before.is_ascii_digit() {
        return None;
    }
    match length_of_13(text) {
        Some(length) => Some(length),
        None => length_of_10(text),
    }
}

fn length_of_13(text: &[u8]) -> Option<usize>
    ensures value { result ≡ spec.length_of_13 text.now }
    ensures within { IfSome result (λ n. (0 < n) × (n ≤ length text.now)) }
{
    if has_prefix(text) {
        ended(text, digits_end(false, 13, text))
    } else {
        None
    }
}

fn length_of_10(text: &[u8]) -> Option<usize>
    ensures value { result ≡ spec.length_of_10 text.now }
    ensures within { IfSome result (λ n. (0 < n) × (n ≤ length text.now)) }
{
    ended(text, digits_end(true, 10, text))
}

fn has_prefix(text: &[u8]) -> bool
    ensures { result ≡ spec.has_prefix text.now }
{
    text.starts_with(b"978") || text.starts_with(b"979")
}

/// The length, unless a digit follows.
fn ended(text: &[u8], end: Option<usize>) -> Option<usize>
    requires { IfSome end (λ n. (0 < n) × (n ≤ length text.now)) }
    ensures value { result ≡ spec.ended text.now end }
    ensures within { IfSome result (λ n. (0 < n) × (n ≤ length text.now)) }
{
    let length = end?;
    if byte_at(text, length).is_ascii_digit() {
        None
    } else {
        Some(length)
    }
}

/// How many bytes there are up to the last of that many digits; `None` if the text does not begin with them. The last
/// may be `X` if `tens` says so.
fn digits_end(tens: bool, count: usize, text: &[u8]) -> Option<usize>
    requires { 0 < count }
    ensures value { result ≡ spec.digits_end tens 0 count false text.now }
    ensures within { IfSome result (λ n. (0 < n) × (n ≤ length text.now)) }
{
    let mut left = count;
    let mut may_join = false;
    for (read, byte) in text.iter().enumerate() {
        if byte.is_ascii_digit() || tens && left == 1 && *byte == b'X' {
            if left == 1 {
                return Some(read + 1);
            }
            left -= 1;
            may_join = true;
        } else if may_join && is_joint(*byte) {
            may_join = false;
        } else {
            return None;
        }
    }
    None
}

/// The bytes without hyphens and spaces.
fn compact(alloc: Global, spelling: &[u8]) -> Result<Vec<u8>, AllocError>
    ensures { IfOk result (λ digits. digits.items ≡ spec.compact spelling.now) }
{
    let mut digits = Vec::with_capacity(alloc, spelling.len())?;
    for byte in spelling {
        if !is_joint(*byte) {
            digits.push(*byte)?;
        }
    }
    Ok(digits)
}

/// The ISBN of 13 digits of ten or 13.
fn isbn_of(alloc: Global, digits: &[u8]) -> Result<Text, AllocError>
    requires { (spec.is_isbn digits.now || are_digits 10 digits.now) ≡ true }
    ensures { IfOk result (λ isbn. isbn ≡ spec.isbn_of digits.now) }
{
    if digits.len() == 13 {
        ascii_text(alloc, digits)
    } else {
        isbn13_of(alloc, digits)
    }
}

/// The ISBN of 13 digits of one of ten (ISO 2108).
fn isbn13_of(alloc: Global, digits: &[u8]) -> Result<Text, AllocError>
    requires { are_digits 10 digits.now ≡ true }
    ensures { IfOk result (λ isbn. isbn ≡ spec.isbn13_of digits.now) }
{
    let mut body = Vec::with_capacity(alloc, 13)?;
    body.extend_from_slice(b"978")?;
    body.extend_from_slice(digits.split_at(9).0)?;
    let check = (10 - alternating(&body) % 10) % 10;
    body.push(b'0' + check as u8)?;
    ascii_text(alloc, &body)
}

/// Whether the check digit of ten or 13 digits is the one that the standard gives.
fn is_right_isbn(digits: &[u8]) -> bool
    requires { (spec.is_isbn digits.now || are_digits 10 digits.now) ≡ true }
    ensures { result ≡ spec.is_right_isbn digits.now }
{
    if digits.len() == 13 {
        alternating(digits).is_multiple_of(10)
    } else {
        weighted(10, digits).is_multiple_of(11)
    }
}
