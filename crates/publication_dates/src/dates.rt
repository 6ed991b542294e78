//! The date in a text.

ghost use Rattle.std.specs.Prelude.{◌≡◌, ◌≤◌, IsTrue, IfOk, IfSome, Ok, Some, vec_items, length, take};
ghost use Rattle.std.specs.Option.{option_map};
ghost use Rattle.text_model.specs.Texts.{texts_of};
ghost use Rattle.publication_dates.specs.Dates as spec;

use crate::calendar::{dated, is_month, is_part, is_year, value};
use crate::months::{digits_of, month_in};
use crate::parts::{ascii_text, byte_at, nth, parts};
use std::alloc::{AllocError, Global};
use uri_text::Text;

/// The date in a text, as YYYY, YYYY-MM or YYYY-MM-DD; `None` if it has no year from 1000 to 2999.
///
/// The text may have any bytes. Digits count at its beginning, after spaces; elsewhere only a year does, with the name
/// of a month. `AllocError` if an allocation failed.
pub fn date_in(alloc: Global, text: &[u8]) -> Result<Option<Text>, AllocError>
    ensures { IfOk result (λ date. date ≡ spec.date_in text.now) }
{
    let trimmed = trimmed(text);
    let parts = parts(alloc, trimmed)?;
    match date_of(alloc, trimmed, &parts)? {
        Some(date) => Ok(Some(ascii_text(alloc, &date)?)),
        None => Ok(None),
    }
}

/// The text without the spaces at its ends.
fn trimmed(text: &[u8]) -> &[u8]
    ensures { result.now ≡ spec.trimmed text.now }
{
    text.trim_ascii()
}

fn date_of(alloc: Global, text: &[u8], parts: &[&[u8]]) -> Result<Option<Vec<u8>>, AllocError>
    ensures { IfOk result (λ date. option_map vec_items date ≡ spec.date_of text.now (texts_of parts.now)) }
{
    let (first, second) = (nth(parts, 0), nth(parts, 1));
    if is_year_first(text, first, second) {
        some(dated(alloc, first, second, day_after(text, second, nth(parts, 2)))?)
    } else if is_compact(text, first) {
        some(compact_date(alloc, first)?)
    } else {
        year_later(alloc, text, parts)
    }
}

/// The date in a text that does not begin with a year.
fn year_later(alloc: Global, text: &[u8], parts: &[&[u8]]) -> Result<Option<Vec<u8>>, AllocError>
    ensures { IfOk result (λ date. option_map vec_items date ≡ spec.year_later text.now (texts_of parts.now)) }
{
    let (first, second) = (nth(parts, 0), nth(parts, 1));
    if is_year_last(text, first, second, nth(parts, 2)) {
        some(year_last_date(alloc, first, second, nth(parts, 2))?)
    } else if is_month_and_year(text, first, second) {
        some(dated(alloc, second, first, b"")?)
    } else {
        named_date(alloc, text, parts)
    }
}

fn some(date: Vec<u8>) -> Result<Option<Vec<u8>>, AllocError>
    ensures { result ≡ Ok (Some date) }
{
    Ok(Some(date))
}

/// `-`, `/` or `.`.
fn is_mark(byte: u8) -> bool
    ensures { result ≡ spec.is_mark byte }
{
    byte == b'-' || byte == b'/' || byte == b'.'
}

fn is_separator(byte: u8) -> bool
    ensures { result ≡ spec.is_separator byte }
{
    is_mark(byte) || byte == b' '
}

/// As in 2013-08-01, 2013/8/1 and 2013 08.
fn is_year_first(text: &[u8], first: &[u8], second: &[u8]) -> bool
    ensures value { result ≡ spec.is_year_first text.now first.now second.now }
    ensures lengths { IsTrue result → (length first.now ≡ 4) × (length second.now ≤ 2) }
{
    is_year(first) && is_separator(byte_at(text, 4)) && is_part(second)
}

/// The day, if it is after the same byte as the month.
fn day_after<'a>(text: &[u8], second: &[u8], third: &'a [u8]) -> &'a [u8]
    requires { length second.now ≤ 2 }
    ensures { result.now ≡ spec.day_after text.now second.now third.now }
{
    if byte_at(text, 5 + second.len()) == byte_at(text, 4) {
        third
    } else {
        b""
    }
}

/// As in 20130801, 20130801T1015 and 201308.
fn is_compact(text: &[u8], first: &[u8]) -> bool
    ensures value { result ≡ spec.is_compact text.now first.now }
    ensures length { IsTrue result → 6 ≤ length first.now }
{
    first.len() >= 6
        && is_year(first.split_at(4).0)
        && (first.len() == 8 || first.len() == text.len() && matches!(first.len(), 6 | 12 | 14))
}

fn compact_date(alloc: Global, first: &[u8]) -> Result<Vec<u8>, AllocError>
    requires { 6 ≤ length first.now }
    ensures { IfOk result (λ date. date.items ≡ spec.compact_date first.now) }
{
    dated(
        alloc,
        first.split_at(4).0,
        first_two(first.split_at(4).1),
        first_two(first.split_at(6).1),
    )
}

fn first_two(digits: &[u8]) -> &[u8]
    ensures { result.now ≡ take 2 digits.now }
{
    if digits.len() > 2 {
        digits.split_at(2).0
    } else {
        digits
    }
}

/// As in 25/12/2013 and 12/25/2013.
fn is_year_last(text: &[u8], first: &[u8], second: &[u8], third: &[u8]) -> bool
    ensures value { result ≡ spec.is_year_last text.now first.now second.now third.now }
    ensures length { IsTrue result → length third.now ≡ 4 }
{
    is_part(first)
        && is_mark(byte_at(text, first.len()))
        && is_part(second)
        && is_mark(byte_at(text, first.len() + 1 + second.len()))
        && is_year(third)
}

/// A day and a month in either order.
fn year_last_date(alloc: Global, a: &[u8], b: &[u8], year: &[u8]) -> Result<Vec<u8>, AllocError>
    requires { length year.now ≡ 4 }
    ensures { IfOk result (λ date. date.items ≡ spec.year_last_date a.now b.now year.now) }
{
    if !is_month(a) {
        dated(alloc, year, b, a)
    } else if is_month(b) && value(a) != value(b) {
        Vec::from_slice(alloc, year)
    } else {
        dated(alloc, year, a, b)
    }
}

/// As in 8/2013.
fn is_month_and_year(text: &[u8], first: &[u8], second: &[u8]) -> bool
    ensures value { result ≡ spec.is_month_and_year text.now first.now second.now }
    ensures length { IsTrue result → length second.now ≡ 4 }
{
    is_part(first)
        && is_mark(byte_at(text, first.len()))
        && is_year(second)
        && text.len() == first.len() + 5
}

/// A year anywhere, with the name of a month.
fn named_date(alloc: Global, text: &[u8], parts: &[&[u8]]) -> Result<Option<Vec<u8>>, AllocError>
    ensures { IfOk result (λ date. option_map vec_items date ≡ spec.named_date text.now (texts_of parts.now)) }
{
    let Some(year) = some_year(parts) else {
        return Ok(None);
    };
    let date = match month_in(alloc, text)? {
        Some(month) => dated(alloc, year, &digits_of(month), b"")?,
        None => Vec::from_slice(alloc, year)?,
    };
    some(date)
}

/// The first part that is a year.
fn some_year<'a>(parts: &[&'a [u8]]) -> Option<&'a [u8]>
    ensures value { option_map (λ part. part.now) result ≡ spec.some_year (texts_of parts.now) }
    ensures length { IfSome result (λ part. length part.now ≡ 4) }
{
    for part in parts {
        if is_year(part) {
            return Some(*part);
        }
    }
    None
}
