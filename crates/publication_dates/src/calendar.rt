//! Years, months and days as digits.

ghost use Rattle.std.specs.Prelude.{◌≡◌, ◌-◌, ◌<◌, ◌≤◌, ◌++◌, ◌∷◌, length, IfOk, OnOk, true};
ghost use Rattle.publication_dates.specs.Calendar as spec;

use std::alloc::{AllocError, Global};

/// Whether the digits are a year, from 1000 to 2999.
pub(crate) fn is_year(digits: &[u8]) -> bool
    ensures { result ≡ spec.is_year digits.now }
{
    digits.len() == 4 && (digits[0] == b'1' || digits[0] == b'2')
}

/// Whether there is one digit, or two.
pub(crate) fn is_part(digits: &[u8]) -> bool
    ensures { result ≡ spec.is_part digits.now }
{
    digits.len() <= 2 && 1 <= digits.len()
}

fn digit_value(byte: u8) -> u32
    ensures value { result ≡ byte - spec.zero_digit }
    ensures bound { result < 256 }
{
    u32::from(byte.saturating_sub(b'0'))
}

pub(crate) fn year_value(year: &[u8]) -> u32
    requires { length year.now ≡ 4 }
    ensures value { result ≡ spec.year_value year.now }
{
    1000 * digit_value(year[0])
        + 100 * digit_value(year[1])
        + 10 * digit_value(year[2])
        + digit_value(year[3])
}

/// The number of one digit or two.
pub(crate) fn value(part: &[u8]) -> u32
    requires { spec.is_part part.now ≡ true }
    ensures { result ≡ spec.value part.now }
{
    if part.len() == 1 {
        digit_value(part[0])
    } else {
        10 * digit_value(part[0]) + digit_value(part[1])
    }
}

fn is_between(low: u32, high: u32, part: &[u8]) -> bool
    ensures { result ≡ spec.is_between low high part.now }
{
    if !is_part(part) {
        return false;
    }
    let value = value(part);
    low <= value && value <= high
}

/// Whether the part is the number of a month.
pub(crate) fn is_month(part: &[u8]) -> bool
    ensures { result ≡ spec.is_month part.now }
{
    is_between(1, 12, part)
}

fn is_leap(year: u32) -> bool
    ensures { result ≡ spec.is_leap year }
{
    year % 4 == 0 && (year % 100 != 0 || year % 400 == 0)
}

/// How many days a month has.
pub(crate) fn days_of(year: u32, month: u32) -> u32
    ensures value { result ≡ spec.days_of year month }
    ensures bound { result ≤ 31 }
{
    match month {
        2 if is_leap(year) => 29,
        2 => 28,
        4 | 6 | 9 | 11 => 30,
        _ => 31,
    }
}

/// Whether the part is the number of a day that the month has.
fn is_day(year: &[u8], month: &[u8], part: &[u8]) -> bool
    requires four { length year.now ≡ 4 }
    requires month { spec.is_part month.now ≡ true }
    ensures { result ≡ spec.is_day year.now month.now part.now }
{
    is_between(1, days_of(year_value(year), value(month)), part)
}

/// A year with its month and its day, if there are such.
pub(crate) fn dated(
    alloc: Global,
    year: &[u8],
    month: &[u8],
    day: &[u8],
) -> Result<Vec<u8>, AllocError>
    requires { length year.now ≡ 4 }
    ensures { IfOk result (λ date. date.items ≡ spec.dated year.now month.now day.now) }
{
    let mut date = Vec::from_slice(alloc, year)?;
    if is_month(month) {
        push_part(&mut date, month)?;
        if is_day(year, month, day) {
            push_part(&mut date, day)?;
        }
    }
    Ok(date)
}

/// Appends a hyphen and a part with two digits.
fn push_part(date: &mut Vec<u8>, part: &[u8]) -> Result<(), AllocError>
    ensures { OnOk result (date.new.items ≡ date.old.items ++ spec.hyphen ∷ spec.two part.now) }
{
    date.push(b'-')?;
    if part.len() == 1 {
        date.push(b'0')?;
    }
    date.extend_from_slice(part)
}
