//! The first and the last day of a date.

ghost use Rattle.std.specs.Prelude.{◌≡◌, ◌≤◌, ◌<◌, ◌++◌, IfOk, OnOk, length, drop};
ghost use Rattle.std.specs.Option.{option_map};
ghost use Rattle.std.specs.Str.{IsAscii};
ghost use Rattle.publication_dates.specs.Calendar as calendar;
ghost use Rattle.publication_dates.specs.Dates.{date_in};
ghost use Rattle.publication_dates.specs.Days as spec;

use crate::calendar::{days_of, value, year_value};
use crate::dates::date_in;
use crate::parts::ascii_text;
use std::alloc::{AllocError, Global};
use std::marker::Model;
use uri_text::Text;

/// The first and the last day of a date, as eight digits each: YYYYMMDD.
#[derive(Drop)]
pub struct Days {
    first: Text,
    last: Text,
}

impl Model for Days {
    ghost use Rattle.publication_dates.specs.Days.{Days};

    ghost Value = { Days };

    ghost view = { λ days. record { first = days.first; last = days.last } };
}

impl Days {
    /// The first day.
    pub fn first(&self) -> &str
        ensures { result.now ≡ self.now.first }
    {
        self.first.as_str()
    }

    /// The last day.
    pub fn last(&self) -> &str
        ensures { result.now ≡ self.now.last }
    {
        self.last.as_str()
    }
}

/// The first and the last day of the date in a text; `None` if the text has no date.
///
/// The text may have any bytes. `AllocError` if an allocation failed.
pub fn days_in(alloc: Global, text: &[u8]) -> Result<Option<Days>, AllocError>
    ensures { IfOk result (λ days. days ≡ option_map spec.first_and_last (date_in text.now)) }
{
    match date_in(alloc, text)? {
        Some(date) => Ok(Some(first_and_last(alloc, date.as_str().as_bytes())?)),
        None => Ok(None),
    }
}

fn first_and_last(alloc: Global, date: &[u8]) -> Result<Days, AllocError>
    requires { IsAscii date.now }
    ensures { IfOk result (λ days. days ≡ spec.first_and_last date.now) }
{
    let first = first_day(alloc, date)?;
    let first = ascii_text(alloc, &first)?;
    let last = last_day(alloc, date)?;
    let last = ascii_text(alloc, &last)?;
    Ok(Days { first, last })
}

/// The digits of a date.
fn basic(alloc: Global, date: &[u8]) -> Result<Vec<u8>, AllocError>
    ensures { IfOk result (λ digits. digits.items ≡ spec.basic date.now) }
{
    let mut digits = Vec::with_capacity(alloc, date.len())?;
    for byte in date {
        if *byte != b'-' {
            digits.push(*byte)?;
        }
    }
    Ok(digits)
}

/// Appends a part to that many digits, and none to others.
fn complete(digits: &mut Vec<u8>, len: usize, part: &[u8]) -> Result<(), AllocError>
    ensures { OnOk result (digits.new.items ≡ spec.completed len part.now digits.old.items) }
{
    if digits.len() == len {
        digits.extend_from_slice(part)?;
    }
    Ok(())
}

fn first_day(alloc: Global, date: &[u8]) -> Result<Vec<u8>, AllocError>
    ensures { IfOk result (λ day. day.items ≡ spec.first_day date.now) }
{
    let mut day = basic(alloc, date)?;
    complete(&mut day, 4, b"01")?;
    complete(&mut day, 6, b"01")?;
    Ok(day)
}

fn last_day(alloc: Global, date: &[u8]) -> Result<Vec<u8>, AllocError>
    ensures { IfOk result (λ day. day.items ≡ spec.last_day date.now) }
{
    let mut day = basic(alloc, date)?;
    complete(&mut day, 4, b"12")?;
    if day.len() == 6 {
        let last = last_of_month(&day);
        day.extend_from_slice(&last)?;
    }
    Ok(day)
}

/// The last day of a month, which has four digits of the year and two of its own.
fn last_of_month(month: &[u8]) -> [u8; 2]
    requires { length month.now ≡ 6 }
    ensures { result ≡ spec.last_of_month month.now }
{
    let (year, month) = month.split_at(4);
    two_digits(days_of(year_value(year), value(month)))
}

fn two_digits(number: u32) -> [u8; 2]
    requires { number < 100 }
    ensures { result ≡ spec.two_digits number }
{
    [b'0' + (number / 10) as u8, b'0' + (number % 10) as u8]
}
