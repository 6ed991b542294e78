//! The day and the month beside a year.

ghost use Rattle.std.specs.Prelude.{◌≡◌, ◌≤◌, length};
ghost use Rattle.journal_references.specs.Dates as spec;
ghost use Rattle.journal_references.specs.Runs.{has};

use crate::runs::Class::{self, DayGap, Digit, MonthGap, NameByte};
use crate::runs::run;
use crate::words::Word::{OfIssue, OfMonth, OfPages};
use crate::words::word_length;

/// Whether these digits may be a day: one, or two of which the first is at most 3.
fn is_day(digits: &[u8]) -> bool
    ensures { result ≡ spec.is_day digits.now }
{
    digits.len() == 1 || digits.len() == 2 && digits[0] <= b'3'
}

/// How many bytes a day has, with these after it.
fn day_length(gap: Class, text: &[u8]) -> usize
    ensures value { result ≡ spec.day_length (has gap) text.now }
    ensures within { result ≤ length text.now }
{
    let (day, rest) = text.split_at(run(Digit, text));
    let after = run(gap, rest);
    if is_day(day) && after > 0 {
        day.len() + after
    } else {
        0
    }
}

fn begins_with_month(text: &[u8]) -> bool
    ensures { result ≡ spec.begins_with_month text.now }
{
    word_length(OfMonth, text).is_some()
}

fn one_month(text: &[u8]) -> usize
    ensures value { result ≡ spec.one_month text.now }
    ensures within { result ≤ length text.now }
{
    word_length(OfMonth, text).unwrap_or(0)
}

/// How many bytes a hyphen or a slash has, with a month after it.
fn second_month(text: &[u8]) -> usize
    ensures value { result ≡ spec.second_month text.now }
    ensures within { result ≤ length text.now }
{
    match text {
        [sign, rest @ ..] if *sign == b'-' || *sign == b'/' => 1 + one_month(rest),
        _ => 0,
    }
}

fn months(text: &[u8]) -> usize
    ensures value { result ≡ spec.months text.now }
    ensures within { result ≤ length text.now }
{
    let count = one_month(text);
    count + second_month(text.split_at(count).1)
}

fn month_and_day(text: &[u8]) -> usize
    ensures value { result ≡ spec.month_and_day text.now }
    ensures within { result ≤ length text.now }
{
    let count = months(text);
    count + day_length(MonthGap, text.split_at(count).1)
}

/// How many bytes a month has, with a day before it or after it.
pub(crate) fn date_length(text: &[u8]) -> usize
    ensures value { result ≡ spec.date_length text.now }
    ensures within { result ≤ length text.now }
{
    let count = day_length(DayGap, text);
    let rest = text.split_at(count).1;
    if begins_with_month(rest) {
        count + month_and_day(rest)
    } else {
        0
    }
}

/// Whether the text begins with a day and a month.
pub(crate) fn begins_with_day(text: &[u8]) -> bool
    ensures { result ≡ spec.begins_with_day text.now }
{
    let count = day_length(DayGap, text);
    count > 0 && begins_with_month(text.split_at(count).1)
}

/// Whether this may be a season, or a month in another language, with that many bytes between it and the year.
fn is_name(name: &[u8], after: usize) -> bool
    ensures { result ≡ spec.is_name name.now after }
{
    name.len() >= 3 && after > 0 && !(OfPages.is_name(name) || OfIssue.is_name(name))
}

fn name_length(text: &[u8]) -> usize
    ensures value { result ≡ spec.name_length text.now }
    ensures within { result ≤ length text.now }
{
    let (name, rest) = text.split_at(run(NameByte, text));
    let after = run(MonthGap, rest);
    if is_name(name, after) {
        name.len() + after
    } else {
        0
    }
}

/// That many bytes, and those between them and the year.
fn with_gap(count: usize, text: &[u8]) -> usize
    requires { count ≤ length text.now }
    ensures value { result ≡ spec.with_gap count text.now }
    ensures within { result ≤ length text.now }
{
    count + run(MonthGap, text.split_at(count).1)
}

/// How many bytes before a year say more of the date.
pub(crate) fn month_length(text: &[u8]) -> usize
    ensures value { result ≡ spec.month_length text.now }
    ensures within { result ≤ length text.now }
{
    let count = date_length(text);
    if count == 0 {
        name_length(text)
    } else {
        with_gap(count, text)
    }
}
