//! Dates in texts.

use publication_dates::{date_in, days_in};
use std::alloc::{AllocError, Global};
use std::test::Fail;

/// The date in a text; empty if there is none.
fn date(alloc: Global, text: &str) -> Result<String, AllocError> {
    match date_in(alloc, text.as_bytes())? {
        Some(date) => String::from_str(alloc, date.as_str()),
        None => Ok(String::new(alloc)),
    }
}

const IN_DIGITS: [(&str, &str); 39] = [
    ("", ""),
    ("2013", "2013"),
    ("2013-08", "2013-08"),
    ("2013-08-01", "2013-08-01"),
    (" 2013-08-01\n", "2013-08-01"),
    ("2013-08-01T10:15:00Z", "2013-08-01"),
    ("2013/8/1", "2013-08-01"),
    ("2013.08.01", "2013-08-01"),
    ("2013 08 01", "2013-08-01"),
    ("2013-08/2013-09", "2013-08"),
    ("2013-08/09", "2013-08"),
    ("2013-08-011", "2013-08"),
    ("2013-081", "2013"),
    ("2013-2014", "2013"),
    ("20130801", "2013-08-01"),
    ("20130801T1015", "2013-08-01"),
    ("201308011015", "2013-08-01"),
    ("20130801101500", "2013-08-01"),
    ("2013080110", ""),
    ("201308", "2013-08"),
    ("20130000", "2013"),
    ("201313", "2013"),
    ("25/12/2013", "2013-12-25"),
    ("12/25/2013", "2013-12-25"),
    ("25.12.2013 10:15", "2013-12-25"),
    ("1/2/2013", "2013"),
    ("1/1/2013", "2013-01-01"),
    ("00/05/2013", "2013-05"),
    ("1/2/20134", ""),
    ("08/2013", "2013-08"),
    ("8.2013", "2013-08"),
    ("13/2013", "2013"),
    ("c2013", "2013"),
    ("999", ""),
    ("1000", "1000"),
    ("2999", "2999"),
    ("3000", ""),
    ("12013", ""),
    ("in press", ""),
];

#[test]
fn dates_in_digits_are_found(rt: HostRuntime) -> Result<(), Fail> {
    for (text, expected) in IN_DIGITS {
        let found = date(rt.alloc(), text)?;
        assert_eq!(rt; found.as_str(), expected);
    }
    Ok(())
}

/// ISO 8601: the days of the Gregorian calendar.
const DAYS: [(&str, &str); 18] = [
    ("2013-01-31", "2013-01-31"),
    ("2013-01-32", "2013-01"),
    ("2013-04-30", "2013-04-30"),
    ("2013-04-31", "2013-04"),
    ("2013-06-31", "2013-06"),
    ("2013-09-31", "2013-09"),
    ("2013-11-31", "2013-11"),
    ("2013-12-31", "2013-12-31"),
    ("2013-02-28", "2013-02-28"),
    ("2013-02-29", "2013-02"),
    ("2024-02-29", "2024-02-29"),
    ("2024-02-30", "2024-02"),
    ("1900-02-29", "1900-02"),
    ("2000-02-29", "2000-02-29"),
    ("2100-02-29", "2100-02"),
    ("2013-08-00", "2013-08"),
    ("2013-00-01", "2013"),
    ("2013-13-01", "2013"),
];

#[test]
fn days_are_those_of_the_month(rt: HostRuntime) -> Result<(), Fail> {
    for (text, expected) in DAYS {
        let found = date(rt.alloc(), text)?;
        assert_eq!(rt; found.as_str(), expected);
    }
    Ok(())
}

const NAMES: [(&str, &str); 16] = [
    ("January 2013", "2013-01"),
    ("feb 2013", "2013-02"),
    ("2013 MAR", "2013-03"),
    ("2013-Apr-05", "2013-04"),
    ("15 May 2013", "2013-05"),
    ("June 6, 2013", "2013-06"),
    ("jul. 2013", "2013-07"),
    ("Aug/Sep 2013", "2013-08"),
    ("Sept 2013", "2013-09"),
    ("12 Oct2013", "2013-10"),
    ("November 2013", "2013-11"),
    ("Dec 2012/Jan 2013", "2012-12"),
    ("mayor 2013", "2013"),
    ("ma 2013", "2013"),
    ("Winter 2012/2013", "2012"),
    ("August", ""),
];

#[test]
fn names_of_months_are_found(rt: HostRuntime) -> Result<(), Fail> {
    for (text, expected) in NAMES {
        let found = date(rt.alloc(), text)?;
        assert_eq!(rt; found.as_str(), expected);
    }
    Ok(())
}

/// The first and the last day of the date in a text, with a space between them; empty if there is none.
fn days(alloc: Global, text: &str) -> Result<String, AllocError> {
    let mut written = String::new(alloc);
    if let Some(days) = days_in(alloc, text.as_bytes())? {
        written.push_str(days.first())?;
        written.push(' ')?;
        written.push_str(days.last())?;
    }
    Ok(written)
}

/// ISO 8601: the first and the last day of a year, a month and a day, in the basic format.
const FIRST_AND_LAST: [(&str, &str); 16] = [
    ("", ""),
    ("in press", ""),
    ("2013", "20130101 20131231"),
    ("1000", "10000101 10001231"),
    ("2013-01", "20130101 20130131"),
    ("2013-04", "20130401 20130430"),
    ("2013-12", "20131201 20131231"),
    ("2013-02", "20130201 20130228"),
    ("2012-02", "20120201 20120229"),
    ("1900-02", "19000201 19000228"),
    ("2000-02", "20000201 20000229"),
    ("2013-08-09", "20130809 20130809"),
    ("2012-02-29", "20120229 20120229"),
    ("2013-02-29", "20130201 20130228"),
    ("Aug 2013", "20130801 20130831"),
    ("1/2/2013", "20130101 20131231"),
];

#[test]
fn first_and_last_days_are_found(rt: HostRuntime) -> Result<(), Fail> {
    for (text, expected) in FIRST_AND_LAST {
        let found = days(rt.alloc(), text)?;
        assert_eq!(rt; found.as_str(), expected);
    }
    Ok(())
}
