//! ISBNs in texts.

use standard_numbers::isbns_in;
use std::alloc::{AllocError, Global};
use std::test::Fail;

/// The ISBNs in a text, each with a space after it.
fn isbns(alloc: Global, text: &str) -> Result<String, AllocError> {
    let mut all = String::new(alloc);
    for isbn in &isbns_in(alloc, text.as_bytes())? {
        all.push_str(isbn.as_str())?;
        all.push_str(" ")?;
    }
    Ok(all)
}

/// ISO 2108 has 978-3-16-148410-0; the numbers of 978-0-306-40615 and 978-0-8044-2957 are those of printed books.
const ISBNS: [(&str, &str); 17] = [
    ("", ""),
    ("9783161484100", "9783161484100 "),
    ("978-3-16-148410-0", "9783161484100 "),
    ("978 3 16 148410 0", "9783161484100 "),
    ("ISBN-13 978 3 16 148410 0 (hbk.)", "9783161484100 "),
    ("urn:isbn:978-3-16-148410-0", "9783161484100 "),
    ("9791234560101", "9791234560101 "),
    ("979-1-234-56010-1", "9791234560101 "),
    ("9771234560102", ""),
    ("97831614841001", ""),
    ("19783161484100", ""),
    ("978316148410", ""),
    ("978316148410X", ""),
    ("978--316148410", ""),
    ("9783161484101", "9783161484101 "),
    ("2049-3630", ""),
    ("2049-3630 2010", ""),
];

#[test]
fn isbns_are_found(rt: HostRuntime) -> Result<(), Fail> {
    for (text, expected) in ISBNS {
        let found = isbns(rt.alloc(), text)?;
        assert_eq!(rt; found.as_str(), expected);
    }
    Ok(())
}

/// A number of ten digits becomes one of 13. It goes before others if its own check digit is right.
const TEN_DIGITS: [(&str, &str); 11] = [
    ("0306406152", "9780306406157 "),
    ("0-306-40615-2 (pbk.)", "9780306406157 "),
    ("0 306 40615 2", "9780306406157 "),
    ("080442957x", "9780804429573 "),
    ("0-8044-2957-X", "9780804429573 "),
    ("08044295XX", ""),
    ("03064061521", ""),
    ("030640615", ""),
    ("0306406153", "9780306406157 "),
    ("0306406153 080442957X", "9780804429573 9780306406157 "),
    ("0000000043", "9780000000040 "),
];

#[test]
fn ten_digits_become_thirteen(rt: HostRuntime) -> Result<(), Fail> {
    for (text, expected) in TEN_DIGITS {
        let found = isbns(rt.alloc(), text)?;
        assert_eq!(rt; found.as_str(), expected);
    }
    Ok(())
}
