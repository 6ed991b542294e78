//! The requests of readings, at the limit of a query's size.

use kev_read::KevError;
use openurl_reading::laws::{readings_are_bounded, readings_state_the_version};
use source_requests::{any_request, further_request, own_request, read_source};
use std::alloc::{AllocError, Global};
use std::test::Fail;

/// A query of that many bytes.
fn query_of(alloc: Global, bytes: usize) -> Result<String, AllocError> {
    let mut query = String::from_str(alloc, "note=")?;
    for _ in query.len()..bytes {
        query.push_str("a")?;
    }
    Ok(query)
}

#[test]
fn long_queries(rt: HostRuntime) -> Result<(), Fail> {
    let longest = query_of(rt.alloc(), 65_536)?;
    assert!(rt; read_source(rt.alloc(), longest.as_bytes()).is_ok());
    let longer = query_of(rt.alloc(), 65_537)?;
    let refused = read_source(rt.alloc(), longer.as_bytes()).err();
    assert_eq!(rt; refused, Some(KevError::TooLong));
    Ok(())
}

/// A query of three values, of which the second needs three bytes for each byte of its text.
fn wide_query(alloc: Global) -> Result<String, AllocError> {
    let mut query = String::from_str(alloc, "rft_val_fmt=x&note=")?;
    for _ in 0..30_000 {
        query.push_str("!")?;
    }
    query.push_str("&last=1")?;
    Ok(query)
}

/// A pair that does not fit is left out of the requests, and so are all pairs after it.
#[test]
fn wide_pairs(rt: HostRuntime) -> Result<(), Fail> {
    let query = wide_query(rt.alloc())?;
    let reading = read_source(rt.alloc(), query.as_bytes())?;
    assert_eq!(rt; reading.pairs().len(), 3);
    readings_are_bounded();
    readings_state_the_version();
    let own = own_request(rt.alloc(), reading.pairs())?;
    assert_eq!(rt; own.pairs(), 1);
    assert_eq!(rt; own.first("rft_val_fmt"), Some("x"));
    let any = any_request(rt.alloc(), reading.pairs())?;
    assert_eq!(rt; any.pairs(), 2);
    assert_eq!(rt; any.first("rft.issn"), Some("ANY"));
    Ok(())
}

#[test]
fn rows_of_every_request(rt: HostRuntime) -> Result<(), Fail> {
    let reading = read_source(rt.alloc(), b"issn=29010012&isbn=9780306406157&volume=12")?;
    readings_are_bounded();
    readings_state_the_version();
    let own = own_request(rt.alloc(), reading.pairs())?;
    assert_eq!(rt; own.first("rft.issn"), Some("2901-0012"));
    assert_eq!(rt; own.first("rft.isbn"), Some("9780306406157"));
    let any = any_request(rt.alloc(), reading.pairs())?;
    assert_eq!(rt; any.first("rft.issn"), Some("ANY"));
    assert_eq!(rt; any.first("rft.isbn"), None);
    assert_eq!(rt; any.first("rft.volume"), Some("12"));
    Ok(())
}

/// Further numbers, and the keys that they get.
const NUMBERS: [(&str, &str, &str); 3] = [
    ("2049-363X", "rft.issn", "rft.isbn"),
    ("978-3-16-148410-0", "rft.isbn", "rft.issn"),
    ("316148410X", "rft.isbn", "rft.issn"),
];

#[test]
fn rows_of_further_numbers(rt: HostRuntime) -> Result<(), Fail> {
    let reading = read_source(rt.alloc(), b"issn=29010012&isbn=9780306406157&volume=12")?;
    readings_are_bounded();
    readings_state_the_version();
    for (number, key, other) in NUMBERS {
        let request = further_request(rt.alloc(), number, reading.pairs())?;
        assert_eq!(rt; request.first(key), Some(number), "{number}");
        assert_eq!(rt; request.first(other), None, "{number}");
        assert_eq!(rt; request.first("rft.volume"), Some("12"), "{number}");
    }
    Ok(())
}
