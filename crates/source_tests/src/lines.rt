//! The lines for readings.

use source_answers::reading_text;
use source_requests::read_source;
use std::alloc::{AllocError, Global};
use std::test::Fail;

/// Queries and the lines for them. A tab, a LF, an escape of a terminal and U+009B are written as escapes.
const LINES: [(&str, &str); 4] = [
    (
        "rft.volume=12&rft_val_fmt=info:ofi/fmt:kev:mtx:journal",
        "rft.volume\t12\nrft_val_fmt\tinfo:ofi/fmt:kev:mtx:journal\n",
    ),
    (
        "a%09b=%1B%5B2Jc%0Ad&rft_val_fmt=x",
        "a\\x09b\t\\x1b[2Jc\\x0ad\nrft_val_fmt\tx\n",
    ),
    (
        "note=%C2%9B&other=%C3%9B&rft_val_fmt=x",
        "note\t\\xc2\\x9b\nother\t\u{db}\nrft_val_fmt\tx\n",
    ),
    ("", ""),
];

#[test]
fn readings(rt: HostRuntime) -> Result<(), Fail> {
    for (query, expected) in LINES {
        let reading = read_source(rt.alloc(), query.as_bytes())?;
        let text = reading_text(rt.alloc(), &reading)?;
        assert_eq!(rt; text.as_str(), expected, "{query}");
    }
    Ok(())
}

/// A query of a format and that many further pairs.
fn long_query(alloc: Global, pairs: usize) -> Result<String, AllocError> {
    let mut query = String::from_str(alloc, "rft_val_fmt=x")?;
    for _ in 0..pairs {
        query.push_str("&n=1")?;
    }
    Ok(query)
}

#[test]
fn left_out(rt: HostRuntime) -> Result<(), Fail> {
    for (pairs, line) in [
        (299, "n\t1\n"),
        (300, "left out 1\n"),
        (310, "left out 11\n"),
    ] {
        let query = long_query(rt.alloc(), pairs)?;
        let reading = read_source(rt.alloc(), query.as_bytes())?;
        let text = reading_text(rt.alloc(), &reading)?;
        assert!(rt; text.as_str().ends_with(line), "{line}");
        assert_eq!(rt; reading.pairs().len(), 300);
    }
    Ok(())
}
