//! Pairs of any query, those that do not count, and limits.

use crate::shared::{Case, first_difference};
use kev_read::{KevError, QueryPairs};
use openurl_reading::read_openurl;
use std::alloc::Global;
use std::test::Fail;

const DROPPED: [Case; 5] = [
    (
        "x.doi=10.1/x&%78.issn=2901-0012&rft.volume=3",
        &[("x.doi", ""), ("x.issn", ""), ("rft.volume", "3")],
    ),
    (
        "title_url=https://e.org/&title%5Fid=3&access_type=F&notes=n&coverage_from=0&title_page=none:&rft.note=n",
        &[
            ("title_url", ""),
            ("title_id", ""),
            ("access_type", ""),
            ("notes", ""),
            ("coverage_from", ""),
            ("title_page", ""),
            ("rft.note", "n"),
        ],
    ),
    (
        "rft.issn=A-N-Y&rft.isbn=+a+n+y+&issn=Any&rft.atitle=any&rft.eissn=2971-1312",
        &[
            ("rft.issn", ""),
            ("rft.isbn", ""),
            ("issn", ""),
            ("rft.atitle", "any"),
            ("rft.eissn", "2971-1312"),
        ],
    ),
    (
        "rft_id=info:doi/&rft_id=INFO:PMID/&rft_id=info:oai/&rft_id=doi.org/&rft_id=info:doi/10.1/x",
        &[("rft_id", "info:doi/10.1/x")],
    ),
    (
        "rft.au=+&rft.isbn=&rft.volume&rft.isbn=9781234560102",
        &[("rft.au", ""), ("rft.isbn", "9781234560102")],
    ),
];

#[test]
fn some_pairs_do_not_count(rt: HostRuntime) -> Result<(), Fail> {
    assert_eq!(rt; first_difference(rt.alloc(), &DROPPED)?, None);
    Ok(())
}

/// Whether the last of two pairs of a query is this.
fn ends_with(alloc: Global, query: &[u8], pair: (&str, &str)) -> Result<bool, Fail> {
    let pairs = QueryPairs::read(alloc, query)?;
    Ok(pairs.len() == 2 && pairs.pair(1) == pair)
}

#[test]
fn no_version_is_rejected(rt: HostRuntime) -> Result<(), Fail> {
    assert_eq!(rt;
        ends_with(rt.alloc(), b"ctx_ver=1&&x=%41+b", ("x", "A b"))?,
        true
    );
    Ok(())
}

/// A query of that many pairs.
fn pairs(alloc: Global, count: usize) -> Result<String, Fail> {
    let mut query = String::new(alloc);
    for number in 0..count {
        query.push_str(format!(in alloc; "a{number}=1&")?.as_str())?;
    }
    Ok(query)
}

/// How many pairs the reading of that many has, with its format, and how many it leaves out.
fn counts(alloc: Global, count: usize) -> Result<(usize, usize), Fail> {
    let reading = read_openurl(alloc, pairs(alloc, count)?.as_str().as_bytes())?;
    Ok((reading.pairs().len(), reading.left_out()))
}

#[test]
fn beyond_300_pairs_the_rest_is_left_out(rt: HostRuntime) -> Result<(), Fail> {
    for (count, wanted) in [(300, (301, 0)), (301, (301, 1)), (5_000, (301, 4_700))] {
        assert_eq!(rt; counts(rt.alloc(), count)?, wanted);
    }
    Ok(())
}

/// Whether a query of that many bytes is too long.
fn is_too_long(alloc: Global, count: usize) -> Result<bool, Fail> {
    let mut query = Vec::new(alloc);
    for _ in 0..count {
        query.push(b'a')?;
    }
    match read_openurl(alloc, &query) {
        Ok(_) => Ok(false),
        Err(KevError::TooLong) => Ok(true),
        Err(e) => Err(e.into()),
    }
}

#[test]
fn a_query_has_at_most_65_536_bytes(rt: HostRuntime) -> Result<(), Fail> {
    assert_eq!(rt;
        (
            is_too_long(rt.alloc(), 65_536)?,
            is_too_long(rt.alloc(), 65_537)?
        ),
        (false, true)
    );
    Ok(())
}

/// A request with 21 values of a key, of which the last has an ISSN.
fn many_values(alloc: Global, count: usize) -> Result<String, Fail> {
    let mut query = String::new(alloc);
    for _ in 0..count {
        query.push_str("rft.issn=none&")?;
    }
    query.push_str("rft.issn=2901-0012")?;
    Ok(query)
}

#[test]
fn twenty_values_of_a_key_are_read(rt: HostRuntime) -> Result<(), Fail> {
    for (count, wanted) in [(19, true), (20, false)] {
        let query = many_values(rt.alloc(), count)?;
        let reading = read_openurl(rt.alloc(), query.as_str().as_bytes())?;
        assert_eq!(rt; reading.pairs().first("x.issn").is_some(), wanted);
    }
    Ok(())
}
