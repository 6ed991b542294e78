//! Pages of requests, as sources send them.

use crate::shared::{Case, first_difference};
use openurl_reading::read_openurl;
use std::alloc::Global;
use std::test::Fail;

const UNDER_PAGES: [Case; 9] = [
    (
        "rft.pages=101-118",
        &[
            ("rft.spage", "101"),
            ("rft.epage", ""),
            ("rft.pages", "101-118"),
        ],
    ),
    ("pages=101-118", &[("rft.spage", "101"), ("rft.epage", "")]),
    ("rft.pages=e1004", &[("rft.spage", "e1004")]),
    ("rft.pages=pp.+S12-S20", &[("rft.spage", "S12")]),
    ("rft.pages=xii-xx", &[("rft.spage", "xii")]),
    ("rft.pages=123.e1-123.e5", &[("rft.spage", "123.e1")]),
    ("rft.pages=101-118&rft.spage=102", &[("rft.spage", "102")]),
    ("rft.pages=45-67&rft.spage=N.PAG", &[("rft.spage", "45")]),
    ("rft.pages=n/a", &[("rft.spage", ""), ("rft.epage", "")]),
];

const FIRST_PAGES: [Case; 17] = [
    ("rft.spage=45", &[("rft.spage", "45"), ("rft.epage", "")]),
    (
        "rft.spage=2344-2355",
        &[("rft.spage", "2344"), ("rft.epage", "2355")],
    ),
    (
        "spage=pp.+12-15",
        &[
            ("rft.spage", "12"),
            ("rft.epage", "15"),
            ("spage", "pp. 12-15"),
        ],
    ),
    (
        "rft.spage=2344-55",
        &[("rft.spage", "2344"), ("rft.epage", "2355")],
    ),
    (
        "rft.spage=S12-20",
        &[("rft.spage", "S12"), ("rft.epage", "S20")],
    ),
    (
        "rft.spage=xii-xx",
        &[("rft.spage", "xii"), ("rft.epage", "xx")],
    ),
    (
        "rft.spage=101--118",
        &[("rft.spage", "101"), ("rft.epage", "118")],
    ),
    (
        "rft.spage=S.+12-15",
        &[("rft.spage", "12"), ("rft.epage", "15")],
    ),
    ("rft.spage=p45", &[("rft.spage", "45"), ("rft.epage", "")]),
    (
        "rft.spage=45+ff.",
        &[("rft.spage", "45"), ("rft.epage", "")],
    ),
    ("rft.spage=45-3", &[("rft.spage", "45"), ("rft.epage", "")]),
    ("rft.spage=45;+discussion+68", &[("rft.spage", "45")]),
    ("rft.spage=CD004567", &[("rft.spage", "CD004567")]),
    (
        "rft.spage=12%E2%80%9315",
        &[("rft.spage", "12"), ("rft.epage", "15")],
    ),
    ("rft.spage=C-12", &[("rft.spage", "C-12")]),
    ("rft.spage=xiiz", &[("rft.spage", "xiiz")]),
    (
        "rft.spage=45-67&rft.pages=1-9",
        &[("rft.spage", "45"), ("rft.epage", "67")],
    ),
];

const LAST_PAGES: [Case; 8] = [
    (
        "rft.spage=101-118&rft.epage=119",
        &[("rft.spage", "101"), ("rft.epage", "119")],
    ),
    (
        "rft.spage=101&rft.epage=pp.+101-118",
        &[("rft.spage", "101"), ("rft.epage", "118")],
    ),
    ("rft.spage=101&rft.epage=p.+118", &[("rft.epage", "118")]),
    ("rft.spage=S12&rft.epage=S20", &[("rft.epage", "S20")]),
    ("epage=p.+67", &[("rft.epage", "67"), ("rft.spage", "")]),
    ("rft.epage=xx", &[("rft.epage", "xx")]),
    (
        "rft.spage=12A&rft.epage=C-15",
        &[("rft.spage", "12A"), ("rft.epage", "C-15")],
    ),
    ("rft.spage=45-67&rft.epage=last", &[("rft.epage", "last")]),
];

/// The number of an article is the first page of a request without a page, and no range.
const ARTICLES: [Case; 14] = [
    (
        "rft.artnum=e1004",
        &[
            ("rft.spage", "e1004"),
            ("rft.epage", ""),
            ("rft.artnum", "e1004"),
        ],
    ),
    ("artnum=e1004", &[("rft.spage", "e1004")]),
    ("rft.artnum=+042601+", &[("rft.spage", "042601")]),
    (
        "rft.artnum=12-3",
        &[("rft.spage", "12-3"), ("rft.epage", "")],
    ),
    (
        "rft.artnum=12-3&rft.spage=12-3",
        &[("rft.spage", "12-3"), ("rft.epage", "")],
    ),
    (
        "rft.artnum=12-13&rft.spage=12-14",
        &[("rft.spage", "12"), ("rft.epage", "14")],
    ),
    ("rft.artnum=e1004&rft.spage=45", &[("rft.spage", "45")]),
    (
        "rft.artnum=e1004&rft.spage=N.PAG",
        &[("rft.spage", "e1004")],
    ),
    (
        "rft.artnum=e1004&rft.pages=101-118",
        &[("rft.spage", "101")],
    ),
    ("rft.artnum=e1004&rft.pages=n/a", &[("rft.spage", "e1004")]),
    ("rft.artnum=Spring", &[("rft.spage", "")]),
    ("rft.artnum=12+34", &[("rft.spage", "")]),
    (
        "rft.artnum=e234567890123456789012345678901234567890",
        &[("rft.spage", "e234567890123456789012345678901234567890")],
    ),
    (
        "rft.artnum=e2345678901234567890123456789012345678901",
        &[("rft.spage", "")],
    ),
];

#[test]
fn numbers_of_articles_are_pages(rt: HostRuntime) -> Result<(), Fail> {
    assert_eq!(rt; first_difference(rt.alloc(), &ARTICLES)?, None);
    Ok(())
}

#[test]
fn pages_lead_their_keys(rt: HostRuntime) -> Result<(), Fail> {
    assert_eq!(rt; first_difference(rt.alloc(), &UNDER_PAGES)?, None);
    assert_eq!(rt; first_difference(rt.alloc(), &FIRST_PAGES)?, None);
    assert_eq!(rt; first_difference(rt.alloc(), &LAST_PAGES)?, None);
    Ok(())
}

/// How long the first page of a request is whose value for it is `45-67` and commas.
fn page_of_long_value(alloc: Global, commas: usize) -> Result<usize, Fail> {
    let mut query = String::from_str(alloc, "rft.spage=45-67")?;
    for _ in 0..commas {
        query.push_str(",")?;
    }
    let reading = read_openurl(alloc, query.as_bytes())?;
    Ok(reading.pairs().first("rft.spage").unwrap_or("").len())
}

#[test]
fn long_values_are_no_pages(rt: HostRuntime) -> Result<(), Fail> {
    assert_eq!(rt; page_of_long_value(rt.alloc(), 195)?, 2);
    assert_eq!(rt; page_of_long_value(rt.alloc(), 196)?, 201);
    Ok(())
}
