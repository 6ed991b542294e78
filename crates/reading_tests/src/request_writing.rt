//! Numbers, dates, pages, identifiers and keys of requests, in any writing.

use crate::shared::{Case, first_difference};
use std::test::Fail;

const NUMBERS: [Case; 11] = [
    (
        "rft.issn=2901%E2%80%900012",
        &[("rft.issn", "2901-0012"), ("x.issn", "2901-0012")],
    ),
    (
        "rft.issn=ISSN%C2%A02901%E2%80%910012",
        &[("rft.issn", "2901-0012")],
    ),
    ("rft.issn=2901-%0A0012", &[("rft.issn", "2901-0012")]),
    (
        "rft.issn=29010012%0A29080142",
        &[("rft.issn", "2901-0012"), ("rft.eissn", "2908-0142")],
    ),
    (
        "issn=%D9%A2%D9%A9%D9%A0%D9%A1-%D9%A0%D9%A0%D9%A1%D9%A2",
        &[("rft.issn", "2901-0012")],
    ),
    (
        "rft.issn=%EF%BC%92%EF%BC%99%EF%BC%90%EF%BC%91-%EF%BC%90%EF%BC%90%EF%BC%91%EF%BC%92",
        &[("rft.issn", "2901-0012")],
    ),
    ("rft.issn=2901%252D0012", &[("rft.issn", "2901-0012")]),
    ("rft.issn=2901%010012", &[("x.issn", "")]),
    (
        "rft.isbn=978-1-234-%0D%0A56010-2",
        &[("rft.isbn", "9781234560102")],
    ),
    (
        "isbn=978%E2%80%931%E2%80%93234%E2%80%9356010%E2%80%932",
        &[("rft.isbn", "9781234560102")],
    ),
    (
        "number=978%E2%80%931%E2%80%93234%E2%80%9356010%E2%80%932",
        &[("rft.isbn", "9781234560102"), ("rft.issn", "")],
    ),
];

#[test]
fn numbers_of_any_writing_are_read(rt: HostRuntime) -> Result<(), Fail> {
    assert_eq!(rt; first_difference(rt.alloc(), &NUMBERS)?, None);
    Ok(())
}

const DATES: [Case; 6] = [
    (
        "rft.date=%D9%A2%D9%A0%D9%A1%D9%A3",
        &[
            ("rft.date", "2013"),
            ("x.from", "20130101"),
            ("x.to", "20131231"),
        ],
    ),
    (
        "date=%E0%A5%A8%E0%A5%A6%E0%A5%A7%E0%A5%A9-%E0%A5%A6%E0%A5%AE",
        &[("rft.date", "2013-08")],
    ),
    (
        "rft.date=%EF%BC%92%EF%BC%90%EF%BC%91%EF%BC%93%E5%B9%B4",
        &[("rft.date", "2013")],
    ),
    (
        "rft.date=%E2%80%9C2013-08-01%E2%80%9D",
        &[("rft.date", "2013-08-01")],
    ),
    (
        "rft.date=2013%E2%80%9008%E2%80%9001",
        &[("rft.date", "2013-08-01")],
    ),
    ("rft.date=2013%252F08%252F01", &[("rft.date", "2013-08-01")]),
];

#[test]
fn dates_of_any_writing_are_read(rt: HostRuntime) -> Result<(), Fail> {
    assert_eq!(rt; first_difference(rt.alloc(), &DATES)?, None);
    Ok(())
}

const PLACES: [Case; 11] = [
    ("rft.volume=%D9%A1%D9%A2", &[("rft.volume", "12")]),
    (
        "rft.volume=%22%EF%BC%91%EF%BC%92%22",
        &[("rft.volume", "12")],
    ),
    ("rft.volume=12%E2%80%9313", &[("rft.volume", "12-13")]),
    (
        "rft.volume=%EF%BC%91%EF%BC%92%EF%BC%88%EF%BC%93%EF%BC%89",
        &[("rft.volume", "12"), ("rft.issue", "3")],
    ),
    (
        "rft.volume=%E2%80%9812%E2%80%99&rft.pages=%E2%80%9C7-9%E2%80%9D",
        &[("rft.volume", "12"), ("rft.spage", "7")],
    ),
    ("rft.issue=3%E2%80%934", &[("rft.issue", "3-4")]),
    (
        "rft.spage=45%E2%80%9367",
        &[("rft.spage", "45"), ("rft.epage", "67")],
    ),
    (
        "rft.spage=%EF%BC%94%EF%BC%95%EF%BC%8D%EF%BC%96%EF%BC%97",
        &[("rft.spage", "45"), ("rft.epage", "67")],
    ),
    (
        "rft.spage=pp.%C2%A012%E2%80%9315",
        &[("rft.spage", "12"), ("rft.epage", "15")],
    ),
    (
        "rft.pages=45%E2%80%9367",
        &[("rft.spage", "45"), ("rft.epage", "")],
    ),
    (
        "rft.artnum=%EF%BD%851004",
        &[("rft.spage", "e1004"), ("rft.epage", "")],
    ),
];

#[test]
fn places_of_any_writing_are_read(rt: HostRuntime) -> Result<(), Fail> {
    assert_eq!(rt; first_difference(rt.alloc(), &PLACES)?, None);
    Ok(())
}

const IDENTIFIERS: [Case; 13] = [
    (
        "rft_id=10.1000%252F182",
        &[("rft_id", "info:doi/10.1000/182"), ("x.doi", "10.1000/182")],
    ),
    (
        "id=doi:10.1000%252F182%252B3",
        &[("x.doi", "10.1000/182+3")],
    ),
    (
        "doi=10.1000/abc%2Bdef%2Bghi",
        &[("x.doi", "10.1000/abc+def+ghi")],
    ),
    ("rft_id=10.1000/18%252", &[("x.doi", "10.1000/18%2")]),
    (
        "rft_id=info:doi/10.1000/a%2528b%2529",
        &[("x.doi", "10.1000/a%28b%29")],
    ),
    (
        "rft_id=%E2%80%9C10.5555/abc%E2%80%9D",
        &[("x.doi", "10.5555/abc")],
    ),
    (
        "rft_id=doi:%C2%A010.5555/abc%C2%A0",
        &[("x.doi", "10.5555/abc")],
    ),
    ("rft.doi=10.5555/%0D%0A++abc", &[("x.doi", "10.5555/abc")]),
    (
        "rft_id=10.5555/abc%0Apmid:7",
        &[("x.doi", "10.5555/abc"), ("x.pmid", "")],
    ),
    ("pmid=%C2%A07", &[("x.pmid", "7")]),
    (
        "pmcid=PMC%C2%AD7",
        &[("rft_id", "https://pmc.ncbi.nlm.nih.gov/articles/PMC7/")],
    ),
    (
        "rft.identifier=arXiv:2101.%E2%80%8B00001",
        &[("x.doi", "10.48550/arXiv.2101.00001")],
    ),
    (
        "rft_id=https://example.org/10.5555/%C2%A0x",
        &[
            ("rft_id", "https://example.org/10.5555/\u{a0}x"),
            ("x.doi", ""),
        ],
    ),
];

#[test]
fn identifiers_of_any_writing_are_read(rt: HostRuntime) -> Result<(), Fail> {
    assert_eq!(rt; first_difference(rt.alloc(), &IDENTIFIERS)?, None);
    Ok(())
}

const KEYS: [Case; 7] = [
    (
        "ISSN=2901-0012&Volume=3",
        &[
            ("rft.issn", "2901-0012"),
            ("rft.volume", "3"),
            ("issn", "2901-0012"),
        ],
    ),
    ("ISBN=9781234560102", &[("rft.isbn", "9781234560102")]),
    (
        "GENRE=article&RFT.JTitle=Tides",
        &[("rft.genre", "article"), ("rft.jtitle", "Tides")],
    ),
    (
        "URL=https://example.org/doi/10.5555/abc",
        &[("x.doi", "10.5555/abc")],
    ),
    (
        "RFT_VAL_FMT=x&CTX_VER=0.1",
        &[("rft_val_fmt", "x"), ("ctx_ver", "Z39.88-2004")],
    ),
    ("ISSN=ANY&issn=any", &[("issn", ""), ("ISSN", "")]),
    (
        "Library=x&TITLE_URL=1",
        &[("Library", "x"), ("library", ""), ("TITLE_URL", "1")],
    ),
];

#[test]
fn keys_in_capitals_are_read(rt: HostRuntime) -> Result<(), Fail> {
    assert_eq!(rt; first_difference(rt.alloc(), &KEYS)?, None);
    Ok(())
}
