//! Titles and names of requests, as sources send them.

use crate::shared::{Case, first_difference, values};
use openurl_reading::read_openurl;
use std::test::Fail;

const TITLES: [Case; 11] = [
    (
        "rft.atitle=Storm%2520surges",
        &[("rft.atitle", "Storm surges")],
    ),
    (
        "atitle=%3Ci%3EZostera%3C/i%3E+beds&jtitle=Silt+%26amp%3B+Sand",
        &[
            ("rft.atitle", "Zostera beds"),
            ("rft.jtitle", "Silt & Sand"),
            ("atitle", "<i>Zostera</i> beds"),
        ],
    ),
    (
        "rft.btitle=The%2BArt%2Bof%2BFugue",
        &[("rft.btitle", "The Art of Fugue")],
    ),
    ("rft.btitle=C%2B%2B", &[("rft.btitle", "C++")]),
    ("rft.atitle=100%25+sure", &[("rft.atitle", "100% sure")]),
    (
        "rft.atitle=++Storm+++surges+",
        &[("rft.atitle", "Storm surges")],
    ),
    (
        "rft.atitle=RETRACTED:+A+study",
        &[("rft.atitle", "A study")],
    ),
    (
        "rft.title=RETRACTED+ARTICLE:+Silt",
        &[("rft.title", "Silt")],
    ),
    (
        "rft.stitle=RETRACTED:+A+study",
        &[("rft.stitle", "RETRACTED: A study")],
    ),
    (
        "title=%3Cem%3ETides%3C/em%3E&issn=2901-0012",
        &[("rft.jtitle", "Tides"), ("rft.issn", "2901-0012")],
    ),
    ("rft.atitle=%3Ci%3E%3C/i%3E", &[("rft.atitle", "<i></i>")]),
];

#[test]
fn titles_are_read_as_text(rt: HostRuntime) -> Result<(), Fail> {
    assert_eq!(rt; first_difference(rt.alloc(), &TITLES)?, None);
    Ok(())
}

const NAMES: [Case; 7] = [
    (
        "rft.au=G%7B%5C%22o%7Ddel,+K.",
        &[("rft.au", "G\u{f6}del, K.")],
    ),
    (
        "aulast=O%5C%27Neill&aufirst=%7B%5C%27E%7Dmile",
        &[("rft.aulast", "O'Neill"), ("rft.aufirst", "\u{c9}mile")],
    ),
    (
        "rft.aucorp=Silt+%26amp%3B+Sand",
        &[("rft.aucorp", "Silt & Sand")],
    ),
    (
        "rft.creator=G%7B%5C%22o%7Ddel",
        &[("rft.au", "G\u{f6}del"), ("rft.creator", "G{\\\"o}del")],
    ),
    (
        "rft.pages=101%252D118",
        &[("rft.pages", "101-118"), ("rft.spage", "101")],
    ),
    (
        "pages=101%26%23x2013%3B118",
        &[
            ("rft.pages", "101\u{2013}118"),
            ("rft.spage", "101"),
            ("pages", "101&#x2013;118"),
        ],
    ),
    (
        "rft.genre=%3Ci%3Earticle%3C/i%3E",
        &[("rft.genre", "<i>article</i>")],
    ),
];

#[test]
fn names_and_pages_are_read_as_text(rt: HostRuntime) -> Result<(), Fail> {
    assert_eq!(rt; first_difference(rt.alloc(), &NAMES)?, None);
    Ok(())
}

#[test]
fn all_names_are_read(rt: HostRuntime) -> Result<(), Fail> {
    let query = "rft.au=Smith&rft.au=M%25C3%25BCller&rft.au=Li";
    let reading = read_openurl(rt.alloc(), query.as_bytes())?;
    let names = values(rt.alloc(), reading.pairs(), "rft.au")?;
    assert!(rt; names.as_str() == "Smith M\u{fc}ller Li ");
    Ok(())
}

/// A query, and whether a title of it has a remark of a retraction.
const RETRACTIONS: [(&str, bool); 7] = [
    ("rft.atitle=RETRACTED:+Silt", true),
    ("atitle=Silt+(Retracted+in+2015)", true),
    ("title=%26%2391;Retracted%26%2393;+Silt", true),
    ("rft.atitle=Retraction+of:+Silt", false),
    ("rft.atitle=%5BRetracted%5D", false),
    ("rft.stitle=RETRACTED:+Silt", false),
    ("issn=29010012", false),
];

#[test]
fn remarks_of_retractions_are_told(rt: HostRuntime) -> Result<(), Fail> {
    for (query, is_retracted) in &RETRACTIONS {
        let reading = read_openurl(rt.alloc(), query.as_bytes())?;
        assert!(rt; reading.is_retracted() == *is_retracted);
    }
    Ok(())
}
