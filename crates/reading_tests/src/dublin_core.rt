//! Requests in simple Dublin Core.

use crate::shared::{Case, first_difference};
use std::test::Fail;

const CORE: &str = "info:ofi/fmt:kev:mtx:dc";

/// Requests that name the format of Dublin Core, or none and have an element that no other format has.
const FORMATS: [Case; 9] = [
    (
        "rft_val_fmt=info:ofi/fmt:kev:mtx:dc&rft.creator=Smith",
        &[("rft.au", "Smith"), ("rft_val_fmt", CORE)],
    ),
    (
        "rft_val_fmt=INFO:OFI/FMT:KEV:MTX:DC&rft.type=book",
        &[("rft.genre", "book")],
    ),
    (
        "rft_val_fmt=:dc&rft.type=book",
        &[("rft.genre", "book"), ("rft_val_fmt", ":dc")],
    ),
    (
        "rft.creator=Smith",
        &[
            ("rft.au", "Smith"),
            ("rft.creator", "Smith"),
            ("rft_val_fmt", "info:ofi/fmt:kev:mtx:journal"),
        ],
    ),
    (
        "rft.source=Tides&rft.type=book",
        &[
            ("rft.genre", "book"),
            ("rft_val_fmt", "info:ofi/fmt:kev:mtx:book"),
        ],
    ),
    (
        "rft.identifier=doi:10.1000/182&rft.type=dissertation",
        &[("rft.genre", "dissertation"), ("x.doi", "10.1000/182")],
    ),
    (
        "rft_val_fmt=info:ofi/fmt:kev:mtx:book&rft.creator=Smith",
        &[("rft.au", "")],
    ),
    ("rft_val_fmt=dc&rft.creator=Smith", &[("rft.au", "")]),
    (
        "creator=Smith&source=Tides&type=book&identifier=10.1000/182",
        &[("rft.au", ""), ("rft.genre", ""), ("x.doi", "10.1000/182")],
    ),
];

const ELEMENTS: [Case; 23] = [
    (
        "rft.source=Tides+2012;12(3):45-67&rft.title=Silt",
        &[
            ("rft.jtitle", "Tides"),
            ("rft.volume", "12"),
            ("rft.issue", "3"),
            ("rft.pages", "45-67"),
            ("rft.date", "2012"),
            ("rft.atitle", "Silt"),
        ],
    ),
    (
        "rft.source=Tides+12(3):45-67&rft.volume=13",
        &[
            ("rft.jtitle", "Tides"),
            ("rft.volume", "13"),
            ("rft.issue", "3"),
        ],
    ),
    (
        "rft.source=vol.+12,+no.+3,+pp.+45-67&rft.source=Tides,+vol.+12&rft.source=Coasts",
        &[
            ("rft.jtitle", "Tides"),
            ("rft.volume", "12"),
            ("rft.issue", "3"),
            ("rft.pages", "45-67"),
        ],
    ),
    (
        "rft.source=Tides%3B+Vol.+12+No.+3+(2012):+Silt%3B+45-67",
        &[
            ("rft.jtitle", "Tides"),
            ("rft.issue", "3"),
            ("rft.pages", "45-67"),
            ("rft.date", "2012"),
        ],
    ),
    (
        "rft.source=Tides&rft.jtitle=Coasts",
        &[("rft.jtitle", "Coasts")],
    ),
    (
        "rft.source=%E6%BD%AE%E6%B1%90",
        &[("rft.jtitle", "\u{6f6e}\u{6c50}")],
    ),
    ("rft.source=Q", &[("rft.jtitle", "")]),
    (
        "rft.source=https://example.org/tides",
        &[("rft.jtitle", "")],
    ),
    ("rft.source=ISSN+2901-0012", &[("rft.jtitle", "")]),
    ("rft.source=arXiv:2101.00001", &[("rft.jtitle", "")]),
    ("rft.source=DOI:10.1000/182", &[("rft.jtitle", "")]),
    ("rft.source=urn:isbn:9781234560102", &[("rft.jtitle", "")]),
    (
        "rft.source=PMC+Biophysics",
        &[("rft.jtitle", "PMC Biophysics")],
    ),
    (
        "rft_val_fmt=info:ofi/fmt:kev:mtx:dcx&rft.source=Tides",
        &[("rft.jtitle", "")],
    ),
    (
        "rft.creator=Smith,+J.&rft.creator=Jones,+A.",
        &[("rft.au", "Smith, J.")],
    ),
    ("rft.creator=Smith&rft.au=Jones", &[("rft.au", "Jones")]),
    ("rft.creator=Smith&au=Jones", &[("rft.au", "Jones")]),
    (
        "rft.creator=Smith&rft.type=+Article",
        &[("rft.genre", " Article")],
    ),
    (
        "rft.creator=Smith&rft.type=text",
        &[("rft.genre", ""), ("rft.type", "text")],
    ),
    (
        "rft.creator=Smith&rft.type=proceeding",
        &[("rft.genre", "")],
    ),
    (
        "rft.creator=Smith&rft.type=book&genre=article",
        &[("rft.genre", "article")],
    ),
    (
        "rft.creator=Smith&rft.type=text&rft.type=book",
        &[("rft.genre", "")],
    ),
    ("rft.type=book", &[("rft.genre", "")]),
];

/// The title of an article in a journal, of a book, or of something else.
const TITLES: [Case; 12] = [
    (
        "rft.creator=Smith&rft.title=Storm+surges&rft.jtitle=Tides",
        &[
            ("rft.atitle", "Storm surges"),
            ("rft.btitle", ""),
            ("rft.title", "Storm surges"),
        ],
    ),
    (
        "rft.creator=Smith&rft.title=Storm+surges&jtitle=Tides",
        &[("rft.atitle", "Storm surges"), ("rft.jtitle", "Tides")],
    ),
    (
        "rft.creator=Smith&rft.title=Atlas&rft.jtitle=Tides&rft.type=book",
        &[("rft.atitle", "Atlas"), ("rft.btitle", "")],
    ),
    (
        "rft.creator=Smith&rft.title=Atlas&rft.type=book",
        &[
            ("rft.btitle", "Atlas"),
            ("rft.atitle", ""),
            ("rft.genre", "book"),
            ("rft_val_fmt", "info:ofi/fmt:kev:mtx:book"),
        ],
    ),
    (
        "rft.creator=Smith&rft.title=Atlas&isbn=9781234560102",
        &[("rft.btitle", "Atlas"), ("rft.isbn", "9781234560102")],
    ),
    (
        "rft_val_fmt=info:ofi/fmt:kev:mtx:dc&rft.title=Atlas&genre=bookitem",
        &[("rft.btitle", "Atlas"), ("rft_val_fmt", CORE)],
    ),
    (
        "rft.creator=Smith&rft.title=On+tides&rft.type=dissertation",
        &[
            ("rft.title", "On tides"),
            ("rft.btitle", ""),
            ("rft.atitle", ""),
        ],
    ),
    (
        "rft.creator=Smith&rft.title=Tides&rft.type=article",
        &[("rft.btitle", ""), ("rft.atitle", "")],
    ),
    (
        "rft.creator=Smith&title=Atlas&rft.type=book",
        &[("rft.btitle", "Atlas"), ("rft.title", "")],
    ),
    (
        "rft.creator=Smith&rft.title=Other&rft.atitle=Surges&rft.jtitle=Tides",
        &[("rft.atitle", "Surges")],
    ),
    (
        "rft.creator=Smith&rft.title=Other&btitle=Atlas",
        &[("rft.btitle", "Atlas"), ("rft.atitle", "")],
    ),
    (
        "rft.title=Atlas&isbn=9781234560102",
        &[("rft.btitle", ""), ("rft.title", "Atlas")],
    ),
];

#[test]
fn formats_and_elements_say_dublin_core(rt: HostRuntime) -> Result<(), Fail> {
    assert_eq!(rt; first_difference(rt.alloc(), &FORMATS)?, None);
    Ok(())
}

#[test]
fn elements_give_authors_and_genres(rt: HostRuntime) -> Result<(), Fail> {
    assert_eq!(rt; first_difference(rt.alloc(), &ELEMENTS)?, None);
    Ok(())
}

#[test]
fn titles_of_elements_have_a_key_of_their_kind(rt: HostRuntime) -> Result<(), Fail> {
    assert_eq!(rt; first_difference(rt.alloc(), &TITLES)?, None);
    Ok(())
}
