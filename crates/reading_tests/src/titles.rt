//! What requests are for: their formats, and the titles of books, dissertations and journals.

use crate::shared::{Case, first_difference};
use std::test::Fail;

const BOOK: &str = "info:ofi/fmt:kev:mtx:book";

const DISSERTATION: &str = "info:ofi/fmt:kev:mtx:dissertation";

const JOURNAL: &str = "info:ofi/fmt:kev:mtx:journal";

/// The genres of the formats for books and journals, `dissertation`, and others, which do not decide.
const GENRES: [Case; 12] = [
    ("genre=article", &[("rft_val_fmt", JOURNAL)]),
    (
        "rft.genre=issue&rft.isbn=9781234560102",
        &[("rft_val_fmt", JOURNAL)],
    ),
    ("rft.genre=preprint", &[("rft_val_fmt", JOURNAL)]),
    ("rft.genre=bookitem", &[("rft_val_fmt", BOOK)]),
    ("genre=report&issn=2901-0012", &[("rft_val_fmt", BOOK)]),
    (
        "rft.genre=document&rft.jtitle=Tides",
        &[("rft_val_fmt", BOOK)],
    ),
    ("genre=dissertation", &[("rft_val_fmt", DISSERTATION)]),
    (
        "rft.genre=+Dissertation%0A&rft.isbn=9781234560102",
        &[
            ("rft_val_fmt", DISSERTATION),
            ("rft.genre", " Dissertation\n"),
        ],
    ),
    ("genre=BOOK", &[("rft_val_fmt", BOOK)]),
    ("genre=proceeding", &[("rft_val_fmt", JOURNAL)]),
    (
        "genre=proceeding&isbn=9781234560102",
        &[("rft_val_fmt", BOOK)],
    ),
    ("genre=book+chapter&genre=book", &[("rft_val_fmt", JOURNAL)]),
];

/// Without a genre, an ISBN without an ISSN, or the title of a book without that of a journal, is of a book.
const KEYS: [Case; 9] = [
    ("isbn=9781234560102", &[("rft_val_fmt", BOOK)]),
    ("rft.eisbn=9781234560102", &[("rft_val_fmt", BOOK)]),
    (
        "rft.isbn=9781234560102&rft.issn=2901-0012",
        &[("rft_val_fmt", JOURNAL)],
    ),
    (
        "isbn=9781234560102&eissn=2901-0012",
        &[("rft_val_fmt", JOURNAL)],
    ),
    ("rft.btitle=Atlas", &[("rft_val_fmt", BOOK)]),
    ("btitle=Atlas&rft.jtitle=Tides", &[("rft_val_fmt", JOURNAL)]),
    ("btitle=Atlas&issn=2901-0012", &[("rft_val_fmt", BOOK)]),
    ("atitle=Storm+surges", &[("rft_val_fmt", JOURNAL)]),
    ("rft_id=info:doi/10.1000/182", &[("rft_val_fmt", JOURNAL)]),
];

/// A format that is named stays, and an empty request has none.
const FORMATS: [Case; 6] = [
    (
        "rft_val_fmt=info:ofi/fmt:kev:mtx:book&genre=article",
        &[("rft_val_fmt", BOOK)],
    ),
    (
        "rft_val_fmt=info:ofi/fmt:kev:mtx:patent&rft.title=Pump",
        &[("rft_val_fmt", "info:ofi/fmt:kev:mtx:patent")],
    ),
    ("rft_val_fmt=+&genre=book", &[("rft_val_fmt", BOOK)]),
    ("", &[("rft_val_fmt", "")]),
    ("rft.genre=&rft.title=+", &[("rft_val_fmt", "")]),
    ("x.doi=10.1000/182&notes=n", &[("rft_val_fmt", "")]),
];

/// `title` of OpenURL 0.1 is that of a book, a dissertation or a journal.
const TITLES: [Case; 12] = [
    (
        "title=Tides&genre=article",
        &[
            ("rft.jtitle", "Tides"),
            ("rft.btitle", ""),
            ("rft.title", ""),
            ("title", "Tides"),
        ],
    ),
    (
        "title=Tides",
        &[("rft.jtitle", "Tides"), ("rft_val_fmt", JOURNAL)],
    ),
    (
        "title=Tides&title=Waves&issn=2901-0012",
        &[("rft.jtitle", "Tides")],
    ),
    (
        "title=Atlas&genre=bookitem&atitle=Storm+surges",
        &[
            ("rft.btitle", "Atlas"),
            ("rft.jtitle", ""),
            ("rft.title", ""),
            ("rft.atitle", "Storm surges"),
        ],
    ),
    (
        "title=Atlas&isbn=9781234560102",
        &[("rft.btitle", "Atlas"), ("rft_val_fmt", BOOK)],
    ),
    (
        "title=Atlas&genre=unknown&isbn=9781234560102",
        &[("rft.btitle", "Atlas"), ("rft.jtitle", "")],
    ),
    (
        "title=On+tides&genre=dissertation",
        &[
            ("rft.title", "On tides"),
            ("rft.btitle", ""),
            ("rft.jtitle", ""),
        ],
    ),
    (
        "title=Other&rft.jtitle=Tides",
        &[("rft.jtitle", "Tides"), ("rft.btitle", "")],
    ),
    (
        "title=Other&btitle=Atlas&genre=article",
        &[("rft.btitle", "Atlas"), ("rft.jtitle", "")],
    ),
    (
        "title=Other&rft.title=Tides&genre=article",
        &[("rft.title", "Tides"), ("rft.jtitle", "")],
    ),
    (
        "title=Other&stitle=Tides",
        &[("rft.jtitle", "Other"), ("rft.stitle", "Tides")],
    ),
    ("title=+&genre=book", &[("rft.btitle", ""), ("title", "")]),
];

#[test]
fn genres_say_the_format(rt: HostRuntime) -> Result<(), Fail> {
    assert_eq!(rt; first_difference(rt.alloc(), &GENRES)?, None);
    Ok(())
}

#[test]
fn keys_say_the_format(rt: HostRuntime) -> Result<(), Fail> {
    assert_eq!(rt; first_difference(rt.alloc(), &KEYS)?, None);
    Ok(())
}

#[test]
fn a_format_that_is_named_stays(rt: HostRuntime) -> Result<(), Fail> {
    assert_eq!(rt; first_difference(rt.alloc(), &FORMATS)?, None);
    Ok(())
}

#[test]
fn titles_have_the_key_of_their_kind(rt: HostRuntime) -> Result<(), Fail> {
    assert_eq!(rt; first_difference(rt.alloc(), &TITLES)?, None);
    Ok(())
}
