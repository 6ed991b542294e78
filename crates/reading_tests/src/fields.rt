//! The fields of forms for citations: a number and an identifier of any kind.

use crate::shared::{Case, first_difference};
use std::test::Fail;

/// A number is that of a book if it has an ISBN, or else that of a journal.
const NUMBERS: [Case; 12] = [
    (
        "number=2901-0012",
        &[
            ("rft.issn", "2901-0012"),
            ("rft.isbn", ""),
            ("x.issn", "2901-0012"),
            ("number", "2901-0012"),
        ],
    ),
    (
        "number=ISSN+2901+0012&title=Tides",
        &[("rft.issn", "2901-0012"), ("rft.jtitle", "Tides")],
    ),
    ("number=Tides", &[("rft.issn", "Tides"), ("rft.isbn", "")]),
    (
        "number=9781234560102",
        &[
            ("rft.isbn", "9781234560102"),
            ("rft.issn", ""),
            ("rft_val_fmt", "info:ofi/fmt:kev:mtx:book"),
        ],
    ),
    (
        "number=ISBN+978-1-234-56010-2&title=Atlas",
        &[("rft.isbn", "9781234560102"), ("rft.btitle", "Atlas")],
    ),
    (
        "number=9781234560102&number=2901-0012",
        &[("rft.isbn", "9781234560102"), ("rft.issn", "")],
    ),
    (
        "number=2901-0012&issn=2943-081X",
        &[("rft.issn", "2901-0012"), ("x.issn", "2901-0012")],
    ),
    (
        "number=2901-0012&rft.issn=2943-081X",
        &[("rft.issn", "2943-081X"), ("x.eissn", "")],
    ),
    (
        "number=9781234560102&rft.isbn=9781234560119",
        &[("rft.isbn", "9781234560119"), ("rft.issn", "")],
    ),
    ("number=any", &[("rft.issn", ""), ("number", "")]),
    (
        "number=+A-N-Y&number=2901-0012",
        &[("rft.issn", "2901-0012"), ("number", "2901-0012")],
    ),
    ("number=+&identifier=", &[("rft.issn", ""), ("id", "")]),
];

/// An identifier of one to nine digits is a number of PubMed.
const IDENTIFIERS: [Case; 12] = [
    (
        "identifier=12345678",
        &[
            ("pmid", "12345678"),
            ("id", ""),
            ("rft_id", "info:pmid/12345678"),
            ("x.pmid", "12345678"),
        ],
    ),
    (
        "identifier=+123456789%0A",
        &[("pmid", " 123456789\n"), ("x.pmid", "123456789")],
    ),
    ("identifier=7", &[("pmid", "7"), ("x.pmid", "7")]),
    (
        "identifier=1234567890",
        &[("id", "1234567890"), ("pmid", ""), ("x.pmid", "")],
    ),
    (
        "identifier=12345+678",
        &[("id", "12345 678"), ("pmid", ""), ("x.pmid", "")],
    ),
    (
        "identifier=PMID+12345678",
        &[
            ("id", "PMID 12345678"),
            ("pmid", ""),
            ("x.pmid", "12345678"),
        ],
    ),
    (
        "identifier=doi:10.1000/182",
        &[
            ("id", "doi:10.1000/182"),
            ("pmid", ""),
            ("x.doi", "10.1000/182"),
        ],
    ),
    (
        "identifier=10.1000/182&identifier=12345678",
        &[("id", "10.1000/182"), ("pmid", ""), ("x.pmid", "")],
    ),
    (
        "identifier=10.1000/182&id=doi:10.1000/123456",
        &[("id", "doi:10.1000/123456"), ("x.doi", "10.1000/123456")],
    ),
    (
        "identifier=10.1000/182&rft_id=info:doi/10.1000/123456",
        &[("id", "10.1000/182"), ("x.doi", "10.1000/123456")],
    ),
    (
        "identifier=12345678&pmid=7654321",
        &[("pmid", "7654321"), ("id", ""), ("x.pmid", "7654321")],
    ),
    (
        "identifier=12345678&identifier=7654321",
        &[("pmid", "12345678"), ("x.pmid", "12345678")],
    ),
];

#[test]
fn numbers_are_of_books_or_journals(rt: HostRuntime) -> Result<(), Fail> {
    assert_eq!(rt; first_difference(rt.alloc(), &NUMBERS)?, None);
    Ok(())
}

#[test]
fn identifiers_are_of_pubmed_or_others(rt: HostRuntime) -> Result<(), Fail> {
    assert_eq!(rt; first_difference(rt.alloc(), &IDENTIFIERS)?, None);
    Ok(())
}
