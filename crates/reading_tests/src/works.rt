//! Identifiers of works under the keys of requests.

use crate::shared::values;
use openurl_reading::{Pairs, read_openurl};
use std::alloc::Global;
use std::test::Fail;

/// A query, and what its reading has: the values of `rft_id`, each with a space after it, then `x.doi`, `x.pmid` and
/// `x.oclc`, which are empty if there is none.
type Case = (&'static str, &'static str, [&'static str; 3]);

/// Whether the keys that the resolver adds have these values.
fn has_added(pairs: &Pairs, added: &[&'static str; 3]) -> bool {
    pairs.first("x.doi").unwrap_or("") == added[0]
        && pairs.first("x.pmid").unwrap_or("") == added[1]
        && pairs.first("x.oclc").unwrap_or("") == added[2]
}

/// Whether the reading of a query is this.
fn is_read(alloc: Global, case: &Case) -> Result<bool, Fail> {
    let reading = read_openurl(alloc, case.0.as_bytes())?;
    let known = values(alloc, reading.pairs(), "rft_id")?;
    Ok(known.as_str() == case.1 && has_added(reading.pairs(), &case.2))
}

/// The first query whose reading is another one.
fn first_other(alloc: Global, cases: &[Case]) -> Result<Option<&'static str>, Fail> {
    for case in cases {
        if !is_read(alloc, case)? {
            return Ok(Some(case.0));
        }
    }
    Ok(None)
}

/// ISO 26324 has 10.1000/123456, and the handbook of DOIs 10.1000/182.
const KEYS: [Case; 10] = [
    (
        "rft_id=doi:10.1000/182",
        "info:doi/10.1000/182 doi:10.1000/182 ",
        ["10.1000/182", "", ""],
    ),
    (
        "id=doi:10.1000/182",
        "info:doi/10.1000/182 ",
        ["10.1000/182", "", ""],
    ),
    (
        "rft.doi=10.1000/182",
        "info:doi/10.1000/182 ",
        ["10.1000/182", "", ""],
    ),
    (
        "doi=https://doi.org/10.1000/182",
        "info:doi/10.1000/182 ",
        ["10.1000/182", "", ""],
    ),
    (
        "doi=https://doi-org.proxy.example.edu/10.1000/182",
        "info:doi/10.1000/182 ",
        ["10.1000/182", "", ""],
    ),
    (
        "pmid=10.1000/182",
        "info:doi/10.1000/182 ",
        ["10.1000/182", "", ""],
    ),
    (
        "rft.pmid=doi:10.1000/182",
        "info:doi/10.1000/182 ",
        ["10.1000/182", "", ""],
    ),
    (
        "pmcid=10.1000/182",
        "info:doi/10.1000/182 ",
        ["10.1000/182", "", ""],
    ),
    ("rft.pmcid=pmid:7", "info:pmid/7 ", ["", "7", ""]),
    (
        "rft.identifier=(OCoLC)123",
        "info:oclcnum/123 ",
        ["", "", "123"],
    ),
];

#[test]
fn each_key_is_read(rt: HostRuntime) -> Result<(), Fail> {
    assert_eq!(rt; first_other(rt.alloc(), &KEYS)?, None);
    Ok(())
}

const NUMBERS: [Case; 13] = [
    (
        "id=pmid:99990001",
        "info:pmid/99990001 ",
        ["", "99990001", ""],
    ),
    ("pmid=99990001", "info:pmid/99990001 ", ["", "99990001", ""]),
    (
        "rft.pmid=99990001",
        "info:pmid/99990001 ",
        ["", "99990001", ""],
    ),
    (
        "rft_id=https://pubmed.ncbi.nlm.nih.gov/7/",
        "info:pmid/7 https://pubmed.ncbi.nlm.nih.gov/7/ ",
        ["", "7", ""],
    ),
    ("id=oclc:123", "info:oclcnum/123 ", ["", "", "123"]),
    (
        "rft_id=http://www.worldcat.org/oclc/123",
        "info:oclcnum/123 http://www.worldcat.org/oclc/123 ",
        ["", "", "123"],
    ),
    (
        "id=99990001&doi=99990001&rft.doi=99990001",
        "",
        ["", "", ""],
    ),
    ("rft_id=99990001", "99990001 ", ["", "", ""]),
    ("pmid=123456+789", "", ["", "", ""]),
    ("rft.pmid=123456%2F789", "", ["", "", ""]),
    ("id=oclc:123456,+789", "", ["", "", ""]),
    (
        "id=oclc:on1234567890",
        "info:oclcnum/1234567890 ",
        ["", "", "1234567890"],
    ),
    (
        "id=unknown&doi=n/a&pmid=7a&rft.doi=10.1000",
        "",
        ["", "", ""],
    ),
];

#[test]
fn numbers_of_pubmed_and_oclc_are_read(rt: HostRuntime) -> Result<(), Fail> {
    assert_eq!(rt; first_other(rt.alloc(), &NUMBERS)?, None);
    Ok(())
}

const CENTRAL: [Case; 7] = [
    (
        "pmcid=123",
        "https://pmc.ncbi.nlm.nih.gov/articles/PMC123/ ",
        ["", "", ""],
    ),
    (
        "rft.pmcid=PMC123.2",
        "https://pmc.ncbi.nlm.nih.gov/articles/PMC123/ ",
        ["", "", ""],
    ),
    (
        "id=pmc:PMC123",
        "https://pmc.ncbi.nlm.nih.gov/articles/PMC123/ ",
        ["", "", ""],
    ),
    (
        "rft_id=https://pmc.ncbi.nlm.nih.gov/articles/PMC123/",
        "https://pmc.ncbi.nlm.nih.gov/articles/PMC123/ ",
        ["", "", ""],
    ),
    (
        "rft_id=https://www.ncbi.nlm.nih.gov/pmc/articles/PMC123",
        "https://pmc.ncbi.nlm.nih.gov/articles/PMC123/ https://www.ncbi.nlm.nih.gov/pmc/articles/PMC123 ",
        ["", "", ""],
    ),
    (
        "pmcid=PMC123&pmid=7&doi=10.1000/182",
        "info:doi/10.1000/182 info:pmid/7 https://pmc.ncbi.nlm.nih.gov/articles/PMC123/ ",
        ["10.1000/182", "7", ""],
    ),
    (
        "pmid=PMC123&id=123",
        "https://pmc.ncbi.nlm.nih.gov/articles/PMC123/ ",
        ["", "", ""],
    ),
];

#[test]
fn numbers_of_pubmed_central_are_read(rt: HostRuntime) -> Result<(), Fail> {
    assert_eq!(rt; first_other(rt.alloc(), &CENTRAL)?, None);
    Ok(())
}

const PREPRINTS: [Case; 6] = [
    (
        "id=arXiv:2101.00001v2",
        "info:doi/10.48550/arXiv.2101.00001 ",
        ["10.48550/arXiv.2101.00001", "", ""],
    ),
    (
        "rft_id=info:arxiv/math.GT/0309136",
        "info:doi/10.48550/arXiv.math/0309136 info:arxiv/math.GT/0309136 ",
        ["10.48550/arXiv.math/0309136", "", ""],
    ),
    (
        "id=arXiv:2101.00001&doi=10.1000/182",
        "info:doi/10.1000/182 ",
        ["10.1000/182", "", ""],
    ),
    (
        "id=arXiv:2101.00001&url=https://e.org/doi/10.1000/182",
        "info:doi/10.1000/182 ",
        ["10.1000/182", "", ""],
    ),
    (
        "rft_id=info:doi/10.48550/arXiv.2101.00001",
        "info:doi/10.48550/arXiv.2101.00001 ",
        ["10.48550/arXiv.2101.00001", "", ""],
    ),
    (
        "pmid=7&id=arXiv:2101.00001",
        "info:doi/10.48550/arXiv.2101.00001 info:pmid/7 ",
        ["10.48550/arXiv.2101.00001", "7", ""],
    ),
];

#[test]
fn preprints_have_the_doi_of_arxiv(rt: HostRuntime) -> Result<(), Fail> {
    assert_eq!(rt; first_other(rt.alloc(), &PREPRINTS)?, None);
    Ok(())
}

const LAST_SOURCES: [Case; 11] = [
    (
        "url=https://e.org/doi/full/10.1000/182?x=y",
        "info:doi/10.1000/182 ",
        ["10.1000/182", "", ""],
    ),
    (
        "url=https://doi.org/10.1000/182",
        "info:doi/10.1000/182 ",
        ["10.1000/182", "", ""],
    ),
    (
        "url=https://e.org/doi/10.1000/182&doi=10.1000/123456",
        "info:doi/10.1000/123456 ",
        ["10.1000/123456", "", ""],
    ),
    (
        "url=https://pubmed.ncbi.nlm.nih.gov/8/&doi=10.1000/182",
        "info:doi/10.1000/182 info:pmid/8 ",
        ["10.1000/182", "8", ""],
    ),
    (
        "url=https://arxiv.org/abs/2101.00001",
        "info:doi/10.48550/arXiv.2101.00001 ",
        ["10.48550/arXiv.2101.00001", "", ""],
    ),
    ("url=https://e.org/a/123", "", ["", "", ""]),
    ("id=https://e.org/doi/10.1000/182", "", ["", "", ""]),
    (
        "title=10.1000/182",
        "info:doi/10.1000/182 ",
        ["10.1000/182", "", ""],
    ),
    (
        "jtitle=PMID:+99990001",
        "info:pmid/99990001 ",
        ["", "99990001", ""],
    ),
    (
        "atitle=arXiv:2101.00001v2",
        "info:doi/10.48550/arXiv.2101.00001 ",
        ["10.48550/arXiv.2101.00001", "", ""],
    ),
    (
        "title=10.1000/182&url=https://e.org/doi/10.1000/123456",
        "info:doi/10.1000/123456 ",
        ["10.1000/123456", "", ""],
    ),
];

#[test]
fn pages_and_titles_are_the_last_sources(rt: HostRuntime) -> Result<(), Fail> {
    assert_eq!(rt; first_other(rt.alloc(), &LAST_SOURCES)?, None);
    Ok(())
}

const SEVERAL: [Case; 6] = [
    (
        "id=pmid:99990001&id=doi:10.1000/182",
        "info:doi/10.1000/182 info:pmid/99990001 ",
        ["10.1000/182", "99990001", ""],
    ),
    (
        "rft.identifier=oclc:123&pmid=7&doi=10.1000/182",
        "info:doi/10.1000/182 info:pmid/7 info:oclcnum/123 ",
        ["10.1000/182", "7", "123"],
    ),
    (
        "doi=10.1000/182&id=doi:10.1000/123456",
        "info:doi/10.1000/123456 ",
        ["10.1000/123456", "", ""],
    ),
    (
        "id=unknown&id=doi:10.1000/182&id=doi:10.1000/123456",
        "info:doi/10.1000/182 ",
        ["10.1000/182", "", ""],
    ),
    (
        "rft_id=https://e.org/1&doi=10.1000/182",
        "info:doi/10.1000/182 https://e.org/1 ",
        ["10.1000/182", "", ""],
    ),
    (
        "x.doi=10.1000/123456&x.pmid=8&id=doi:10.1000/182",
        "info:doi/10.1000/182 ",
        ["10.1000/182", "", ""],
    ),
];

#[test]
fn the_first_of_each_kind_counts(rt: HostRuntime) -> Result<(), Fail> {
    assert_eq!(rt; first_other(rt.alloc(), &SEVERAL)?, None);
    Ok(())
}

/// RFC 4452 has URIs in small letters.
const URIS: [Case; 8] = [
    (
        "rft_id=info:doi/10.1000/182",
        "info:doi/10.1000/182 ",
        ["10.1000/182", "", ""],
    ),
    (
        "rft_id=info:doi/10.1000/182&id=doi:10.1000/182",
        "info:doi/10.1000/182 ",
        ["10.1000/182", "", ""],
    ),
    (
        "rft_id=info:doi/10.1000/182&doi=10.1000/123456",
        "info:doi/10.1000/182 ",
        ["10.1000/182", "", ""],
    ),
    (
        "rft_id=info:pmid/7&doi=10.1000/182",
        "info:doi/10.1000/182 info:pmid/7 ",
        ["10.1000/182", "7", ""],
    ),
    (
        "rft_id=https://doi.org/10.1000/182",
        "info:doi/10.1000/182 https://doi.org/10.1000/182 ",
        ["10.1000/182", "", ""],
    ),
    (
        "rft_id=INFO:DOI/10.1000/182",
        "info:doi/10.1000/182 INFO:DOI/10.1000/182 ",
        ["10.1000/182", "", ""],
    ),
    (
        "rft_id=https://doi.org/10.1000/182&rft_id=urn:ISBN:9781234560102&rft_id=info:doi/10.1000/182",
        "https://doi.org/10.1000/182 urn:ISBN:9781234560102 info:doi/10.1000/182 ",
        ["10.1000/182", "", ""],
    ),
    (
        "rft_id=info:oclcnum/123&rft_id=info:doi/10.1000/182&rft_id=info:doi/10.1000/123456&rft_id=info:pmid/7",
        "info:oclcnum/123 info:doi/10.1000/182 info:doi/10.1000/123456 info:pmid/7 ",
        ["10.1000/182", "7", "123"],
    ),
];

#[test]
fn a_uri_that_is_known_is_not_added(rt: HostRuntime) -> Result<(), Fail> {
    assert_eq!(rt; first_other(rt.alloc(), &URIS)?, None);
    Ok(())
}

/// The first DOI of a request that has many other values before it.
fn many_values(alloc: Global, count: usize) -> Result<String, Fail> {
    let mut query = String::new(alloc);
    for _ in 0..count {
        query.push_str("id=none&")?;
    }
    query.push_str("id=doi:10.1000/182")?;
    Ok(query)
}

#[test]
fn all_values_of_a_key_are_read(rt: HostRuntime) -> Result<(), Fail> {
    for (count, wanted) in [(20, true), (299, true), (300, false)] {
        let query = many_values(rt.alloc(), count)?;
        let reading = read_openurl(rt.alloc(), query.as_str().as_bytes())?;
        assert_eq!(rt; reading.pairs().first("x.doi").is_some(), wanted);
    }
    Ok(())
}

/// A query, and the DOI of its reading as a proxy has to get it, which is empty if that is the DOI itself.
const ENCODED: [(&str, &str); 3] = [
    (
        "rft_id=info:doi/10.1000/a%23b%3C1%3E.2",
        "10.1000%2Fa%23b%3C1%3E.2",
    ),
    ("doi=10.1000/(SICI)12:3;4", ""),
    ("pmid=7&x.doi_encoded=a%23b", ""),
];

#[test]
fn a_doi_is_encoded_for_a_proxy(rt: HostRuntime) -> Result<(), Fail> {
    for (query, doi) in ENCODED {
        let reading = read_openurl(rt.alloc(), query.as_bytes())?;
        assert_eq!(rt;
            reading.pairs().first("x.doi_encoded").unwrap_or(""),
            doi,
            "{query}"
        );
    }
    Ok(())
}
