//! Identifiers that titles mention.

use std::alloc::{AllocError, Global};
use std::test::Fail;
use work_identifiers::{Namespace, mention_in};

const DOI: Namespace = Namespace::Doi;

const PMID: Namespace = Namespace::Pmid;

const OCLC: Namespace = Namespace::Oclc;

const PMC: Namespace = Namespace::Pmc;

const ARXIV: Namespace = Namespace::Arxiv;

/// Titles, and what they mention.
const TITLES: [(Namespace, &str, &str); 33] = [
    (DOI, "Silt and tides. doi:10.1000/182", "10.1000/182"),
    (DOI, "Silt and tides (doi:10.1000/182).", "10.1000/182"),
    (DOI, "Silt, doi: 10.1000/182, and tides", "10.1000/182"),
    (DOI, "Silt https://doi.org/10.1000/182", "10.1000/182"),
    (DOI, "<https://doi.org/10.1000/182> Silt", "10.1000/182"),
    (DOI, "10.1000/182 and 10.1000/183", "10.1000/182"),
    (DOI, "10.1000/182", "10.1000/182"),
    (PMID, "Tides PMID: 12345678", "12345678"),
    (PMID, "Tides. PMID:12345678; in French", "12345678"),
    (PMID, "Tides [PubMed 12345678]", "12345678"),
    (
        PMID,
        "https://pubmed.ncbi.nlm.nih.gov/12345678/ Tides",
        "12345678",
    ),
    (PMC, "Tides, PMCID: PMC1234567.", "1234567"),
    (PMC, "Tides, PMC 1234567", "1234567"),
    (OCLC, "Tides (OCLC: ocm12345678)", "12345678"),
    (ARXIV, "Silt, arXiv:2101.00001v2 [q-bio]", "2101.00001"),
    (ARXIV, "Silt. arXiv: hep-th/9901001", "hep-th/9901001"),
    (DOI, "Silt\tdoi:10.1000/182\r\n", "10.1000/182"),
    (DOI, "Retraction of silt doi:10.1000/182", ""),
    (DOI, "Authors' reply to Tides, 10.1000/182", ""),
    (DOI, "[Publisher correction: Silt] 10.1000/182", ""),
    (DOI, "EXPRESSION OF CONCERN: Silt 10.1000/182", ""),
    (DOI, "Authority of silt 10.1000/182", "10.1000/182"),
    (DOI, "Silt and tides", ""),
    (DOI, "10.5/3 alloys of 1984 and 1985", ""),
    (DOI, "Silt10.1000/182", ""),
    (PMID, "12345678", ""),
    (PMID, "Tides 12345678 PMID", ""),
    (PMID, "Tides in PubMed 2005 and 2006", ""),
    (PMC, "PMC 25 and PMC7 alloys of 1984", ""),
    (OCLC, "OCM1 cells: 12345 of them", ""),
    (ARXIV, "2101.00001", ""),
    (ARXIV, "Room 101 of 12345", ""),
    (DOI, "", ""),
];

/// The first title that mentions something else.
fn first_other(alloc: Global) -> Result<Option<&'static str>, AllocError> {
    for (namespace, title, expected) in &TITLES {
        let found = mention_in(alloc, *namespace, title.as_bytes())?;
        if found.unwrap_or(b"") != expected.as_bytes() {
            return Ok(Some(*title));
        }
    }
    Ok(None)
}

#[test]
fn titles_mention_identifiers(rt: HostRuntime) -> Result<(), Fail> {
    assert_eq!(rt; first_other(rt.alloc())?, None);
    Ok(())
}

#[test]
fn titles_with_many_numbers_mention_none(rt: HostRuntime) -> Result<(), Fail> {
    let four = b"10.1000/182 12345 12345 1234 12345";
    let found = mention_in(rt.alloc(), DOI, four)?;
    assert_eq!(rt; found, Some(b"10.1000/182".as_slice()));
    let five = b"10.1000/182 12345 12345 12345 12345";
    let found = mention_in(rt.alloc(), DOI, five)?;
    assert!(rt; found.is_none());
    Ok(())
}
