//! Identifiers in texts.

use std::alloc::{AllocError, Global};
use std::test::Fail;
use work_identifiers::{
    Namespace, StandardNumber, doi_in_address, identifier_alone, identifier_in, is_number_alone,
    is_number_named, uri_of,
};

/// Whether the identifier in a text is this; none is empty.
fn has(
    alloc: Global,
    namespace: Namespace,
    text: &str,
    expected: &str,
) -> Result<bool, AllocError> {
    let found = identifier_in(alloc, namespace, text.as_bytes())?;
    Ok(found.unwrap_or(b"") == expected.as_bytes())
}

/// The first text in which another identifier is found.
fn first_other(
    alloc: Global,
    namespace: Namespace,
    cases: &[(&'static str, &'static str)],
) -> Result<Option<&'static str>, AllocError> {
    for (text, expected) in cases {
        if !has(alloc, namespace, text, expected)? {
            return Ok(Some(*text));
        }
    }
    Ok(None)
}

/// ISO 26324 has 10.1000/123456, and the handbook of DOIs 10.1000/182; 10.5555 is the prefix for examples.
const DOIS: [(&str, &str); 53] = [
    ("", ""),
    ("10.1000/123456", "10.1000/123456"),
    ("info:doi/10.1000/182", "10.1000/182"),
    ("doi:10.1000/182", "10.1000/182"),
    ("DOI 10.1000/182", "10.1000/182"),
    ("doi: 10.1000/182", "10.1000/182"),
    ("urn:doi:10.1000/182", "10.1000/182"),
    ("info:doi/doi:10.1000/182", "10.1000/182"),
    ("https://doi.org/10.1000/182", "10.1000/182"),
    ("HTTP://DX.DOI.ORG/10.1000/182", "10.1000/182"),
    ("//dx.doi.org/10.1000/182", "10.1000/182"),
    ("doi.org/10.1000/182", "10.1000/182"),
    ("www.doi.org/10.1000/182", "10.1000/182"),
    ("info:doi/https://doi.org/10.1000/182", "10.1000/182"),
    ("doi:http://dx.doi.org/10.1000/182.", "10.1000/182"),
    ("10.1000.10/123456", "10.1000.10/123456"),
    ("10.5555/A(12)3", "10.5555/A(12)3"),
    ("10.5555/x(12)),", "10.5555/x(12)"),
    ("info:doi/10.5555/xyz)", "10.5555/xyz"),
    ("10.5555/xyz].", "10.5555/xyz"),
    ("(doi: 10.5555/abc)", "10.5555/abc"),
    ("<https://doi.org/10.5555/abc>", "10.5555/abc"),
    ("{10.5555/abc}", "10.5555/abc"),
    ("\"10.5555/abc\"", "10.5555/abc"),
    ("*10.5555/abc**", "10.5555/abc"),
    (" 10.5555/abc\n", "10.5555/abc"),
    (
        "10.1002/(SICI)1096(1996)99:1<1::AID-A1>3.0.CO;2-1",
        "10.1002/(SICI)1096(1996)99:1<1::AID-A1>3.0.CO;2-1",
    ),
    ("10.5555/a-_.~:;()!$'*,=@b", "10.5555/a-_.~:;()!$'*,=@b"),
    ("10.5555/a#b", "10.5555/a#b"),
    ("10.5555/a:doi.org/10.5555/b", "10.5555/a:doi.org/10.5555/b"),
    ("10.100/a", ""),
    ("10.1000/", ""),
    ("10.1000", ""),
    ("10.1000?a", ""),
    ("10.12345678901234567890/a", "10.12345678901234567890/a"),
    ("10.123456789012345678901/a", ""),
    ("11.1000/182", ""),
    ("x10.5555/abc", ""),
    ("https://e.org/10.5555/abc", ""),
    (
        "https://doi-org.proxy.example.edu/10.1000/182",
        "10.1000/182",
    ),
    (
        "https://dx-doi-org.ezproxy.example.edu/10.1000/182",
        "10.1000/182",
    ),
    ("doi.org.proxy.example/10.1000/182", "10.1000/182"),
    (
        "http://dx.doi.org.proxy-1.example.edu/10.1000/182.",
        "10.1000/182",
    ),
    ("//www.doi-org.example/10.1000/182", "10.1000/182"),
    (
        "info:doi/https://doi-org.example.edu/10.1000/182",
        "10.1000/182",
    ),
    ("https://doi.org/ 10.1000/182", "10.1000/182"),
    ("https://doi-org.example.edu:443/10.1000/182", ""),
    ("https://my-doi-org.example.edu/10.1000/182", ""),
    ("https://doi-org.example.edu/x/10.1000/182", ""),
    ("https://doi-org.example.edu/", ""),
    ("10.1000/182 10.1000/183", ""),
    ("10.5555/a b", ""),
    ("10.5555/k\u{fc}ste", ""),
];

const PUBMED: [(&str, &str); 37] = [
    ("info:pmid/99990001", "99990001"),
    ("pmid:99990001", "99990001"),
    ("PMID: 7.", "7"),
    ("PMID 7", "7"),
    ("pmid=7", "7"),
    ("PubMed ID: 7", "7"),
    ("pubmed:7", "7"),
    ("https://pubmed.ncbi.nlm.nih.gov/7/", "7"),
    ("https://pubmed.ncbi.nlm.nih.gov/7/?from=x", "7"),
    ("https://pubmed.ncbi.nlm.nih.gov/?term=7", "7"),
    ("http://www.ncbi.nlm.nih.gov/pubmed/8", "8"),
    ("//ncbi.nlm.nih.gov/pubmed/8", "8"),
    ("http://pubmed.gov/8", "8"),
    ("pmid:https://pubmed.ncbi.nlm.nih.gov/7/", "7"),
    ("(pmid:7)", "7"),
    ("pmid:123456789", "123456789"),
    ("pmid:1234567890", ""),
    ("7", ""),
    ("(7)", ""),
    ("pmid:", ""),
    ("pmid:7a", ""),
    ("pmid:10.5555/abc", ""),
    ("info:doi/10.5555/7", ""),
    ("pubmedid:7", "7"),
    ("https://www.pubmed.gov/?term=7", "7"),
    ("pubmed.gov/?term=7", "7"),
    ("https://ncbi.nlm.nih.gov/pubmed/?term=7", "7"),
    ("pmid:123456 789", ""),
    ("PMID: 123456,789", ""),
    ("info:pmid/123456/789", ""),
    ("pmid:123456; pmid:789", ""),
    ("https://pubmed.ncbi.nlm.nih.gov/123456-x", "123456"),
    ("http://pubmed.gov/123456.", "123456"),
    ("https://pubmed.ncbi.nlm.nih.gov/123456%20", "123456"),
    ("https://pubmed.ncbi.nlm.nih.gov/123456a", ""),
    ("https://pubmed.ncbi.nlm.nih.gov/123456_7", ""),
    ("https://pubmed.ncbi.nlm.nih.gov/1234567890", ""),
];

const OCLC: [(&str, &str); 38] = [
    ("info:oclcnum/123", "123"),
    ("oclcnum:123", "123"),
    ("OCLC: 123", "123"),
    ("(OCoLC)123", "123"),
    ("(OCoLC)ocm00123", "00123"),
    ("info:oclcnum/ocn123", "123"),
    ("https://www.worldcat.org/oclc/123", "123"),
    ("worldcat.org/oclc/123?x=y", "123"),
    ("oclc:123456789012", "123456789012"),
    ("oclc:1234567890123", ""),
    ("123", ""),
    ("info:pmid/123", ""),
    ("info:lccn/123", ""),
    ("oclc:123456 789", ""),
    ("OCLC: 123456/7", ""),
    ("(OCoLC)123456, 789", ""),
    ("oclc:on1234567890", "1234567890"),
    ("(OCoLC)on1234567890", "1234567890"),
    ("info:oclcnum/on1234567890", "1234567890"),
    ("oclc:(OCoLC)ocn123", "123"),
    ("https://search.worldcat.org/title/123", "123"),
    ("https://example.worldcat.org/oclc/123", "123"),
    ("http://example.on.worldcat.org/oclc/123?lang=en", "123"),
    ("example.worldcat.org/title/a-title/oclc/123", "123"),
    ("https://worldcat.org.example.edu/oclc/123", ""),
    ("https://example.org/oclc/123", ""),
    ("https://www.worldcat.org/title/123/editions", "123"),
    ("https://search.worldcat.org/oclc/123", "123"),
    ("https://www.worldcat.org/title/a-title-2/oclc/123", "123"),
    ("worldcat.org/title/1984/oclc/123?x=y", "123"),
    ("https://www.worldcat.org/title/1984-a-novel", ""),
    ("https://www.worldcat.org/title/a-title/oclc/", ""),
    ("https://www.worldcat.org/oclc/123456-789", ""),
    ("https://www.worldcat.org/oclc/123456 789", ""),
    ("https://www.worldcat.org/title/123456, 789", ""),
    ("info:oclcnum:on1234567890", "1234567890"),
    ("on 1984", ""),
    ("on1984", ""),
];

/// 7654321 and the others are made up.
const PMC: [(&str, &str); 30] = [
    ("PMC7654321", "7654321"),
    ("pmc7654321", "7654321"),
    ("PMC 7654321", "7654321"),
    ("PMC7654321.1", "7654321"),
    ("PMC7654321.1.", "7654321"),
    ("pmcid:PMC7654321", "7654321"),
    ("PMCID: 7654321", "7654321"),
    ("PMCID: PMC7654321", "7654321"),
    ("pmc:7654321", "7654321"),
    ("info:pmcid/PMC123", "123"),
    ("info:pmcid/123", "123"),
    ("info:pmc/PMC123", "123"),
    (
        "https://pmc.ncbi.nlm.nih.gov/articles/PMC7654321/",
        "7654321",
    ),
    (
        "https://www.ncbi.nlm.nih.gov/pmc/articles/PMC7654321/pdf/x.pdf",
        "7654321",
    ),
    ("//ncbi.nlm.nih.gov/pmc/articles/pmc7654321?x=y", "7654321"),
    ("https://europepmc.org/article/PMC/PMC7654321", "7654321"),
    (
        "http://www.europepmc.org/articles/PMC7654321#id1",
        "7654321",
    ),
    ("(PMC7654321)", "7654321"),
    ("PMC123456789", "123456789"),
    ("PMC1234567890", ""),
    ("PMC7654321.1234", ""),
    ("PMC7654321a", ""),
    ("7654321", ""),
    ("pmid:7654321", ""),
    ("https://europepmc.org/article/MED/7654321", ""),
    ("info:doi/10.5555/PMC7654321", ""),
    ("PMC7654321 123", ""),
    ("PMCID: PMC7654321/123", ""),
    ("pmc:7654321,123", ""),
    (
        "https://pmc.ncbi.nlm.nih.gov/articles/PMC7654321.1",
        "7654321",
    ),
];

/// arXiv's own help pages have the forms `2101.00001` and `math.GT/0309136`.
const ARXIV: [(&str, &str); 52] = [
    ("arXiv:2101.00001", "2101.00001"),
    ("arXiv:2101.00001v2", "2101.00001"),
    ("arXiv:0704.0001", "0704.0001"),
    ("arXiv:2101.00001v1 [cs.LG] 3 Jan 2021", "2101.00001"),
    ("arXiv 2101.00001", "2101.00001"),
    ("ARXIV: 2101.00001.", "2101.00001"),
    ("info:arxiv/2101.00001", "2101.00001"),
    ("oai:arXiv.org:2101.00001", "2101.00001"),
    ("arXiv:hep-th/9901001", "hep-th/9901001"),
    ("arXiv:hep-th/9901001v3", "hep-th/9901001"),
    ("arXiv:math.GT/0309136", "math.GT/0309136"),
    ("info:arxiv/cond-mat/9901001", "cond-mat/9901001"),
    ("oai:arXiv.org:solv-int/9901001", "solv-int/9901001"),
    ("https://arxiv.org/abs/2101.00001", "2101.00001"),
    ("http://arxiv.org/abs/2101.00001v4", "2101.00001"),
    ("https://arxiv.org/pdf/2101.00001v4.pdf", "2101.00001"),
    ("https://arxiv.org/pdf/2101.00001.pdf", "2101.00001"),
    ("https://arxiv.org/html/2101.00001v1", "2101.00001"),
    ("https://arxiv.org/abs/2101.00001?context=cs", "2101.00001"),
    (
        "https://www.arxiv.org/abs/math.GT/0309136",
        "math.GT/0309136",
    ),
    (
        "https://export.arxiv.org/abs/hep-th/9901001",
        "hep-th/9901001",
    ),
    ("arxiv.org/pdf/hep-th/9901001v1", "hep-th/9901001"),
    ("info:doi/10.48550/arXiv.2101.00001", "2101.00001"),
    ("https://doi.org/10.48550/arXiv.2101.00001", "2101.00001"),
    ("10.48550/ARXIV.MATH/0309136", "MATH/0309136"),
    ("arXiv:2101.0001", "2101.0001"),
    ("arXiv:2101.001", ""),
    ("arXiv:2101.000001", ""),
    ("arXiv:21010.0001", ""),
    ("arXiv:hep-th/990100", ""),
    ("arXiv:hep-th/99010011", ""),
    ("arXiv:math.GTX/0309136", ""),
    ("arXiv:m/0309136", ""),
    ("2101.00001", ""),
    ("hep-th/9901001", ""),
    ("https://arxiv.org/list/2101.00001", ""),
    ("10.5555/arXiv.2101.00001", ""),
    ("arXiv:2101.00001 12345", ""),
    ("arXiv:2101.00001, 2101.00002", ""),
    ("arXiv:2101.00001/2", ""),
    ("arXiv:2101.00001v2 2101.00003", ""),
    ("arXiv:2101.00001v1234", ""),
    ("arXiv:hep-th/9901001 (1999)", ""),
    ("https://arxiv.org/abs/2101.00001a", ""),
    ("arXiv:2101.00001V2", "2101.00001"),
    ("(arXiv:2101.00001v2)", "2101.00001"),
    ("arXiv:2101.00001 [math.GT]", "2101.00001"),
    ("arXiv:hep-th/9901001v2.", "hep-th/9901001"),
    (
        "https://arxiv.org/pdf/2101.00001v1.PDF#page=2",
        "2101.00001",
    ),
    ("https://arxiv.org/abs/2101.00001/", "2101.00001"),
    (
        "https://arxiv.org/pdf/hep-th/9901001.pdf?download=1",
        "hep-th/9901001",
    ),
    ("\"arXiv:2101.00001v3\"", "2101.00001"),
];

#[test]
fn identifiers_are_found(rt: HostRuntime) -> Result<(), Fail> {
    assert_eq!(rt; first_other(rt.alloc(), Namespace::Doi, &DOIS)?, None);
    assert_eq!(rt; first_other(rt.alloc(), Namespace::Pmid, &PUBMED)?, None);
    assert_eq!(rt; first_other(rt.alloc(), Namespace::Oclc, &OCLC)?, None);
    assert_eq!(rt; first_other(rt.alloc(), Namespace::Pmc, &PMC)?, None);
    assert_eq!(rt; first_other(rt.alloc(), Namespace::Arxiv, &ARXIV)?, None);
    Ok(())
}

/// Whether the URI of an identifier is this.
fn has_uri(
    alloc: Global,
    namespace: Namespace,
    text: &str,
    expected: &str,
) -> Result<bool, AllocError> {
    match identifier_alone(namespace, text.as_bytes()) {
        Some(identifier) => Ok(uri_of(alloc, namespace, identifier)?.as_str() == expected),
        None => Ok(false),
    }
}

/// The identifiers of arXiv, and the URIs of their DOIs.
const PREPRINTS: [(&str, &str); 4] = [
    ("2101.00001", "info:doi/10.48550/arXiv.2101.00001"),
    ("hep-th/9901001", "info:doi/10.48550/arXiv.hep-th/9901001"),
    ("math.GT/0309136", "info:doi/10.48550/arXiv.math/0309136"),
    ("HEP-TH/9901001", "info:doi/10.48550/arXiv.hep-th/9901001"),
];

#[test]
fn preprints_have_the_uris_of_their_dois(rt: HostRuntime) -> Result<(), Fail> {
    for (text, expected) in &PREPRINTS {
        assert!(rt; has_uri(rt.alloc(), Namespace::Arxiv, text, expected)?);
    }
    Ok(())
}

#[test]
fn each_identifier_has_its_uri(rt: HostRuntime) -> Result<(), Fail> {
    let central = "https://pmc.ncbi.nlm.nih.gov/articles/PMC123/";
    assert!(rt;
        has_uri(
            rt.alloc(),
            Namespace::Doi,
            "10.5555/ABC",
            "info:doi/10.5555/ABC"
        )?
    );
    assert!(rt; has_uri(rt.alloc(), Namespace::Pmid, "7", "info:pmid/7")?);
    assert!(rt; has_uri(rt.alloc(), Namespace::Oclc, "00123", "info:oclcnum/00123")?);
    assert!(rt; has_uri(rt.alloc(), Namespace::Pmc, "123", central)?);
    Ok(())
}

/// The addresses have the forms of publishers' pages.
const ADDRESSES: [(&str, &str); 33] = [
    ("https://e.org/doi/10.5555/abc", "10.5555/abc"),
    ("https://e.org/doi/full/10.5555/abc", "10.5555/abc"),
    ("https://e.org/doi/10.5555/abc/full", "10.5555/abc"),
    (
        "https://e.org/doi/pdf/10.5555/abc?download=true",
        "10.5555/abc",
    ),
    ("https://e.org/content/pdf/10.5555/abc.pdf", "10.5555/abc"),
    (
        "https://e.org/content/10.5555/abc.full.pdf+html",
        "10.5555/abc",
    ),
    ("https://e.org/content/10.5555/abc/FULL-TEXT", "10.5555/abc"),
    ("https://e.org/doi/10.5555/abc/abstract#x", "10.5555/abc"),
    ("https://e.org/a?doi=10.5555/abc&x=y", "10.5555/abc"),
    ("https://e.org/a?id=doi:10.5555/abc", "10.5555/abc"),
    ("https://e.org/10.5555/abc.html", "10.5555/abc"),
    ("https://e.org/10.5555/abc/pdf/name.pdf", "10.5555/abc"),
    ("https://e.org/10.5555/abc.pdfs", "10.5555/abc.pdfs"),
    ("https://e.org/10.5555/fullabc", "10.5555/fullabc"),
    ("https://e.org/10.5555/a(b)c/suppl_file/x", "10.5555/a(b)c"),
    ("https://e.org/10.100/x/10.5555/abc", "10.5555/abc"),
    ("https://e.org/10.5555/a/10.5555/b", "10.5555/a/10.5555/b"),
    ("https://e.org/10.5555/abc 10.5555/d", "10.5555/abc"),
    ("https://e.org/10.5555/abc.", "10.5555/abc"),
    ("https://e.org/10.5555/abc\"x", "10.5555/abc"),
    (
        "https://www.biorxiv.org/content/10.1101/2020.01.02.123456v2",
        "10.1101/2020.01.02.123456",
    ),
    (
        "https://www.biorxiv.org/content/10.1101/2020.01.02.123456v2.full.pdf",
        "10.1101/2020.01.02.123456",
    ),
    (
        "https://www.biorxiv.org/content/10.1101/123456",
        "10.1101/123456",
    ),
    ("https://e.org/10.5555/2020v2", "10.5555/2020v2"),
    ("https://e.org/doi/epdfplus/10.5555/abc", "10.5555/abc"),
    ("https://e.org/10.5555/abc/epdfplus", "10.5555/abc"),
    ("https://e.org/10.5555/abc/EpdfPlus?x=y", "10.5555/abc"),
    ("https://e.org/10.5555/full", ""),
    ("https://e.org/10.5555/", ""),
    ("https://e.org/x10.5555/abc", ""),
    ("10.5555/abc", ""),
    ("https://e.org/10.5555%2Fabc", ""),
    ("", ""),
];

/// The first address in which another DOI is found.
fn first_other_address(cases: &[(&'static str, &'static str)]) -> Option<&'static str> {
    for (address, expected) in cases {
        if doi_in_address(address.as_bytes()).unwrap_or(b"") != expected.as_bytes() {
            return Some(*address);
        }
    }
    None
}

#[test]
fn dois_in_addresses_are_found(rt: HostRuntime) -> Result<(), Fail> {
    assert_eq!(rt; first_other_address(&ADDRESSES), None);
    Ok(())
}

/// A DOI of that many bytes.
fn doi(alloc: Global, count: usize) -> Result<String, AllocError> {
    let mut doi = String::from_str(alloc, "10.5555/")?;
    for _ in 8..count {
        doi.push_str("x")?;
    }
    Ok(doi)
}

#[test]
fn an_identifier_has_at_most_500_bytes(rt: HostRuntime) -> Result<(), Fail> {
    for (count, wanted) in [(500, true), (501, false)] {
        let doi = doi(rt.alloc(), count)?;
        let text = doi.as_str();
        assert_eq!(rt; has(rt.alloc(), Namespace::Doi, text, text)?, wanted);
    }
    Ok(())
}

#[test]
fn a_number_may_be_alone_where_its_key_says_so(rt: HostRuntime) -> Result<(), Fail> {
    for (text, wanted) in [
        ("7", true),
        ("(7)", true),
        (" 7.", true),
        ("x7", false),
        ("7 8", false),
        ("7/8", false),
        ("7,8", false),
    ] {
        let found = identifier_alone(Namespace::Pmid, text.as_bytes());
        assert_eq!(rt; found == Some(b"7".as_slice()), wanted);
    }
    Ok(())
}

/// Texts that are ISSNs with a word, and others; 2901-0012 and the others are made up.
const ISSNS: [(&str, bool); 18] = [
    ("urn:ISSN:2901-0012", true),
    ("ISSN 2901-0012", true),
    ("issn:29010012", true),
    ("URN:issn:2943-081X", true),
    ("issn: 2943081x.", true),
    ("(ISSN: 2901-0012)", true),
    ("\"urn:ISSN:2901-0012\"", true),
    ("ISSN2901-0012", true),
    ("2901-0012", false),
    ("ISSN 2901-001", false),
    ("ISSN 2901-00123", false),
    ("ISSN 2901-0012 2901-0039", false),
    ("ISSN 2901-0012 of a journal", false),
    ("urn:ISBN:2901-0012", false),
    ("my ISSN 2901-0012", false),
    ("urn:ISSN:", false),
    ("info:pmid/29010012", false),
    ("", false),
];

/// Texts that are ISBNs with a word, and others.
const ISBNS: [(&str, bool); 16] = [
    ("urn:ISBN:9780306406157", true),
    ("ISBN 978-0-306-40615-7", true),
    ("ISBN: 0306406152", true),
    ("isbn:0-8044-2957-x", true),
    ("ISBN-13: 978-0-306-40615-7", true),
    ("ISBN-10: 0-306-40615-2", true),
    ("isbn-13 9780306406157.", true),
    ("[ISBN 0306406152]", true),
    ("9780306406157", false),
    ("ISBN 030640615", false),
    ("ISBN 97803064061571", false),
    ("ISBN 0306406152-0306406152", false),
    ("ISBN 0306406152 (cloth)", false),
    ("urn:ISSN:9780306406157", false),
    ("urn:ISBN:", false),
    ("", false),
];

/// Texts that are numbers without a word, and others.
const ALONE: [(StandardNumber, &str, bool); 12] = [
    (StandardNumber::Issn, "2901-0012", true),
    (StandardNumber::Issn, "2943-081x", true),
    (StandardNumber::Issn, " (2901-0012) ", true),
    (StandardNumber::Issn, "29010012", false),
    (StandardNumber::Issn, "290-10012", false),
    (StandardNumber::Issn, "2901-0012 1", false),
    (StandardNumber::Isbn, "9780306406157", true),
    (StandardNumber::Isbn, "978-0-306-40615-7", true),
    (StandardNumber::Isbn, "030640615X", true),
    (StandardNumber::Isbn, "030640615", false),
    (StandardNumber::Isbn, "97803064061570", false),
    (StandardNumber::Isbn, "ISBN 9780306406157", false),
];

#[test]
fn numbers_with_a_word_are_identifiers(rt: HostRuntime) -> Result<(), Fail> {
    for (text, wanted) in &ISSNS {
        assert_eq!(rt;
            is_number_named(StandardNumber::Issn, text.as_bytes()),
            *wanted
        );
    }
    for (text, wanted) in &ISBNS {
        assert_eq!(rt;
            is_number_named(StandardNumber::Isbn, text.as_bytes()),
            *wanted
        );
    }
    Ok(())
}

#[test]
fn numbers_alone_have_their_form(rt: HostRuntime) -> Result<(), Fail> {
    for (number, text, wanted) in &ALONE {
        assert_eq!(rt; is_number_alone(*number, text.as_bytes()), *wanted);
    }
    Ok(())
}
