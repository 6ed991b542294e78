//! Queries as sources send them, repaired.

use query_repair::repaired;
use std::alloc::{AllocError, Global};
use std::test::Fail;

/// The first query that is repaired to another one.
fn first_other(
    alloc: Global,
    cases: &[(&'static str, &'static str)],
) -> Result<Option<&'static str>, AllocError> {
    for (query, expected) in cases {
        if repaired(alloc, query.as_bytes())?.as_slice() != expected.as_bytes() {
            return Ok(Some(*query));
        }
    }
    Ok(None)
}

const MARKS: [(&str, &str); 14] = [
    ("", ""),
    ("&&&", "&&&"),
    ("?id=pmid:7&rft_val_fmt=x", "id=pmid:7&rft_val_fmt=x"),
    ("??rft_val_fmt=x&rft.volume=3", "rft_val_fmt=x&rft.volume=3"),
    ("issn=2901-0012&?volume=3", "issn=2901-0012&volume=3"),
    (
        "sid=google&amp;issn=2901-0012&amp;volume=3",
        "sid=google&issn=2901-0012&volume=3",
    ),
    (
        "rft_val_fmt=x&amp;amp;rft.volume=3",
        "rft_val_fmt=x&rft.volume=3",
    ),
    ("issn=2901-0012&AMP;volume=3", "issn=2901-0012&volume=3"),
    ("?amp;issn=2901-0012&volume=3", "issn=2901-0012&volume=3"),
    ("issn=2901-0012&amp;spage", "issn=2901-0012&spage"),
    ("issn=2901-0012&?", "issn=2901-0012&?"),
    ("?%69ssn=2901-0012", "?%69ssn=2901-0012"),
    (
        "rft_val_fmt=x&rft_id=https://e.org/?id=7&rft.atitle=Why?",
        "rft_val_fmt=x&rft_id=https://e.org/?id=7&rft.atitle=Why?",
    ),
    ("rft.atitle=Why?title=x", "rft.atitle=Why?title=x"),
];

const BASES: [(&str, &str); 7] = [
    (
        "inst=lib?rft_val_fmt=x&rft.volume=3",
        "inst=lib&rft_val_fmt=x&rft.volume=3",
    ),
    (
        "inst=lib&site=main?ISSN=2901-0012",
        "inst=lib&site=main&ISSN=2901-0012",
    ),
    ("inst=lib??genre=article", "inst=lib&genre=article"),
    ("inst=lib?&amp;genre=article", "inst=lib?&genre=article"),
    ("inst=a/b?issn=2901-0012", "inst=a/b?issn=2901-0012"),
    ("inst=lib?other=1", "inst=lib?other=1"),
    ("inst=lib?issn", "inst=lib?issn"),
];

const SEMICOLONS: [(&str, &str); 6] = [
    (
        "rft_val_fmt=x;rft.volume=3;rft.atitle=a;b",
        "rft_val_fmt=x&rft.volume=3&rft.atitle=a;b",
    ),
    (
        "rft_val_fmt=x&rft.atitle=a;b=c",
        "rft_val_fmt=x&rft.atitle=a;b=c",
    ),
    (
        "inst=lib?issn=2901-0012;volume=3",
        "inst=lib&issn=2901-0012&volume=3",
    ),
    ("title=R&amp;D;volume=3", "title=R%26amp;D&volume=3"),
    (
        "title=Harbour+&+Coast;volume=3",
        "title=Harbour+%26+Coast&volume=3",
    ),
    ("title=a;b;c", "title=a;b;c"),
];

const SPLIT_VALUES: [(&str, &str); 13] = [
    (
        "rft_val_fmt=x&rft.jtitle=Harbour+&+Coastal+Engineering&rft.volume=3",
        "rft_val_fmt=x&rft.jtitle=Harbour+%26+Coastal+Engineering&rft.volume=3",
    ),
    (
        "rft_val_fmt=x&rft.atitle=Silt%20&%20sand%20&%20tar",
        "rft_val_fmt=x&rft.atitle=Silt%20%26%20sand%20%26%20tar",
    ),
    ("AU=Berg+&+Moreau", "AU=Berg+%26+Moreau"),
    (
        "rft.spage=101&noredirect&rft.volume=3",
        "rft.spage=101&noredirect&rft.volume=3",
    ),
    ("rft.spage=101&no+redirect", "rft.spage=101&no+redirect"),
    ("title=Silt&no+redirect=1", "title=Silt&no+redirect=1"),
    ("title=Silt&noredirect", "title=Silt&noredirect"),
    (
        "rft.jtitle=R&amp;D+Management&rft.atitle=Caf&eacute;s&rft.volume=3",
        "rft.jtitle=R%26amp;D+Management&rft.atitle=Caf%26eacute;s&rft.volume=3",
    ),
    (
        "rft.btitle=&lt;i&gt;Zostera&lt;/i&gt;",
        "rft.btitle=%26lt;i%26gt;Zostera%26lt;/i%26gt;",
    ),
    (
        "rft.aulast=O&#39;Neill&#x41;",
        "rft.aulast=O%26#39;Neill%26#x41;",
    ),
    ("publisher=A&amp;B", "publisher=A%26amp;B"),
    ("flag&amp;B", "flag&amp;B"),
    ("title=A&a;B&abcdefghijk;C", "title=A&a;B&abcdefghijk;C"),
];

#[test]
fn marks_go(rt: HostRuntime) -> Result<(), Fail> {
    assert_eq!(rt; first_other(rt.alloc(), &MARKS)?, None);
    Ok(())
}

#[test]
fn base_urls_end(rt: HostRuntime) -> Result<(), Fail> {
    assert_eq!(rt; first_other(rt.alloc(), &BASES)?, None);
    Ok(())
}

#[test]
fn semicolons_separate(rt: HostRuntime) -> Result<(), Fail> {
    assert_eq!(rt; first_other(rt.alloc(), &SEMICOLONS)?, None);
    Ok(())
}

#[test]
fn values_are_joined(rt: HostRuntime) -> Result<(), Fail> {
    assert_eq!(rt; first_other(rt.alloc(), &SPLIT_VALUES)?, None);
    Ok(())
}
