//! Queries as sources send them, in UTF-8.

use source_queries::source_query;
use std::alloc::{AllocError, Global};
use std::test::Fail;

/// The number of the first query that becomes another one.
fn first_other(
    alloc: Global,
    cases: &[(&'static [u8], &'static [u8])],
) -> Result<Option<usize>, AllocError> {
    for (number, (query, expected)) in cases.iter().enumerate() {
        if source_query(alloc, query)?.as_slice() != *expected {
            return Ok(Some(number));
        }
    }
    Ok(None)
}

const UTF8: [&[u8]; 9] = [
    b"",
    b"&&",
    b"rft.volume=3&&nolinks&=x",
    b"rft.atitle=Caf%C3%A9+100%&rft.aulast=O%27Neill",
    b"rft.atitle=Caf%c3%a9",
    b"rft.atitle=Caf\xc3\xa9&t%c3%afde=1",
    b"ctx_enc=info:ofi/enc:UTF-8&rft.atitle=%E6%B5%B7",
    b"rft.atitle=a&CTX_ENC=utf8&ctx_enc=latin1",
    b"ctx%5Fenc=latin1&rft.atitle=a",
];

#[test]
fn utf8_stays(rt: HostRuntime) -> Result<(), Fail> {
    for query in UTF8 {
        let text = source_query(rt.alloc(), query)?;
        assert!(rt; text.as_slice() == query);
    }
    Ok(())
}

/// Characters are those of the indexes of the WHATWG Encoding Standard.
const OTHERS: [(&[u8], &[u8]); 13] = [
    (
        b"rft.atitle=Caf%E9&rft.jtitle=%C3%A9",
        b"rft.atitle=Caf%C3%A9&rft.jtitle=%C3%A9",
    ),
    (b"title=Mar\xe9e", b"title=Mar%C3%A9e"),
    (b"title=%E9+%96", b"title=%C3%A9+%E2%80%93"),
    (b"title=%E9%26%3D%25+a/b", b"title=%C3%A9%26%3D%25+a%2Fb"),
    (b"%E9t%E9=1&a=%7E", b"%C3%A9t%C3%A9=1&a=%7E"),
    (b"a=%E9%C3%A9", b"a=%C3%A9%C3%83%C2%A9"),
    (b"&&a=b=%FC&&nolinks&=x", b"a=b%3D%C3%BC&nolinks=&=x"),
    (b"\x80", b"%E2%82%AC="),
    (
        b"ctx_enc=info:ofi/enc:ISO-8859-1&rft_val_fmt=x&rft.atitle=Caf%E9+%96",
        b"ctx_enc=info%3Aofi%2Fenc%3AUTF-8&rft_val_fmt=x&rft.atitle=Caf%C3%A9+%E2%80%93",
    ),
    (
        b"ctx_enc=info%3Aofi%2Fenc%3AISO-8859-1&rft.atitle=Cafe",
        b"ctx_enc=info%3Aofi%2Fenc%3AUTF-8&rft.atitle=Cafe",
    ),
    (
        b"rft.atitle=%C3%A9&CTX_ENC=windows-1252&ctx%5Fenc=koi8-r",
        b"rft.atitle=%C3%83%C2%A9&CTX_ENC=info%3Aofi%2Fenc%3AUTF-8&ctx_enc=info%3Aofi%2Fenc%3AUTF-8",
    ),
    (
        b"ctx_enc=KOI8-R&rft.atitle=%ED%CF%D2%C5",
        b"ctx_enc=info%3Aofi%2Fenc%3AUTF-8&rft.atitle=%D0%9C%D0%BE%D1%80%D0%B5",
    ),
    (
        b"ctx_enc=Shift_JIS&rft.atitle=%8AC%97m&rft.volume=3",
        b"ctx_enc=info%3Aofi%2Fenc%3AUTF-8&rft.atitle=&rft.volume=3",
    ),
];

#[test]
fn other_encodings_are_read(rt: HostRuntime) -> Result<(), Fail> {
    assert_eq!(rt; first_other(rt.alloc(), &OTHERS)?, None);
    Ok(())
}

/// Repaired before they are read.
const DAMAGED: [(&[u8], &[u8]); 6] = [
    (
        b"?sid=google&amp;title=Harbour+&+Coast&volume=3",
        b"sid=google&title=Harbour+%26+Coast&volume=3",
    ),
    (
        b"?ctx_enc=latin1&amp;title=Caf%E9",
        b"ctx_enc=info%3Aofi%2Fenc%3AUTF-8&title=Caf%C3%A9",
    ),
    (
        b"title=Caf%E9;ctx_enc=latin1;volume=3",
        b"title=Caf%C3%A9&ctx_enc=info%3Aofi%2Fenc%3AUTF-8&volume=3",
    ),
    (
        b"inst=lib?ctx_enc=latin2&title=%B1",
        b"inst=lib&ctx_enc=info%3Aofi%2Fenc%3AUTF-8&title=%C4%85",
    ),
    (
        b"title=Caf%E9+&+Bar&amp;c=1",
        b"title=Caf%C3%A9+%26+Bar&c=1",
    ),
    (b"title=Caf&eacute;%E9", b"title=Caf%26eacute%3B%C3%A9"),
];

#[test]
fn damaged_queries_are_repaired_first(rt: HostRuntime) -> Result<(), Fail> {
    assert_eq!(rt; first_other(rt.alloc(), &DAMAGED)?, None);
    Ok(())
}
