//! Encodings that sources declare, and bytes in them.

use request_encodings::{ByteEncoding, Encoding, declared_in, is_utf8_value, text_in, value_in};
use std::alloc::{AllocError, Global};
use std::test::Fail;

/// Whether the query, whose encoding is declared in it, gives this text.
fn has(alloc: Global, query: &str, bytes: &[u8], expected: &str) -> Result<bool, AllocError> {
    let encoding = declared_in(alloc, query.as_bytes())?;
    let text = text_in(alloc, encoding, bytes)?;
    Ok(text.as_str() == expected)
}

/// The first query of which another text is read.
fn first_other(
    alloc: Global,
    cases: &[(&'static str, &'static [u8], &'static str)],
) -> Result<Option<&'static str>, AllocError> {
    for (query, bytes, expected) in cases {
        if !has(alloc, query, bytes, expected)? {
            return Ok(Some(*query));
        }
    }
    Ok(None)
}

/// Bytes and characters are those of the indexes of the WHATWG Encoding Standard.
const ENCODINGS: [(&str, &[u8], &str); 28] = [
    ("ctx_enc=windows-1250", b"\x4c\xf3d\x9f", "L\u{f3}d\u{17a}"),
    ("ctx_enc=cp1250", b"\x8at\xed", "\u{160}t\u{ed}"),
    (
        "ctx_enc=windows-1251",
        b"\xcc\xee\xf0\xe5",
        "\u{41c}\u{43e}\u{440}\u{435}",
    ),
    (
        "ctx_enc=windows-1252",
        b"\x93Caf\xe9\x94",
        "\u{201c}Caf\u{e9}\u{201d}",
    ),
    (
        "ctx_enc=info:ofi/enc:ISO-8859-1",
        b"Caf\xe9 \x96",
        "Caf\u{e9} \u{2013}",
    ),
    (
        "ctx_enc=info%3Aofi%2Fenc%3AISO-8859-1",
        b"Caf\xe9",
        "Caf\u{e9}",
    ),
    (
        "ctx_enc=latin1",
        b"\x80\x9f\xa0\xff",
        "\u{20ac}\u{178}\u{a0}\u{ff}",
    ),
    (
        "ctx_enc=Latin-1",
        b"\x81\x8d\x8f\x90\x9d\xad",
        "\u{81}\u{8d}\u{8f}\u{90}\u{9d}\u{ad}",
    ),
    (
        "ctx_enc=ISO-8859-2",
        b"\xa3\xf3d\xbc",
        "\u{141}\u{f3}d\u{17a}",
    ),
    ("ctx_enc=latin2", b"\x80\xa1\xff", "\u{80}\u{104}\u{2d9}"),
    (
        "ctx_enc=iso_8859_5",
        b"\xbc\xde\xe0\xd5",
        "\u{41c}\u{43e}\u{440}\u{435}",
    ),
    ("ctx_enc=ISO-8859-15", b"5 \xa4", "5 \u{20ac}"),
    ("ctx_enc=Latin-9", b"\xbd", "\u{153}"),
    (
        "ctx_enc=KOI8-R",
        b"\xed\xcf\xd2\xc5",
        "\u{41c}\u{43e}\u{440}\u{435}",
    ),
    ("ctx_enc=koi8r", b"\x80\x9a\xff", "\u{2500}\u{a0}\u{42a}"),
    ("rft.volume=3", b"Caf\xe9", "Caf\u{e9}"),
    ("rft.volume=3", b"\xc3\xa9", "\u{e9}"),
    ("", b"\xe6\xb5\xb7", "\u{6d77}"),
    ("ctx_enc=info:ofi/enc:UTF-8", b"Caf\xc3\xa9", "Caf\u{e9}"),
    ("ctx_enc=utf8", b"\x80", "\u{20ac}"),
    ("ctx_enc=US-ASCII", b"\xc3\xa9", "\u{e9}"),
    ("ctx_enc=", b"\xc3\xa9", "\u{e9}"),
    ("ctx_enc=info:ofi/enc:&rft.volume=3", b"\xc3\xa9", "\u{e9}"),
    (
        "rft.volume=3&CTX_ENC=cp1252&ctx_enc=utf-8",
        b"\xc3\xa9",
        "\u{c3}\u{a9}",
    ),
    ("ctx_enc=info:ofi/enc:Shift_JIS", b"\x8aC\x97m", ""),
    ("ctx_enc=EUC-KR", b"Sea ", "Sea "),
    ("ctx_enc=GB2312", b"\xe6\xb5\xb7", "\u{6d77}"),
    ("my_ctx_enc=KOI8-R", b"\xe9", "\u{e9}"),
];

#[test]
fn texts_are_read_in_their_encoding(rt: HostRuntime) -> Result<(), Fail> {
    assert_eq!(rt; first_other(rt.alloc(), &ENCODINGS)?, None);
    Ok(())
}

#[test]
fn ascii_is_the_same_in_an_unknown_encoding(rt: HostRuntime) -> Result<(), Fail> {
    let text = text_in(rt.alloc(), Encoding::Unknown, b"a\x7f")?;
    assert!(rt; text.as_str() == "a\u{7f}");
    Ok(())
}

/// The first value that is read as another text.
fn first_other_value(
    alloc: Global,
    cases: &[(Encoding, &'static str, &'static str)],
) -> Result<Option<&'static str>, AllocError> {
    for (encoding, value, expected) in cases {
        if value_in(alloc, *encoding, value.as_bytes())?.as_str() != *expected {
            return Ok(Some(*value));
        }
    }
    Ok(None)
}

const VALUES: [(Encoding, &str, &str); 8] = [
    (Encoding::Utf8, "", ""),
    (Encoding::Utf8, "R%26D+%2B", "R&D +"),
    (Encoding::Utf8, "Caf%C3%A9", "Caf\u{e9}"),
    (Encoding::Utf8, "Caf%E9+100%", "Caf\u{e9} 100%"),
    (Encoding::Utf8, "%%4x%e9", "%%4x\u{e9}"),
    (
        Encoding::Bytes(ByteEncoding::Windows1252),
        "Caf%E9+%96",
        "Caf\u{e9} \u{2013}",
    ),
    (
        Encoding::Bytes(ByteEncoding::Iso8859_15),
        "5+%A4",
        "5 \u{20ac}",
    ),
    (Encoding::Unknown, "Sea%20", "Sea "),
];

/// Values, and whether they are UTF-8.
const UTF8_VALUES: [(&[u8], bool); 8] = [
    (b"", true),
    (b"100%+of+it", true),
    (b"Caf%C3%A9", true),
    (b"Caf\xc3\xa9", true),
    (b"Caf%E9", false),
    (b"Caf\xe9", false),
    (b"%C3", false),
    (b"%ED%A0%80", false),
];

#[test]
fn values_are_utf8_or_not(rt: HostRuntime) -> Result<(), Fail> {
    for (value, expected) in UTF8_VALUES {
        assert!(rt; is_utf8_value(rt.alloc(), value)? == expected);
    }
    Ok(())
}

#[test]
fn values_are_decoded(rt: HostRuntime) -> Result<(), Fail> {
    assert_eq!(rt; first_other_value(rt.alloc(), &VALUES)?, None);
    Ok(())
}
