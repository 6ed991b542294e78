//! ISSNs in texts.

use standard_numbers::issns_in;
use std::alloc::{AllocError, Global};
use std::test::Fail;

/// The ISSNs in a text, each with a space after it.
fn issns(alloc: Global, text: &str) -> Result<String, AllocError> {
    let mut all = String::new(alloc);
    for issn in &issns_in(alloc, text.as_bytes())? {
        all.push_str(issn.as_str())?;
        all.push_str(" ")?;
    }
    Ok(all)
}

/// ISO 3297 has 0317-8471, 1050-124X and 2049-3630; 0378-5954 has a wrong check digit.
const ISSNS: [(&str, &str); 24] = [
    ("", ""),
    ("0317-8471", "0317-8471 "),
    ("1050-124x", "1050-124X "),
    ("20493630", "2049-3630 "),
    ("2049 3630", "2049-3630 "),
    ("ISSN 2049-3630 (online)", "2049-3630 "),
    ("urn:ISSN:2049-3630", "2049-3630 "),
    ("a2049-3630b", "2049-3630 "),
    ("20493630, 03178471", "2049-3630 0317-8471 "),
    ("2049 3630 0317 8471", "2049-3630 0317-8471 "),
    ("2049-3630\t2049-3630", "2049-3630 2049-3630 "),
    ("0378-5954", "0378-5954 "),
    ("0378-5954 0378-5955", "0378-5955 0378-5954 "),
    ("12049-3630", ""),
    ("-2049-3630", ""),
    ("2049-36301", ""),
    ("2049-3630-1", ""),
    ("2049--3630", ""),
    ("204-93630", ""),
    ("2049-363", ""),
    ("2049-36X0", ""),
    ("9781234560102", ""),
    ("978-3-1234-5678-9", ""),
    ("\u{a0}2049-3630\u{a0}", "2049-3630 "),
];

#[test]
fn issns_are_found(rt: HostRuntime) -> Result<(), Fail> {
    for (text, expected) in ISSNS {
        let found = issns(rt.alloc(), text)?;
        assert_eq!(rt; found.as_str(), expected);
    }
    Ok(())
}

/// A span of years is an ISSN only if the text says so, or if its check digit is right, as that of 1991-2013.
const YEARS: [(&str, &str); 16] = [
    ("2013-2014", ""),
    ("2013 2014", ""),
    ("Winter 2013-2014", ""),
    ("1400-2099", ""),
    ("eIssn 2013-2014", "2013-2014 "),
    ("2013-2014 (issn)", "2013-2014 "),
    ("2013-2014 2049-3630", "2049-3630 "),
    ("1991-2013", "1991-2013 "),
    ("2013-2012", "2013-2012 "),
    ("1399-2014", "1399-2014 "),
    ("2013-2100", "2013-2100 "),
    ("2013-201X", "2013-201X "),
    ("0000-0000", ""),
    ("ISSN 0000-0000", ""),
    ("00000000 2049-3630", "2049-3630 "),
    ("0000-0001", "0000-0001 "),
];

#[test]
fn years_are_no_issns(rt: HostRuntime) -> Result<(), Fail> {
    for (text, expected) in YEARS {
        let found = issns(rt.alloc(), text)?;
        assert_eq!(rt; found.as_str(), expected);
    }
    Ok(())
}
