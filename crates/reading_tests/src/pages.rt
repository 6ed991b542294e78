//! Pages in texts.

use article_places::pages_in;
use std::alloc::{AllocError, Global};
use std::test::Fail;

/// The pages in a text, as `first|last`; empty if it has none.
fn pages(alloc: Global, text: &str) -> Result<String, AllocError> {
    let Some(found) = pages_in(alloc, text.as_bytes())? else {
        return Ok(String::new(alloc));
    };
    let mut pages = String::from_utf8_lossy(alloc, found.first)?;
    pages.push_str("|")?;
    if let Some(last) = found.last {
        let shared = String::from_utf8_lossy(alloc, last.shared)?;
        let written = String::from_utf8_lossy(alloc, last.written)?;
        pages.push_str(shared.as_str())?;
        pages.push_str(written.as_str())?;
    }
    Ok(pages)
}

/// The first text in which other pages are found.
fn first_other(
    alloc: Global,
    cases: &[(&'static str, &'static str)],
) -> Result<Option<&'static str>, AllocError> {
    for (text, expected) in cases {
        let found = pages(alloc, text)?;
        if found.as_str() != *expected {
            return Ok(Some(*text));
        }
    }
    Ok(None)
}

const FIRST_PAGES: [(&str, &str); 42] = [
    ("45", "45|"),
    ("0045", "0045|"),
    ("p45", "45|"),
    ("p. 45", "45|"),
    ("Page 45", "45|"),
    ("Seite 45", "45|"),
    ("S. 45", "45|"),
    ("S.45", "45|"),
    ("pg. 45", "45|"),
    ("45ff", "45|"),
    ("45f.", "45|"),
    ("45 ff.", "45|"),
    ("45+", "45|"),
    ("45.", "45|"),
    ("[45]", "45|"),
    ("\"45\"", "45|"),
    ("45, 67-70", "45|"),
    ("45 & 67", "45|"),
    ("45; discussion 68", "45|"),
    ("45 p.", "45|"),
    ("45a", "45a|"),
    ("45A-B", "45A|"),
    ("45abc", "45|"),
    ("45.e1", "45.e1|"),
    ("45.5", "45.5|"),
    ("e45", "e45|"),
    ("e1234", "e1234|"),
    ("S45", "S45|"),
    ("S. S45", "S45|"),
    ("CD004567", "CD004567|"),
    ("L03605", "L03605|"),
    ("xii", "xii|"),
    ("XII", "XII|"),
    ("p. iv", "iv|"),
    ("xii, 45 p.", "xii|"),
    ("mild", "mild|"),
    ("see page 45", "45|"),
    ("see pages 45-67", "45|"),
    ("45-3", "45|"),
    ("45-44", "45|"),
    ("1045-5", "1045|"),
    ("45-", "45|"),
];

const RANGES: [(&str, &str); 28] = [
    ("45-67", "45|67"),
    ("45 - 67", "45|67"),
    ("45--67", "45|67"),
    ("pp. 45-67", "45|67"),
    ("pp.45-67", "45|67"),
    ("pp45-67", "45|67"),
    ("Pages: 45-67", "45|67"),
    ("S. 45-67", "45|67"),
    ("(45-67)", "45|67"),
    ("pp. 45-p. 67", "45|67"),
    ("45-67, 70", "45|67"),
    ("45-45", "45|45"),
    ("99-101", "99|101"),
    ("1045-1049", "1045|1049"),
    ("1045-9", "1045|1049"),
    ("1045-49", "1045|1049"),
    ("1099-101", "1099|1101"),
    ("101-17", "101|117"),
    ("2344-55", "2344|2355"),
    ("e45-e67", "e45|e67"),
    ("S45-S50", "S45|S50"),
    ("S45-50", "S45|S50"),
    ("S45-9", "S45|S49"),
    ("S145-S9", "S145|S149"),
    ("S45-T50", "S45|T50"),
    ("A1-A12", "A1|A12"),
    ("45.e1-45.e5", "45.e1|45.e5"),
    ("xii-xx", "xii|xx"),
];

const RANGES_WITH_A_WORD: [(&str, &str); 13] = [
    ("101 to 118", "101|118"),
    ("101 TO 118", "101|118"),
    ("101 bis 118", "101|118"),
    ("pp. 101 to 118", "101|118"),
    ("S. 101 bis S. 118", "101|118"),
    ("101 to 18", "101|118"),
    ("e101 to e118", "e101|e118"),
    ("xii to xx", "xii|xx"),
    ("101 to 118, 120-125", "101|118"),
    ("118 to 101", "118|"),
    ("101 and 118", "101|"),
    ("see to 118", "118|"),
    ("101 to", "101|"),
];

const MIXED: [(&str, &str); 3] = [("xii-45", "xii|45"), ("C-12", ""), ("45-e67", "45|e67")];

/// Numbers of articles, which a source may send in place of pages.
const ARTICLES: [(&str, &str); 8] = [
    ("Article 45", "45|"),
    ("Art. e45", "e45|"),
    ("ARTN 1045", "1045|"),
    ("article no. 1045", "1045|"),
    ("#45", "45|"),
    ("paper #45", "45|"),
    ("UNSP 1045", "1045|"),
    ("10.1", "10.1|"),
];

const NONE: [(&str, &str); 15] = [
    ("", ""),
    ("-", ""),
    ("n/a", ""),
    ("n.pag", ""),
    ("all", ""),
    ("pp.", ""),
    ("p.", ""),
    ("xiiz", ""),
    ("see xii", ""),
    ("last", ""),
    ("A-12", ""),
    ("-45", ""),
    ("Suppl45", ""),
    (".p45", ""),
    ("c.45", ""),
];

#[test]
fn pages_are_found(rt: HostRuntime) -> Result<(), Fail> {
    assert_eq!(rt; first_other(rt.alloc(), &FIRST_PAGES)?, None);
    assert_eq!(rt; first_other(rt.alloc(), &RANGES)?, None);
    assert_eq!(rt; first_other(rt.alloc(), &RANGES_WITH_A_WORD)?, None);
    assert_eq!(rt; first_other(rt.alloc(), &MIXED)?, None);
    assert_eq!(rt; first_other(rt.alloc(), &ARTICLES)?, None);
    assert_eq!(rt; first_other(rt.alloc(), &NONE)?, None);
    Ok(())
}
