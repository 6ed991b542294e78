//! Remarks that an article was retracted, before and after titles.

use retraction_remarks::without_remarks;
use std::alloc::{AllocError, Global};
use std::test::Fail;

/// The first title of which something else is left.
fn first_other(cases: &[(&'static str, &'static str)]) -> Option<&'static str> {
    for (title, left) in cases {
        if without_remarks(title.as_bytes()) != left.as_bytes() {
            return Some(*title);
        }
    }
    None
}

/// As Elsevier, Springer, Hindawi, Web of Science, PubMed and others write them.
const BEFORE: [(&str, &str); 27] = [
    ("RETRACTED: Storm surges", "Storm surges"),
    ("RETRACTED ARTICLE: Storm surges", "Storm surges"),
    ("[Retracted] Storm surges", "Storm surges"),
    ("[RETRACTED: Storm surges]", "Storm surges"),
    ("[RETRACTED: Storm surges].", "Storm surges"),
    ("[RETRACTED: Silt [in Dutch]]", "Silt [in Dutch]"),
    ("[Retracted article - Silt", "Silt"),
    ("RETRACTED: Silt", "Silt"),
    ("Retracted article: Silt", "Silt"),
    ("Retracted article - Silt", "Silt"),
    ("RETRACTED CHAPTER: Silt", "Silt"),
    ("RETRACTED PAPER: Silt", "Silt"),
    ("Retracted publication: Silt", "Silt"),
    ("Retracted study: Silt", "Silt"),
    ("Retracted version: Silt", "Silt"),
    ("Retracted manuscript: Silt", "Silt"),
    ("Retracted conference paper: Silt", "Silt"),
    ("Retracted book: Silt", "Silt"),
    ("Retracted \u{2013} Silt", "Silt"),
    ("retracted \u{2014} Silt", "Silt"),
    ("[Retracted] Silt", "Silt"),
    ("[Retracted]: Silt", "Silt"),
    ("*RETRACTED* Silt", "Silt"),
    ("(Retracted paper ) Silt", "Silt"),
    ("[This paper was retracted] Silt", "Silt"),
    ("[This paper has been retracted] Silt", "Silt"),
    ("   [ This article is retracted].   Silt", "Silt"),
];

const AFTER: [(&str, &str); 22] = [
    (
        "Storm surges (Retracted article. See vol. 18, pg. 344, 2015)",
        "Storm surges",
    ),
    (
        "Silt (Retracted article. See vol. 18, pg. 344, 2015)",
        "Silt",
    ),
    ("Storm surges [RETRACTED]", "Storm surges"),
    ("Silt (Retracted in 2015)", "Silt"),
    ("Silt (Retracted 2015)", "Silt"),
    ("Silt (Retracted 2015).", "Silt"),
    ("Silt (Retracted, see p. 3 (2015))", "Silt"),
    ("Silt (Retracted paper; Silt \u{2013} a \u{e9})", "Silt"),
    ("Silt (Retracted by the editors)", "Silt"),
    ("Silt (retracted due to errors)", "Silt"),
    ("Silt (Retracted on 3 May)", "Silt"),
    ("Silt (Retracted see p. 3)", "Silt"),
    ("Silt (Retracted \u{2014} see p. 3)", "Silt"),
    ("Silt *Retracted*", "Silt"),
    ("Silt [This article has been retracted]", "Silt"),
    ("Silt(retracted)", "Silt"),
    ("Silt - RETRACTED", "Silt"),
    ("Silt - RETRACTED ARTICLE", "Silt"),
    ("Silt. RETRACTED PAPER", "Silt"),
    ("Silt. RETRACTED PAPER. ", "Silt"),
    ("Silt \u{2013} RETRACTED", "Silt"),
    ("S\u{e9}diment\u{2014}RETRACTED", "S\u{e9}diment"),
];

const BOTH: [(&str, &str); 5] = [
    ("Retracted: Silt (Retracted)", "Silt"),
    ("RETRACTED: RETRACTED ARTICLE: Silt", "Silt"),
    (
        "RETRACTED: [Retracted] Silt [Retracted] - RETRACTED",
        "Silt",
    ),
    ("[RETRACTED: Silt (Retracted)]", "Silt"),
    ("[Retracted] (Retracted)", "(Retracted)"),
];

#[test]
fn remarks_go(rt: HostRuntime) {
    assert_eq!(rt; first_other(&BEFORE), None);
    assert_eq!(rt; first_other(&AFTER), None);
    assert_eq!(rt; first_other(&BOTH), None);
}

/// Notices of retractions, articles about retractions, and remarks without a title.
const OTHERS: [&str; 35] = [
    "",
    " ",
    "Silt",
    "Retraction: Silt",
    "Retraction of: Silt",
    "Retraction of: Storm surges",
    "Retraction notice to Silt",
    "Retraction notice to \"Storm surges\"",
    "Retraction Note: Silt",
    "Silt (Retraction of vol 12, pg 3, 2013)",
    "Storm surges (Retraction of vol 12, pg 3, 2013)",
    "Retracted articles: a review",
    "Retracted articles : a review",
    "Why articles are retracted",
    "Why articles are - retracted",
    "Silt (retracted testimony)",
    "Silt (retracted 201)",
    "Silt (retracted 20155)",
    "Silt (retracted 2015 testimony)",
    "Silt (retracted. A story",
    "Silt (retracted) and sand",
    "Silt (retracted [twice])",
    "Silt (retracted, [twice])",
    "Silt - Retracted",
    "Silt RETRACTED",
    "Silt - RETRACTED BOOK",
    "Retracted and republished: Silt",
    "Retracted-Silt",
    "Retracted Silt",
    "[Retracted Silt",
    "(Retracted: Silt)",
    "[Retracted]",
    "RETRACTED: ",
    "[RETRACTED: ]",
    " - RETRACTED",
];

#[test]
fn other_titles_stay(rt: HostRuntime) {
    for title in OTHERS {
        assert!(rt;
            without_remarks(title.as_bytes()) == title.as_bytes(),
            "{title}"
        );
    }
}

/// A title with a note of that many bytes from its first one to the end.
fn noted(alloc: Global, count: usize) -> Result<String, AllocError> {
    let mut title = String::from_str(alloc, "Silt (Retracted.")?;
    for _ in 1..count {
        title.push_str("x")?;
    }
    title.push_str(")")?;
    Ok(title)
}

#[test]
fn a_note_has_at_most_150_bytes(rt: HostRuntime) -> Result<(), Fail> {
    for (count, wanted) in [(150, true), (151, false)] {
        let title = noted(rt.alloc(), count)?;
        let left = without_remarks(title.as_str().as_bytes());
        assert_eq!(rt; left == b"Silt".as_slice(), wanted);
    }
    Ok(())
}

/// A title with a remark of that many bytes, 53 of them before its note.
fn remarked(alloc: Global, count: usize) -> Result<String, AllocError> {
    let remark = "Silt   [This article has been retracted conference paper.";
    let mut title = String::from_str(alloc, remark)?;
    for _ in 54..count {
        title.push_str("x")?;
    }
    title.push_str("]")?;
    Ok(title)
}

#[test]
fn a_remark_has_at_most_200_bytes(rt: HostRuntime) -> Result<(), Fail> {
    for (count, wanted) in [(199, true), (200, true), (201, false)] {
        let title = remarked(rt.alloc(), count)?;
        assert_eq!(rt; title.len(), count + 4);
        let left = without_remarks(title.as_str().as_bytes());
        assert_eq!(rt; left == b"Silt".as_slice(), wanted);
    }
    Ok(())
}

#[test]
fn a_remark_has_at_most_three_spaces(rt: HostRuntime) {
    let cases = [
        ("   RETRACTED:   Silt", "Silt"),
        ("    RETRACTED: Silt", "    RETRACTED: Silt"),
        ("RETRACTED:    Silt", " Silt"),
        ("Silt   (Retracted)   ", "Silt"),
        ("Silt    (Retracted)", "Silt "),
        ("Silt (Retracted)    ", "Silt (Retracted)    "),
    ];
    assert_eq!(rt; first_other(&cases), None);
}
