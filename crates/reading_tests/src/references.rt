//! References to articles: the name of the journal and the parts after it.

use journal_references::reference_in;
use std::alloc::{AllocError, Global};
use std::test::Fail;
use uri_text::Text;

/// Appends a part, if there is one, after a line.
fn push_part(parts: &mut String, part: &Option<Text>) -> Result<(), AllocError> {
    parts.push_str("|")?;
    if let Some(text) = part {
        parts.push_str(text.as_str())?;
    }
    Ok(())
}

/// The reference in a text, as `name|volume|issue|pages|year`; empty if the text has none.
fn parts(alloc: Global, text: &str) -> Result<String, AllocError> {
    let Some(found) = reference_in(alloc, text)? else {
        return Ok(String::new(alloc));
    };
    let mut parts = String::from_str(alloc, found.name.as_str())?;
    push_part(&mut parts, &found.volume)?;
    push_part(&mut parts, &found.issue)?;
    push_part(&mut parts, &found.pages)?;
    push_part(&mut parts, &found.year)?;
    Ok(parts)
}

/// The first text in which another reference is found.
fn first_other(
    alloc: Global,
    cases: &[(&'static str, &'static str)],
) -> Result<Option<&'static str>, AllocError> {
    for (text, expected) in cases {
        let found = parts(alloc, text)?;
        if found.as_str() != *expected {
            return Ok(Some(*text));
        }
    }
    Ok(None)
}

/// As the guides of medicine, psychology, history and physics write references.
const OF_GUIDES: [(&str, &str); 29] = [
    (
        "Ann Tidal Stud. 2012;12(3):45-67.",
        "Ann Tidal Stud|12|3|45-67|2012",
    ),
    (
        "Ann Tidal Stud. 2012 Mar 5;12(3):45-67.",
        "Ann Tidal Stud|12|3|45-67|2012",
    ),
    (
        "Ann Tidal Stud. 2012 Mar-Apr;12(3):45-9. doi:10.5555/45",
        "Ann Tidal Stud|12|3|45-9|2012",
    ),
    ("Ann Tidal Stud. 2012;12:45.", "Ann Tidal Stud|12||45|2012"),
    (
        "Ann Tidal Stud. 2012;12(3 Suppl 1):S45-50.",
        "Ann Tidal Stud|12|3 Suppl 1|S45-50|2012",
    ),
    (
        "Ann Tidal Stud. 2012; 12(Suppl): iii-xii.",
        "Ann Tidal Stud|12|Suppl|iii-xii|2012",
    ),
    ("Tides 2012;12(3).", "Tides|12|3||2012"),
    (
        "Annals of Tidal Studies, 12(3), 45-67.",
        "Annals of Tidal Studies|12|3|45-67|",
    ),
    (
        "Annals of Tidal Studies, 12(3), 45-67 (2012)",
        "Annals of Tidal Studies|12|3|45-67|2012",
    ),
    (
        "Annals of Tidal Studies, 12(3-4), Article e45.",
        "Annals of Tidal Studies|12|3-4|e45|",
    ),
    (
        "Annals of Tidal Studies 12(3):45-67, March 2012",
        "Annals of Tidal Studies|12|3|45-67|2012",
    ),
    (
        "Annals of Tidal Studies 12 (2012) 45-67",
        "Annals of Tidal Studies|12||45-67|2012",
    ),
    (
        "Annals of Tidal Studies 12(3) (2012) 45-67",
        "Annals of Tidal Studies|12|3|45-67|2012",
    ),
    (
        "Annals of Tidal Studies 12(3), 2012: 45-67",
        "Annals of Tidal Studies|12|3|45-67|2012",
    ),
    (
        "Annals of Tidal Studies 12, no. 3 (2012): 45-67",
        "Annals of Tidal Studies|12|3|45-67|2012",
    ),
    (
        "Annals of Tidal Studies 12, nos. 3-4 (March 2012): 45-67",
        "Annals of Tidal Studies|12|3-4|45-67|2012",
    ),
    (
        "Annals of Tidal Studies, Vol. 12, No. 3, pp. 45-67",
        "Annals of Tidal Studies|12|3|45-67|",
    ),
    (
        "Annals of Tidal Studies, vol. 12, no. 3, Mar. 2012, pp. 45-67.",
        "Annals of Tidal Studies|12|3|45-67|2012",
    ),
    (
        "Ann. Tidal Stud., vol. 12, no. 3, pp. 45-67, Mar. 2012.",
        "Ann. Tidal Stud|12|3|45-67|2012",
    ),
    (
        "Ann. Tidal Stud., vol. 12, pp. 45-67, 2012.",
        "Ann. Tidal Stud|12||45-67|2012",
    ),
    (
        "Annals of Tidal Studies. Mar2012, Vol. 12 Issue 3, p45-67. 23p.",
        "Annals of Tidal Studies|12|3|45-67|2012",
    ),
    (
        "Annalen der Gezeiten, Jg. 12 (2012), H. 3, S. 45-67",
        "Annalen der Gezeiten|12|3|45-67|2012",
    ),
    (
        "Annales des mar\u{e9}es, t. 12, no 3, 2012, p. 45-67",
        "Annales des mar\u{e9}es|12|3|45-67|2012",
    ),
    ("Tides 12, 45 (2012).", "Tides|12||45|2012"),
    ("Tides 12, 45-67 (2012)", "Tides|12||45-67|2012"),
    (
        "J. Tidal Chem. 2012, 12, 45-67.",
        "J. Tidal Chem|12||45-67|2012",
    ),
    (
        "J. Tidal Chem. 2012, 134 (3), 45-67.",
        "J. Tidal Chem|134|3|45-67|2012",
    ),
    (
        "Ann. Tidal Stud. 12, 3 (March 2012), 45-67.",
        "Ann. Tidal Stud|12|3|45-67|2012",
    ),
    (
        "Annals of Tidal Studies 12.3 (2012): 45-67. Print.",
        "Annals of Tidal Studies|12|3|45-67|2012",
    ),
];

/// Days, months and seasons with the year, after the volume and before it.
const OF_DATES: [(&str, &str); 41] = [
    (
        "Tides 12, no. 3, 15 Mar. 2012, pp. 45-67",
        "Tides|12|3|45-67|2012",
    ),
    (
        "Tides 12 (3), 15 March 2012, 45-67",
        "Tides|12|3|45-67|2012",
    ),
    (
        "Tides 12(3), March 15, 2012, pp. 45-67",
        "Tides|12|3|45-67|2012",
    ),
    (
        "Tides 12(3) (15. March 2012): 45-67",
        "Tides|12|3|45-67|2012",
    ),
    (
        "Tides, vol. 12, no. 3, Mar-Apr 2012, pp. 45-67",
        "Tides|12|3|45-67|2012",
    ),
    (
        "Tides, vol. 12, no. 3 (March/April 2012)",
        "Tides|12|3||2012",
    ),
    (
        "Tides, vol. 12, no. 3, March, 2012, p. 45",
        "Tides|12|3|45|2012",
    ),
    (
        "Tides, vol. 12, no. 3, Spring/Summer 2012, pp. 45-67",
        "Tides|12|3|45-67|2012",
    ),
    (
        "Gezeiten, Jg. 12, H. 3, M\u{e4}rz 2012, S. 45-67",
        "Gezeiten|12|3|45-67|2012",
    ),
    ("Tides, vol. 12, no. 3, 15 Mar.", "Tides|12|3||"),
    (
        "Tides, vol. 12, no. 3, p. 15, Mar. 2012",
        "Tides|12|3|15|2012",
    ),
    ("Tides 12(3), 15, March 2012", "Tides|12|3|15|2012"),
    ("Tides 12(3), 45 (March 2012)", "Tides|12|3|45|2012"),
    ("Tides. 2012 Mar 15;12(3):45-67", "Tides|12|3|45-67|2012"),
    ("Tides, 15 March 2012;12(3):45-67", "Tides|12|3|45-67|2012"),
    ("Tides March 2012;12:45-67", "Tides|12||45-67|2012"),
    (
        "Tides, 15 March 2012, 12(3), 45-67",
        "Tides|12|3|45-67|2012",
    ),
    ("Tides, March 15, 2012, vol. 12, no. 3", "Tides|12|3||2012"),
    ("Tides. Mar2012, Vol. 12 Issue 3", "Tides|12|3||2012"),
    ("Tides (2012) 12(3): 45-67", "Tides|12|3|45-67|2012"),
    (
        "Tides (Mar-Apr 2012), vol. 12, no. 3, pp. 45-67",
        "Tides|12|3|45-67|2012",
    ),
    ("Tides, 2012. 12(3): p. 45-67.", "Tides|12|3|45-67|2012"),
    ("Tides 2012 12(3)", "Tides|12|3||2012"),
    ("Tides, 2012, vol. 12, pp. 45-67", "Tides|12||45-67|2012"),
    ("Tides, Apr 2012, 12, 45-67", "Tides|12||45-67|2012"),
    ("March 2012;12:45-67", "|12||45-67|2012"),
    ("Tides of May 12(3), 45-67", "Tides of May|12|3|45-67|"),
    ("Tides of May, 2012(3), 45-67", "Tides of May|2012|3|45-67|"),
    (
        "J Marketing 2012;12(3):45-67",
        "J Marketing|12|3|45-67|2012",
    ),
    ("Tides 12(3), 15 (2012)", "Tides|12|3|15|2012"),
    ("Tides 12, no. 3, May 2012: 45-67", "Tides|12|3|45-67|2012"),
    ("Tides 1 Jan 2012;12(3)", "Tides|12|3||2012"),
    ("Tides 12(3) (2012)", "Tides|12|3||2012"),
    ("Tides 12(3), (March 15, 2012), p. 45", "Tides|12|3|45|2012"),
    ("Tides 12 (2012 Mar 15) 45-67", "Tides|12||45-67|2012"),
    ("Tides vol. 12 (2012), no. 3", "Tides|12|3||2012"),
    ("Tides 2012;12, no. 3, pp. 45-67", "Tides|12|3|45-67|2012"),
    ("Tides 2012;12.3:45-67", "Tides|12|3|45-67|2012"),
    ("Tides (2012 Mar), vol. 12, no. 3", "Tides|12|3||2012"),
    ("Tides, vol. 12, pp. 45-67 (2012)", "Tides|12||45-67|2012"),
    (
        "Tides 12, 3, March 15, 2012, pp. 45-67",
        "Tides|12|3|45-67|2012",
    ),
];

/// Pages and numbers of articles that are no years, and volumes with an issue after a comma.
const OF_ARTICLES: [(&str, &str); 19] = [
    ("Tides 12(3), e2003", "Tides|12|3|e2003|"),
    ("Tides 12(3):e2003", "Tides|12|3|e2003|"),
    ("Tides 12(3), e2003 (2012)", "Tides|12|3|e2003|2012"),
    ("Tides 2012;12(3):e2003", "Tides|12|3|e2003|2012"),
    ("Tides 12, no. 3, e2003", "Tides|12|3|e2003|"),
    ("Tides 12(3), ABC2003", "Tides|12|3|ABC2003|"),
    ("Tides 12(3), p. 2003", "Tides|12|3|2003|"),
    ("Tides 12(3), Article 2003", "Tides|12|3|2003|"),
    ("Tides 12(3), art. no. 2003", "Tides|12|3|2003|"),
    ("Tides, vol. 12, no. 3, p. 45, 2012", "Tides|12|3|45|2012"),
    (
        "Tides, vol. 12, no. 3, Article 45, 2012",
        "Tides|12|3|45|2012",
    ),
    ("Tides 12, 3, Article 45", "Tides|12|3|45|"),
    ("Tides 12, 3, Article 45, 2012", "Tides|12|3|45|2012"),
    ("Tides 12, 3, pp. 45-67 (2012)", "Tides|12|3|45-67|2012"),
    ("Tides 12, 3, p. 45", "Tides|12|3|45|"),
    ("Tides 12, 3, Article 45 (2012)", "Tides|12|3|45|2012"),
    ("Tides 12, 3, 45-67 (2012)", "Tides|12|3|45-67|2012"),
    ("Tides 2012, 12, 3, 45-67", "Tides|12|3|45-67|2012"),
    ("Tides 2012, 12, 45-67", "Tides|12||45-67|2012"),
];

/// Names that have numbers, years before a reference that belong to no part of it, and the ends of names.
const OF_NAMES: [(&str, &str); 15] = [
    ("12(3), 45-67", "|12|3|45-67|"),
    (
        "Route 66 Review 12(3), 45-67",
        "Route 66 Review|12|3|45-67|",
    ),
    (
        "No. 1 Journal 12, no. 3: 45-67",
        "No. 1 Journal|12|3|45-67|",
    ),
    (
        "In 1999 Tides 2012;12:45-67",
        "In 1999 Tides|12||45-67|2012",
    ),
    ("In 1999 Tides 12, 45 (2012)", "In 1999 Tides|12||45|2012"),
    (
        "Tides: a journal - 12(3), 45-67",
        "Tides: a journal|12|3|45-67|",
    ),
    ("Tides (12(3), 45-67)", "Tides|12|3|45-67|"),
    ("Tides [vol. 12(3)]", "Tides|12|3||"),
    ("Tides, 12A(S1), e45", "Tides|12A|S1|e45|"),
    ("Tides, 12-13(3/4), 45A", "Tides|12-13|3/4|45A|"),
    ("Tides 12(3):2003", "Tides|12|3|2003|"),
    ("Tides 12(3), 2003", "Tides|12|3||2003"),
    ("Tides 12(3), 2003-2010", "Tides|12|3|2003-2010|"),
    ("Tides, 12 (3), art. no. 1045", "Tides|12|3|1045|"),
    ("Mar\u{e9}12(3), 45", "Mar\u{e9}|12|3|45|"),
];

/// Titles, and numbers in texts that are no references.
const OTHERS: [&str; 34] = [
    "",
    "Annals of Tidal Studies",
    "Catch 22",
    "Nature 2012",
    "1984",
    "Area 51",
    "Tides, 1984",
    "Tides 12",
    "Tides 12 (2012)",
    "Harbours, Vol. 2",
    "Henry IV, part 2",
    "2001: a space odyssey",
    "Windows 10: 24-hour trainer",
    "Apollo 13 (1970) 25th anniversary",
    "Nineteen hundred, 1900 (1914)",
    "World War II, 1939-1945",
    "Chapters 3, 5 and 7",
    "Tides 2010, 2012, 2014",
    "Genesis 1: 1-12",
    "Area 51, 12-15",
    "Cell 149, 45-67",
    "Tides 12:45-67",
    "ISSN 2901-0012",
    "Tides, 978-3-16-148410-0",
    "Proceedings of the 12th Conference on Tides, 2012",
    "Conference on Tides, 12-15 March 2012",
    "Tides, 2nd edition",
    "doi:10.5555/12(3), 45-67",
    "Tides A12(3), 45-67",
    "Tides 12345678A9(3), 45-67",
    "Tides 12(3), 15 March",
    "Tides, 15 March 2012, 45-67",
    "Tides 2012, 12, 15 March",
    "Tides 2012 12, 45-67",
];

#[test]
fn references_are_found(rt: HostRuntime) -> Result<(), Fail> {
    assert_eq!(rt; first_other(rt.alloc(), &OF_GUIDES)?, None);
    assert_eq!(rt; first_other(rt.alloc(), &OF_DATES)?, None);
    assert_eq!(rt; first_other(rt.alloc(), &OF_ARTICLES)?, None);
    assert_eq!(rt; first_other(rt.alloc(), &OF_NAMES)?, None);
    Ok(())
}

#[test]
fn other_texts_have_none(rt: HostRuntime) -> Result<(), Fail> {
    for text in OTHERS {
        let found = reference_in(rt.alloc(), text)?;
        assert!(rt; found.is_none(), "{text}");
    }
    Ok(())
}

/// A reference in a text of that many bytes.
fn long_text(alloc: Global, count: usize) -> Result<String, AllocError> {
    let mut text = String::from_str(alloc, "Tides 12(3), 45.")?;
    for _ in 16..count {
        text.push_str("x")?;
    }
    Ok(text)
}

#[test]
fn a_text_has_at_most_500_bytes(rt: HostRuntime) -> Result<(), Fail> {
    for (count, wanted) in [(499, true), (500, true), (501, false)] {
        let text = long_text(rt.alloc(), count)?;
        assert_eq!(rt; text.len(), count);
        let found = reference_in(rt.alloc(), text.as_str())?;
        assert_eq!(rt; found.is_some(), wanted);
    }
    Ok(())
}
