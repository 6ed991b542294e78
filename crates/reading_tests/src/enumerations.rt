//! Volumes and issues in texts.

use article_places::enumeration_in;
use std::alloc::{AllocError, Global};
use std::test::Fail;

/// The numbers in a text, as `first|issue|supplement`, without a supplement if there is none; empty if the text has
/// other words.
fn numbers(alloc: Global, text: &str) -> Result<String, AllocError> {
    let Some(found) = enumeration_in(alloc, text.as_bytes())? else {
        return Ok(String::new(alloc));
    };
    let mut numbers = String::from_utf8_lossy(alloc, found.first.unwrap_or(b""))?;
    numbers.push_str("|")?;
    let issue = String::from_utf8_lossy(alloc, found.issue.unwrap_or(b""))?;
    numbers.push_str(issue.as_str())?;
    if let Some(mark) = found.supplement {
        let mark = String::from_utf8_lossy(alloc, mark)?;
        numbers.push_str("|")?;
        numbers.push_str(mark.as_str())?;
    }
    Ok(numbers)
}

/// The first text in which other numbers are found.
fn first_other(
    alloc: Global,
    cases: &[(&'static str, &'static str)],
) -> Result<Option<&'static str>, AllocError> {
    for (text, expected) in cases {
        let found = numbers(alloc, text)?;
        if found.as_str() != *expected {
            return Ok(Some(*text));
        }
    }
    Ok(None)
}

const ONE_NUMBER: [(&str, &str); 48] = [
    ("12", "12|"),
    (" 12 ", "12|"),
    ("12.", "12|"),
    ("12,", "12|"),
    ("\"12\"", "12|"),
    ("012", "012|"),
    ("2012", "2012|"),
    ("12-13", "12-13|"),
    ("12/13", "12/13|"),
    ("A12", "A12|"),
    ("12A", "12A|"),
    ("S1", "S1|"),
    ("v12", "v12|"),
    ("n3", "n3|"),
    ("Vol. 12", "12|"),
    ("Vol.12", "12|"),
    ("VOL 12", "12|"),
    ("vol12", "12|"),
    ("Volume: 12", "12|"),
    ("Volumes 12-13", "12-13|"),
    ("v. 12", "12|"),
    ("v.12", "12|"),
    ("v:12", "12|"),
    ("t. 12", "12|"),
    ("T 12", "12|"),
    ("Bd. 12", "12|"),
    ("Bd.12", "12|"),
    ("Jg. 12", "12|"),
    ("tomo 12", "12|"),
    ("Vol. 12A", "12A|"),
    ("No. 3", "3|"),
    ("no3", "3|"),
    ("Nos. 3-4", "3-4|"),
    ("Issue: 3", "3|"),
    ("iss. 3", "3|"),
    ("Heft 3", "3|"),
    ("H. 3", "3|"),
    ("n. 3", "3|"),
    ("numero 3", "3|"),
    ("fascicule 3", "3|"),
    ("Pt 8", "8|"),
    ("Part 1A", "1A|"),
    ("(12", "12|"),
    ("12 (2012)", "12|"),
    ("Vol. 12 (2012)", "12|"),
    ("12 (1899)", "12|"),
    ("12 (2003-2004)", "12|"),
    ("12 (2003/04)", "12|"),
];

const TWO_NUMBERS: [(&str, &str); 31] = [
    ("12(3)", "12|3"),
    ("12 (3)", "12|3"),
    ("12( 3 )", "12|3"),
    ("12[3]", "12|3"),
    ("12(3-4)", "12|3-4"),
    ("12(3/4)", "12|3/4"),
    ("12 (no. 3)", "12|3"),
    ("12(n.3)", "12|3"),
    ("12(Heft 3)", "12|3"),
    ("12(S1)", "12|S1"),
    ("Vol. 12 (3)", "12|3"),
    ("Vol. 12, No. 3", "12|3"),
    ("Vol.12, No.3", "12|3"),
    ("Vol12 no3", "12|3"),
    ("Vol 12 Iss 3", "12|3"),
    ("Vol. 12; Issue 3", "12|3"),
    ("12 h. 3", "12|3"),
    ("vol. 12, numero 3", "12|3"),
    ("vol. 12, fasc. 3", "12|3"),
    ("12 Pt 3", "12|3"),
    ("12, pt. 3", "12|3"),
    ("Vol. 12, Part 3A", "12|3A"),
    ("12 (2012), no. 3", "12|3"),
    ("Vol. 12, No. 3 (2012)", "12|3"),
    ("12 S1", "12|S1"),
    ("12 s10", "12|s10"),
    ("12(3012)", "12|3012"),
    ("12(201)", "12|201"),
    ("12(20123)", "12|20123"),
    ("12 no. 2012", "12|2012"),
    ("12(3", "12|3"),
];

const SUPPLEMENTS: [(&str, &str); 27] = [
    ("12 Suppl", "12||"),
    ("12 (Suppl)", "12||"),
    ("12, suppl. 1", "12||1"),
    ("12; Suppl 1", "12||1"),
    ("12: Suppl 1", "12||1"),
    ("12 Suppl1", "12||1"),
    ("12 Suppl. 1", "12||1"),
    ("12 Supplt 1", "12||1"),
    ("12 supplementary 1", "12||1"),
    ("12 Suppl. (1)", "12||1"),
    ("12 Suppl No. 1", "12||1"),
    ("12 Suppl 1-2", "12||1-2"),
    ("12 Suppl 1/2", "12||1/2"),
    ("12 Suppl 1A", "12||1A"),
    ("12 Suppl B3", "12||B3"),
    ("12 Suppl B", "12||B"),
    ("12 Suppl IV", "12||IV"),
    ("12 (3 Suppl 1)", "12|3|1"),
    ("12 (3, Suppl 1)", "12|3|1"),
    ("12(3) Suppl", "12|3|"),
    ("12 (2012) Suppl 1", "12||1"),
    ("Vol. 12, No. 3 (Suppl 1)", "12|3|1"),
    ("3 (Suppl 1)", "3||1"),
    ("Suppl 1", "||1"),
    ("Suppl. 1", "||1"),
    ("Supplement", "||"),
    ("supplementum 4", "||4"),
];

const OTHERS: [(&str, &str); 33] = [
    ("", "|"),
    ("Vol.", "|"),
    ("XII", ""),
    ("Twelve", ""),
    ("ab", ""),
    ("Spring", ""),
    ("Mar", ""),
    ("Spring 2012", ""),
    ("12 and 13", ""),
    ("12, 3", ""),
    ("12:3", ""),
    ("12 3", ""),
    ("12.3", ""),
    ("12 + 13", ""),
    ("12 (3) 4", ""),
    ("12 (3) (4)", ""),
    ("x 12(3)", ""),
    ("no. 3, vol. 12", ""),
    ("12 (vol. 3)", ""),
    ("75 (3 Pt 2)", ""),
    ("75 Pt A", ""),
    ("suppl_1", ""),
    ("Suppl_1", ""),
    ("12 suppl_1", ""),
    ("12_13", ""),
    ("vol_12", ""),
    ("suppl-1", "suppl-1|"),
    ("Vol-12", "Vol-12|"),
    ("12 Suppl AB", ""),
    ("12 Suppl 1 2", ""),
    ("Special Issue", ""),
    ("12 special issue", ""),
    ("12\u{2013}13", ""),
];

#[test]
fn volumes_and_issues_are_found(rt: HostRuntime) -> Result<(), Fail> {
    assert_eq!(rt; first_other(rt.alloc(), &ONE_NUMBER)?, None);
    assert_eq!(rt; first_other(rt.alloc(), &TWO_NUMBERS)?, None);
    assert_eq!(rt; first_other(rt.alloc(), &SUPPLEMENTS)?, None);
    assert_eq!(rt; first_other(rt.alloc(), &OTHERS)?, None);
    Ok(())
}
