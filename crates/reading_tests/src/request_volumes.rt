//! Volumes and issues of requests, as sources send them.

use crate::shared::{Case, first_difference};
use openurl_reading::read_openurl;
use std::alloc::Global;
use std::test::Fail;

const UNDER_VOLUME: [Case; 31] = [
    ("rft.volume=12", &[("rft.volume", "12"), ("rft.issue", "")]),
    (
        "rft.volume=012",
        &[("rft.volume", "012"), ("rft.issue", "")],
    ),
    (
        "rft.volume=12-13",
        &[("rft.volume", "12-13"), ("rft.issue", "")],
    ),
    (
        "rft.volume=12/13",
        &[("rft.volume", "12/13"), ("rft.issue", "")],
    ),
    (
        "rft.volume=Vol.+12",
        &[("rft.volume", "12"), ("rft.issue", "")],
    ),
    (
        "rft.volume=vol12",
        &[("rft.volume", "12"), ("rft.issue", "")],
    ),
    (
        "rft.volume=Bd.+12",
        &[("rft.volume", "12"), ("rft.issue", "")],
    ),
    (
        "rft.volume=no.+12",
        &[("rft.volume", "12"), ("rft.issue", "")],
    ),
    (
        "rft.volume=12A",
        &[("rft.volume", "12A"), ("rft.issue", "")],
    ),
    (
        "rft.volume=12(3)",
        &[("rft.volume", "12"), ("rft.issue", "3")],
    ),
    (
        "rft.volume=12(3-4)",
        &[("rft.volume", "12"), ("rft.issue", "3-4")],
    ),
    (
        "rft.volume=Vol.+12,+No.+3",
        &[("rft.volume", "12"), ("rft.issue", "3")],
    ),
    (
        "rft.volume=12(S1)",
        &[("rft.volume", "12"), ("rft.issue", "S1")],
    ),
    (
        "rft.volume=12(2012)",
        &[("rft.volume", "12"), ("rft.issue", "")],
    ),
    (
        "rft.volume=12+(1899)",
        &[("rft.volume", "12"), ("rft.issue", "")],
    ),
    (
        "rft.volume=12(3012)",
        &[("rft.volume", "12"), ("rft.issue", "3012")],
    ),
    (
        "rft.volume=12+Suppl",
        &[("rft.volume", "12"), ("rft.issue", "Suppl")],
    ),
    (
        "rft.volume=12,+suppl.+1",
        &[("rft.volume", "12"), ("rft.issue", "Suppl 1")],
    ),
    (
        "rft.volume=12Suppl1",
        &[("rft.volume", "12Suppl1"), ("rft.issue", "")],
    ),
    (
        "rft.volume=12+Suppl+No.+1",
        &[("rft.volume", "12"), ("rft.issue", "Suppl 1")],
    ),
    (
        "rft.volume=12+Suppl+IV",
        &[("rft.volume", "12"), ("rft.issue", "Suppl IV")],
    ),
    (
        "rft.volume=12+(3+Suppl+1)",
        &[("rft.volume", "12"), ("rft.issue", "3 Suppl 1")],
    ),
    (
        "rft.volume=12+Pt+3",
        &[("rft.volume", "12"), ("rft.issue", "3")],
    ),
    (
        "rft.volume=12+S1",
        &[("rft.volume", "12"), ("rft.issue", "S1")],
    ),
    (
        "rft.volume=Suppl+1",
        &[("rft.volume", "Suppl 1"), ("rft.issue", "")],
    ),
    (
        "rft.volume=Supplement",
        &[("rft.volume", "Suppl"), ("rft.issue", "")],
    ),
    (
        "rft.volume=XII",
        &[("rft.volume", "XII"), ("rft.issue", "")],
    ),
    (
        "rft.volume=12,+3",
        &[("rft.volume", "12, 3"), ("rft.issue", "")],
    ),
    (
        "rft.volume=Spring+2012",
        &[("rft.volume", "Spring 2012"), ("rft.issue", "")],
    ),
    (
        "rft.volume=Vol.",
        &[("rft.volume", "Vol."), ("rft.issue", "")],
    ),
    (
        "volume=Vol.+12+(3)",
        &[
            ("rft.volume", "12"),
            ("rft.issue", "3"),
            ("volume", "Vol. 12 (3)"),
        ],
    ),
];

const UNDER_ISSUE: [Case; 14] = [
    ("rft.issue=3", &[("rft.volume", ""), ("rft.issue", "3")]),
    ("rft.issue=No.+3", &[("rft.volume", ""), ("rft.issue", "3")]),
    (
        "rft.issue=Nos.+3-4",
        &[("rft.volume", ""), ("rft.issue", "3-4")],
    ),
    (
        "rft.issue=Heft+3",
        &[("rft.volume", ""), ("rft.issue", "3")],
    ),
    ("rft.issue=03", &[("rft.volume", ""), ("rft.issue", "03")]),
    (
        "rft.issue=Suppl.+1",
        &[("rft.volume", ""), ("rft.issue", "Suppl 1")],
    ),
    (
        "rft.issue=suppl",
        &[("rft.volume", ""), ("rft.issue", "Suppl")],
    ),
    ("rft.issue=S1", &[("rft.volume", ""), ("rft.issue", "S1")]),
    (
        "rft.issue=3,+Suppl.+1",
        &[("rft.volume", "3"), ("rft.issue", "Suppl 1")],
    ),
    (
        "rft.issue=12(3)",
        &[("rft.volume", "12"), ("rft.issue", "3")],
    ),
    (
        "rft.issue=Vol.+12+No.+3",
        &[("rft.volume", "12"), ("rft.issue", "3")],
    ),
    (
        "rft.issue=12+(2012)",
        &[("rft.volume", ""), ("rft.issue", "12")],
    ),
    (
        "rft.issue=Spring",
        &[("rft.volume", ""), ("rft.issue", "Spring")],
    ),
    ("rft.issue=Pt+1", &[("rft.volume", ""), ("rft.issue", "1")]),
];

const UNDER_BOTH: [Case; 14] = [
    (
        "rft.volume=12&rft.issue=12(3)",
        &[("rft.volume", "12"), ("rft.issue", "3")],
    ),
    (
        "rft.volume=12&rft.issue=13(3)",
        &[("rft.volume", "12"), ("rft.issue", "13(3)")],
    ),
    (
        "rft.volume=12&rft.issue=3(1)",
        &[("rft.volume", "12"), ("rft.issue", "3(1)")],
    ),
    (
        "rft.volume=12(3)&rft.issue=4",
        &[("rft.volume", "12"), ("rft.issue", "4")],
    ),
    (
        "rft.volume=Vol.+12&rft.issue=No.+3",
        &[("rft.volume", "12"), ("rft.issue", "3")],
    ),
    (
        "rft.volume=12&rft.issue=3+Suppl.+1",
        &[("rft.volume", "12"), ("rft.issue", "3 Suppl 1")],
    ),
    (
        "rft.volume=12&rft.issue=3+(Suppl+1)",
        &[("rft.volume", "12"), ("rft.issue", "3 Suppl 1")],
    ),
    (
        "rft.volume=12&rft.issue=Pt+2",
        &[("rft.volume", "12"), ("rft.issue", "2")],
    ),
    (
        "rft.volume=12&rft.issue=12+(Suppl+1)",
        &[("rft.volume", "12"), ("rft.issue", "Suppl 1")],
    ),
    (
        "rft.volume=12+Suppl+1&rft.issue=3",
        &[("rft.volume", "12"), ("rft.issue", "3")],
    ),
    (
        "rft.volume=12&rft.issue=3+Pt+1",
        &[("rft.volume", "12"), ("rft.issue", "3 Pt 1")],
    ),
    (
        "rft.volume=Vol.+12&rft.issue=12,+no.+3+Suppl+1",
        &[("rft.volume", "12"), ("rft.issue", "3 Suppl 1")],
    ),
    (
        "rft.volume=12&rft.issue=13,+no.+3+Suppl+1",
        &[("rft.volume", "12"), ("rft.issue", "13, no. 3 Suppl 1")],
    ),
    (
        "rft.volume=2&rft.issue=2,+no.+2+Suppl+1",
        &[("rft.volume", "2"), ("rft.issue", "Suppl 1")],
    ),
];

#[test]
fn volumes_and_issues_lead_their_keys(rt: HostRuntime) -> Result<(), Fail> {
    assert_eq!(rt; first_difference(rt.alloc(), &UNDER_VOLUME)?, None);
    assert_eq!(rt; first_difference(rt.alloc(), &UNDER_ISSUE)?, None);
    assert_eq!(rt; first_difference(rt.alloc(), &UNDER_BOTH)?, None);
    Ok(())
}

/// How long the volume of a request is whose value for it is `12(3)` and commas.
fn volume_of_long_value(alloc: Global, commas: usize) -> Result<usize, Fail> {
    let mut query = String::from_str(alloc, "rft.volume=12(3)")?;
    for _ in 0..commas {
        query.push_str(",")?;
    }
    let reading = read_openurl(alloc, query.as_bytes())?;
    Ok(reading.pairs().first("rft.volume").unwrap_or("").len())
}

#[test]
fn long_values_are_no_volumes(rt: HostRuntime) -> Result<(), Fail> {
    assert_eq!(rt; volume_of_long_value(rt.alloc(), 195)?, 2);
    assert_eq!(rt; volume_of_long_value(rt.alloc(), 196)?, 201);
    Ok(())
}
