//! References to articles after the names of their journals, in titles of requests.

use crate::shared::{Case, first_difference};
use std::test::Fail;

const CITATIONS: [Case; 9] = [
    (
        "title=Tides+2003;12(3):101-118",
        &[
            ("rft.jtitle", "Tides"),
            ("rft.volume", "12"),
            ("rft.issue", "3"),
            ("rft.pages", "101-118"),
            ("rft.spage", "101"),
            ("rft.date", "2003"),
            ("x.from", "20030101"),
        ],
    ),
    (
        "rft_val_fmt=x&jtitle=Tides,+vol.+12,+no.+3,+2003,+pp.+101-18",
        &[
            ("rft.jtitle", "Tides"),
            ("rft.volume", "12"),
            ("rft.issue", "3"),
        ],
    ),
    (
        "title=Tides+12+(2003)+101-118&date=2004",
        &[
            ("rft.jtitle", "Tides"),
            ("rft.volume", "12"),
            ("rft.date", "2004"),
        ],
    ),
    (
        "rft.jtitle=Tides+12(3):45-67&rft.volume=13",
        &[
            ("rft.jtitle", "Tides"),
            ("rft.volume", "13"),
            ("rft.issue", "3"),
        ],
    ),
    (
        "jtitle=%5Cemph%7BTides%7D,+12(3):45--67,+2012&date=undated",
        &[("rft.jtitle", "Tides"), ("rft.date", "2012")],
    ),
    (
        "title=Harbours+12(3):45-67&genre=book",
        &[("rft.btitle", "Harbours 12(3):45-67"), ("rft.volume", "")],
    ),
    (
        "title=Tides+12(3):45-67&rft.title=Silt",
        &[("rft.jtitle", ""), ("rft.volume", "")],
    ),
    (
        "title=12(3):45-67",
        &[("rft.jtitle", "12(3):45-67"), ("rft.volume", "")],
    ),
    (
        "title=Genesis+1:1-3",
        &[("rft.jtitle", "Genesis 1:1-3"), ("rft.volume", "")],
    ),
];

#[test]
fn references_after_names_of_journals(rt: HostRuntime) -> Result<(), Fail> {
    assert_eq!(rt; first_difference(rt.alloc(), &CITATIONS)?, None);
    Ok(())
}
