//! The menus of small registries, and what a watch observes until they are complete.

use crate::codes::{ISSN_CODE, LIST_CODE};
use crate::shared::{add, has_lists};
use kev_read::read_kev;
use link_menu::{Shown, resolve_watched};
use registry::Registry;
use std::alloc::{AllocError, Global};
use std::test::Fail;

/// Names of targets that have the journal, and their codes.
type Targets = &'static [(&'static str, &'static [u8])];

/// Targets, how many members of `list` the request has and of how many letters, the report, and what is observed.
const MENUS: [(Targets, (usize, usize), &str, &str); 2] = [
    // A target whose link is not a web link, and one that has its link after eight steps. This takes no part in the
    // later round.
    (
        &[("p", LIST_CODE), ("q", ISSN_CODE)],
        (40, 1),
        "p\tnot a web link\nq\tlink 0\n",
        "[[64, 8], [123, 8], [64], [123]]",
    ),
    // The head of a request over HTTP is too small for these members.
    (
        &[("gamma", LIST_CODE)],
        (20, 1_000),
        "gamma\tnot a web link\n",
        "[[63], [63]]",
    ),
];

fn registry(alloc: Global, targets: Targets) -> Result<Registry, Fail> {
    let mut registry = Registry::new(alloc);
    for (name, code) in targets {
        if let Err(error) = add(alloc, &mut registry, name, code)? {
            return Err(Fail::from(error.kind));
        }
    }
    Ok(registry)
}

/// A query for the journal, with this number of members, each of this number of letters.
fn query(alloc: Global, members: usize, letters: usize) -> Result<String, AllocError> {
    let mut query = String::from_str(alloc, "rft.issn=1234567x")?;
    let member = "a".repeat(alloc, letters)?;
    for _ in 0..members {
        query.push_str("&list=")?;
        query.push_str(&member)?;
    }
    Ok(query)
}

/// Whether the menu of the query has this report.
fn has_report(
    alloc: Global,
    registry: &Registry,
    query: &str,
    recorder: &mut Shown,
    expected: &str,
) -> Result<bool, Fail> {
    let request = read_kev(alloc, query.as_bytes())?;
    let menu = resolve_watched(alloc, registry, &request, recorder)?;
    let report = menu.report(alloc)?;
    Ok(report.as_str() == expected)
}

/// The same of the targets and the members; the watch observes the runs.
fn shows(
    alloc: Global,
    targets: Targets,
    members: (usize, usize),
    recorder: &mut Shown,
    expected: &str,
) -> Result<bool, Fail> {
    let registry = registry(alloc, targets)?;
    let query = query(alloc, members.0, members.1)?;
    has_report(alloc, &registry, &query, recorder, expected)
}

#[test]
fn rounds(rt: HostRuntime) -> Result<(), Fail> {
    for (targets, members, report, observed) in MENUS {
        let mut recorder = Shown::new(rt.alloc());
        let is_shown = shows(rt.alloc(), targets, members, &mut recorder, report)?;
        let is_observed = has_lists(rt.alloc(), &recorder, observed)?;
        assert_eq!(rt; (is_shown, is_observed), (true, true), "{report}");
    }
    Ok(())
}
