//! The links for queries of sources.

use compiler::compile;
use kbart_rows::Table;
use link_menu::RegistryMenus;
use registry::Registry;
use rule_parser::Rules;
use source_answers::links_text;
use source_menus::{FoundLink, LinkRequest, found_links};
use std::alloc::Global;
use std::test::Fail;
use verifier::load;

const RULES: &[u8] = b"rule\nlink {+title_url}{?rft.volume}\n";

/// A journal in two parts of a target, and one that another target has.
const FIRST: &[u8] = b"print_identifier\ttitle_url\n1234-567X\thttp://e.org/a\n";

const SECOND: &[u8] =
    b"print_identifier\ttitle_url\n2049-3630\thttp://e.org/n\n1234-567X\thttp://e.org/b\n";
/// A target that answers every request.
const SEARCH: &[u8] = b"print_identifier\ttitle_url\nANY\thttp://s.org/\n";

const TARGETS: [(&str, &[u8]); 4] = [
    ("search", SEARCH),
    ("press", FIRST),
    ("press.2", SECOND),
    ("shop", SECOND),
];

pub(crate) fn registry(alloc: Global) -> Result<Registry, Fail> {
    let mut registry = Registry::new(alloc);
    for (name, table) in TARGETS {
        let rules = Rules::parse(alloc, RULES)?;
        let code = load(alloc, &compile(alloc, &rules)?.write(alloc)?)?;
        let name = String::from_str(alloc, name)?;
        if let Err(error) = registry.add(name, code, Table::read(alloc, table)?) {
            return Err(Fail::from(error.kind));
        }
    }
    Ok(registry)
}

/// Queries and the links for them: each target once, the links of their own before those of every request.
const LINKS: [(&str, &str); 6] = [
    (
        "issn=1234567x&volume=12",
        "press\thttp://e.org/a?rft.volume=12\nshop\thttp://e.org/b?rft.volume=12\n\
        search\thttp://s.org/?rft.volume=12\n",
    ),
    (
        "?issn=2049-3630&amp;volume=Vol. 3",
        "press\thttp://e.org/n?rft.volume=3\nshop\thttp://e.org/n?rft.volume=3\n\
        search\thttp://s.org/?rft.volume=3\n",
    ),
    (
        "rft.issn=9999-9994&rft.volume=12",
        "search\thttp://s.org/?rft.volume=12\n",
    ),
    ("rft.issn=ANY", "search\thttp://s.org/\n"),
    ("title_url=http://evil.org/", "search\thttp://s.org/\n"),
    ("", "search\thttp://s.org/\n"),
];

#[test]
fn each_target_once(rt: HostRuntime) -> Result<(), Fail> {
    let registry = registry(rt.alloc())?;
    let menus = RegistryMenus::new(&registry);
    for (query, expected) in LINKS {
        let found = found_links(rt.alloc(), &menus, &[], query.as_bytes())?;
        let text = links_text(rt.alloc(), found.links())?;
        assert_eq!(rt; text.as_str(), expected, "{query}");
    }
    Ok(())
}

/// The name of a link's part, its row, and the request that gave it.
fn is_from(link: &FoundLink<'_>, name: &str, row: usize, request: LinkRequest<'_>) -> bool {
    link.name == name && link.row == row && link.request == request
}

#[test]
fn parts_and_rows(rt: HostRuntime) -> Result<(), Fail> {
    let registry = registry(rt.alloc())?;
    let menus = RegistryMenus::new(&registry);
    let found = found_links(rt.alloc(), &menus, &[], b"issn=20493630")?;
    let links = found.links();
    assert_eq!(rt; links.len(), 3);
    assert!(rt; is_from(&links[0], "press.2", 0, LinkRequest::Own));
    assert!(rt; is_from(&links[1], "shop", 0, LinkRequest::Own));
    assert!(rt; is_from(&links[2], "search", 0, LinkRequest::Any));
    Ok(())
}

/// A query with another number of its title: the first part of the target has that, and no other link changes.
#[test]
fn further_numbers(rt: HostRuntime) -> Result<(), Fail> {
    let registry = registry(rt.alloc())?;
    let menus = RegistryMenus::new(&registry);
    let numbers = ["9999-9994", "1234-567X"];
    let found = found_links(rt.alloc(), &menus, &numbers, b"issn=8888-8888")?;
    let links = found.links();
    assert_eq!(rt; links.len(), 3);
    assert!(rt; is_from(&links[0], "press", 0, LinkRequest::Further("1234-567X")));
    assert!(rt; is_from(&links[1], "shop", 1, LinkRequest::Further("1234-567X")));
    assert!(rt; is_from(&links[2], "search", 0, LinkRequest::Any));
    Ok(())
}
