//! Targets that are added to a registry, and the menu of a request.

use crate::allocate_last;
use compiler::compile;
use kbart_rows::Table;
use kev_read::read_kev;
use link_menu::resolve;
use registry::{AddError, AddErrorKind, Registry};
use rule_parser::Rules;
use std::alloc::Global;
use std::test::Fail;
use verifier::load;

const RULES: &[u8] =
    b"rule\nwhen rft.date from date_first_issue_online to date_last_issue_online\nlink {+title_url}\n";

/// Two rows of one journal, in two years.
const JOURNAL: &[u8] =
    b"print_identifier\ttitle_url\tdate_first_issue_online\tdate_last_issue_online\n\
1234-567X\thttp://e.org/a\t1990\t1995\n1234-567X\thttp://e.org/b\t2000\t\n";

const QUERY: &[u8] = b"rft.issn=1234567x&rft.date=2003";

/// Adds the target alpha; an error gives its parts back.
fn add(alloc: Global, registry: &mut Registry) -> Result<Result<(), AddError>, Fail> {
    let rules = Rules::parse(alloc, RULES)?;
    let code = load(alloc, &compile(alloc, &rules)?.write(alloc)?)?;
    let table = Table::read(alloc, JOURNAL)?;
    let name = String::from_str(alloc, "alpha")?;
    Ok(registry.add(name, code, table))
}

/// Whether the registry has the one target alpha, with the instructions of its code and the rows of its table.
fn has_alpha_alone(registry: &Registry) -> bool {
    let [target] = registry.targets() else {
        return false;
    };
    target.name() == "alpha" && target.code().code().len() == 20 && target.table().rows() == 2
}

/// If an allocation fails, nothing is added, and a second call adds the parts that were given back.
#[test]
fn a_second_call_takes_the_parts(rt: HostRuntime) -> Result<(), Fail> {
    let mut registry = Registry::new(rt.alloc());
    if let Err(error) = add(rt.alloc(), &mut registry)? {
        assert_eq!(rt; Some(error.kind), Some(AddErrorKind::NoMemory));
        assert!(rt; registry.targets().is_empty());
        if let Err(error) = registry.add(error.name, error.code, error.table) {
            return Err(Fail::from(error.kind));
        }
        assert!(rt; has_alpha_alone(&registry));
        return Err(Fail::new("add: out of memory"));
    }
    assert!(rt; has_alpha_alone(&registry));
    allocate_last(rt.alloc())
}

#[test]
fn a_menu_has_all_its_links(rt: HostRuntime) -> Result<(), Fail> {
    let mut registry = Registry::new(rt.alloc());
    if let Err(error) = add(rt.alloc(), &mut registry)? {
        return Err(Fail::from(error.kind));
    }
    let request = read_kev(rt.alloc(), QUERY)?;
    let Ok(menu) = resolve(rt.alloc(), &registry, &request) else {
        return Err(Fail::new("resolve: out of memory"));
    };
    let text = menu.text(rt.alloc())?;
    assert_eq!(rt; text.as_str(), "alpha\thttp://e.org/b\n");
    allocate_last(rt.alloc())
}
