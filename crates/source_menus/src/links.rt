//! The links of menus, each target once.

ghost use Rattle.std.specs.Prelude.{◌≡◌, ◌++◌, ◌∷◌, [], IfOk, OnOk};
ghost use Rattle.std.specs.List.{list_any};
ghost use Rattle.source_menus.specs.Found as spec;

use crate::link::{FoundLink, LinkRequest};
use menu::{MenuEntry, Resolution, Text};
use std::alloc::{AllocError, Global};

/// Appends the links of a menu for a request, of the targets that have none yet.
pub(crate) fn push_links<'a>(
    alloc: Global,
    links: &mut Vec<FoundLink<'a>>,
    entries: &[MenuEntry<'a>],
    request: LinkRequest<'a>,
) -> Result<(), AllocError>
    requires once { spec.first_of_each links.old.items ≡ links.old.items }
    ensures { OnOk result (links.new.items
        ≡ spec.first_of_each (links.old.items ++ spec.links_in (spec.request_value request.entry) entries.now)) }
{
    for entry in entries {
        push_link(alloc, links, entry, request)?;
    }
    Ok(())
}

/// Appends the link of an entry, if it has one and its target has none yet.
fn push_link<'a>(
    alloc: Global,
    links: &mut Vec<FoundLink<'a>>,
    entry: &MenuEntry<'a>,
    request: LinkRequest<'a>,
) -> Result<(), AllocError>
    requires once { spec.first_of_each links.old.items ≡ links.old.items }
    ensures { OnOk result (links.new.items
        ≡ spec.first_of_each (links.old.items ++ spec.links_in (spec.request_value request.entry) (entry.now ∷ []))) }
{
    let Resolution::Link { row, link } = &entry.resolution else {
        return Ok(());
    };
    let link = copy(alloc, link)?;
    let found = FoundLink {
        name: entry.name,
        row: *row,
        link,
        request,
    };
    if has_target(links, found.target()) {
        return Ok(());
    }
    links.push(found)?;
    Ok(())
}

/// Whether a target has a link.
fn has_target(links: &[FoundLink<'_>], target: &str) -> bool
    ensures { result ≡ list_any (spec.is_of target.now) links.now }
{
    for link in links {
        if link.is_of(target) {
            return true;
        }
    }
    false
}

fn copy(alloc: Global, text: &Text) -> Result<Text, AllocError>
    ensures { IfOk result (λ copy. copy ≡ text.now) }
{
    Ok(Text::new(String::from_str(alloc, text.as_str())?))
}
