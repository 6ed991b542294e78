//! The links for a query.

ghost use Rattle.std.specs.Prelude.{◌≡◌, ◌++◌, IfOk, OnOk, string_bytes};
ghost use Rattle.source_answers.specs.Printed as spec;

use source_menus::FoundLink;
use std::alloc::{AllocError, Global};

/// A line for each link, with the target, a tab and the link.
///
/// `AllocError` if an allocation failed.
pub fn links_text(alloc: Global, links: &[FoundLink<'_>]) -> Result<String, AllocError>
    ensures { IfOk result (λ text. string_bytes text ≡ spec.links_text links.now) }
{
    let mut out = String::new(alloc);
    for link in links {
        push_link(&mut out, link)?;
    }
    Ok(out)
}

fn push_link(out: &mut String, link: &FoundLink<'_>) -> Result<(), AllocError>
    ensures { OnOk result (string_bytes out.new ≡ string_bytes out.old ++ spec.link_line link.now) }
{
    let target = link.target();
    let address = link.link.as_str();
    write!(out, "{target}\t{address}\n")
}
