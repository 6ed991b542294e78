//! The list of links in HTML.

ghost use Rattle.std.specs.Prelude.{◌≡◌, ◌++◌, ◌∷◌, [], OnOk, string_bytes};
ghost use Rattle.menu.specs.Escaping.{HasNone, ampersand, escaped};
ghost use Rattle.menu.specs.Printed.{html_item, html_items, html_list};

use crate::entry::{MenuEntry, Resolution};
use crate::lines::text_len;
use std::alloc::AllocError;

/// Appends a part of a link that has no ampersand, as `push_escaped` does.
fn push_escaped_part(out: &mut String, part: &str) -> Result<(), AllocError>
    requires { HasNone ampersand part.now }
    ensures { OnOk result (string_bytes out.new ≡ string_bytes out.old ++ escaped part.now) }
{
    let mut rest = part;
    while let Some((plain, after)) = rest.split_once('\'') {
        out.push_str(plain)?;
        out.push_str("&#39;")?;
        rest = after;
    }
    out.push_str(rest)
}

/// Appends a link as the value of an attribute, escaped so that a reader of HTML gets the same link.
fn push_escaped(out: &mut String, link: &str) -> Result<(), AllocError>
    ensures { OnOk result (string_bytes out.new ≡ string_bytes out.old ++ escaped link.now) }
{
    let mut rest = link;
    while let Some((part, after)) = rest.split_once('&') {
        push_escaped_part(out, part)?;
        out.push_str("&amp;")?;
        rest = after;
    }
    push_escaped_part(out, rest)
}

/// Appends the list item with a link and the name of its target.
fn push_link_item(out: &mut String, name: &str, link: &str) -> Result<(), AllocError>
    ensures { OnOk result
        (string_bytes out.new ≡ string_bytes out.old ++ html_item (record { name = name.now; link = link.now })) }
{
    out.push_str("<li><a href=\"")?;
    push_escaped(out, link)?;
    write!(out, "\">{name}</a></li>\n")
}

/// Appends the entry's item, if it has a link.
fn push_item(out: &mut String, entry: &MenuEntry) -> Result<(), AllocError>
    ensures { OnOk result (string_bytes out.new ≡ string_bytes out.old ++ html_items (entry.now ∷ [])) }
{
    match &entry.resolution {
        Resolution::Link { link, .. } => push_link_item(out, entry.name, link.as_str()),
        _ => Ok(()),
    }
}

/// About the length of an item's tags, in bytes.
const TAGS_LEN: usize = 25;

/// Appends the list of all items. The text grows at most once, unless many characters of the links are escaped.
pub(crate) fn push_list(out: &mut String, entries: &[MenuEntry]) -> Result<(), AllocError>
    ensures { OnOk result (string_bytes out.new ≡ string_bytes out.old ++ html_list entries.now) }
{
    let tags = entries.len().saturating_mul(TAGS_LEN);
    out.reserve(text_len(entries).saturating_add(tags))?;
    out.push_str("<ul>\n")?;
    for entry in entries {
        push_item(out, entry)?;
    }
    out.push_str("</ul>\n")
}
