//! The lines of the two plain texts.

ghost use Rattle.std.specs.Prelude.{◌≡◌, ◌++◌, ◌∷◌, [], OnOk, length, min, string_bytes};
ghost use Rattle.menu.specs.Printed.{text, resolution_text, report_line};

use crate::entry::{MenuEntry, Resolution};
use std::alloc::AllocError;

/// The length of the entry's line of the plain text in bytes, or the largest number.
fn text_line_len(entry: &MenuEntry) -> usize
    ensures { result ≡ min (length (text (entry.now ∷ []))) usize.MAX }
{
    match &entry.resolution {
        Resolution::Link { link, .. } => {
            let link = link.as_str();
            entry
                .name
                .len()
                .saturating_add(link.len())
                .saturating_add(2)
        }
        _ => 0,
    }
}

/// The length of the plain text in bytes, or the largest number.
pub(crate) fn text_len(entries: &[MenuEntry]) -> usize
    ensures { result ≡ min (length (text entries.now)) usize.MAX }
{
    let mut len: usize = 0;
    for entry in entries {
        len = len.saturating_add(text_line_len(entry));
    }
    len
}

/// Appends the entry's line of the plain text, if it has a link.
pub(crate) fn push_text_line(out: &mut String, entry: &MenuEntry) -> Result<(), AllocError>
    ensures { OnOk result (string_bytes out.new ≡ string_bytes out.old ++ text (entry.now ∷ [])) }
{
    match &entry.resolution {
        Resolution::Link { link, .. } => {
            let name = entry.name;
            let link = link.as_str();
            write!(out, "{name}\t{link}\n")
        }
        _ => Ok(()),
    }
}

fn push_resolution(out: &mut String, resolution: &Resolution) -> Result<(), AllocError>
    ensures { OnOk result (string_bytes out.new ≡ string_bytes out.old ++ resolution_text resolution.now) }
{
    match resolution {
        Resolution::Link { row, .. } => write!(out, "link {row}"),
        Resolution::NoRow => out.push_str("no row"),
        Resolution::NoLink => out.push_str("no link"),
        Resolution::NotAWebLink => out.push_str("not a web link"),
        Resolution::OverBudget(bytes) => write!(out, "over budget {bytes}"),
    }
}

/// Appends the entry's line of the report.
pub(crate) fn push_report_line(out: &mut String, entry: &MenuEntry) -> Result<(), AllocError>
    ensures { OnOk result (string_bytes out.new ≡ string_bytes out.old ++ report_line entry.now) }
{
    let name = entry.name;
    write!(out, "{name}\t")?;
    push_resolution(out, &entry.resolution)?;
    out.push('\n')
}
