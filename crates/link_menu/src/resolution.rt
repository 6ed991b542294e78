//! What a target's row resolves to.

ghost use Rattle.std.specs.Prelude.{◌≡◌};
ghost use Rattle.menu.specs.Links as links;
ghost use Rattle.registry.specs.Entries.{resolution_by};
ghost use Rattle.interleaved_runs.specs.Fates.{fate_value};

use interleaved_runs::Fate;
use menu::{Resolution, Text, is_web_link};

/// The resolution of a target whose row has this fate: only a web link counts as a link.
pub(crate) fn resolution_of(fate: Fate, row: usize) -> Resolution
    ensures { result ≡ resolution_by row (fate_value fate) }
{
    match fate {
        Fate::OverBudget(bytes) => Resolution::OverBudget(bytes),
        Fate::Link(link) => {
            if is_web_link(link.as_str()) {
                let link = Text::new(link);
                Resolution::Link { row, link }
            } else {
                Resolution::NotAWebLink
            }
        }
        Fate::NoLink => Resolution::NoLink,
    }
}

pub(crate) fn is_link(resolution: &Resolution) -> bool
    ensures { result ≡ links.is_link resolution.now }
{
    matches!(resolution, Resolution::Link { .. })
}
