//! The menu of a registry for a query.

ghost use Rattle.answers.specs.Menu.{IsMenuOf};
ghost use Rattle.answers.specs.Results.{text_result};

use crate::refusal::Refusal;
use crate::request::request_of;
use link_menu::resolve;
use registry::Registry;
use std::alloc::Global;

/// The text of the menu that the registry has for the query, if it has a link: a line for each link.
pub fn menu_text_of(alloc: Global, registry: &Registry, query: &str) -> Result<String, Refusal>
    ensures { IsMenuOf registry.now query.now (text_result result) }
{
    let request = request_of(alloc, query)?;
    let menu = resolve(alloc, registry, &request)?;
    if menu.is_empty() {
        return Err(Refusal::NoLink);
    }
    Ok(menu.text(alloc)?)
}
