//! A query of any source: its reading, and its links.

ghost use Rattle.std.specs.Prelude.{◌≡◌};
ghost use Rattle.answers.specs.Results.{text_result};
ghost use Rattle.answers.specs.Source.{AreLinksOf, IsReadingOf, refusal_of};

use crate::refusal::Refusal;
use kev_read::KevError;
use link_menu::RegistryMenus;
use registry::Registry;
use source_answers::{links_text, reading_text};
use source_menus::found_links;
use source_requests::read_source;
use std::alloc::Global;

/// The text of the pairs of a query of any source, read as OpenURL 1.0: a line for each, with the key, a tab and the
/// value, and how many were left out.
pub fn reading_text_of(alloc: Global, query: &str) -> Result<String, Refusal>
    ensures { IsReadingOf query.now (text_result result) }
{
    match read_source(alloc, query.as_bytes()) {
        Ok(reading) => Ok(reading_text(alloc, &reading)?),
        Err(e) => Err(refusal_of(e)),
    }
}

/// The text of the links that the registry has for a query of any source, if it has one: a line for each target.
pub fn links_text_of(alloc: Global, registry: &Registry, query: &str) -> Result<String, Refusal>
    ensures { AreLinksOf registry.now query.now (text_result result) }
{
    let menus = RegistryMenus::new(registry);
    match found_links(alloc, &menus, &[], query.as_bytes()) {
        Ok(found) => {
            if found.links().is_empty() {
                return Err(Refusal::NoLink);
            }
            Ok(links_text(alloc, found.links())?)
        }
        Err(e) => Err(refusal_of(e)),
    }
}

/// Why a query of any source is not read.
fn refusal_of(e: KevError) -> Refusal
    ensures { result ≡ refusal_of e }
{
    match e {
        KevError::NoMemory => Refusal::Memory,
        _ => Refusal::Query(e),
    }
}
