//! The links for a query.

ghost use Rattle.std.specs.Prelude.{◌≡◌, ◌<◌, ◌++◌, ◌⊎◌, IfErr, IfOk, OnOk, false, length};
ghost use Rattle.text_model.specs.Texts.{texts_of};
ghost use Rattle.kev_read.specs.Refusal.{states_other_version};
ghost use Rattle.kev_read.specs.declared.read.TheConstants.{MAX_PAIRS};
ghost use Rattle.source_requests.specs.Requests.{IsShort, IsTooLong, fitting};
ghost use Rattle.source_menus.specs.Found as spec;

use crate::link::{FoundLink, LinkRequest};
use crate::links::push_links;
use kev_read::KevError;
use menu_source::MenuSource;
use openurl_reading::laws::{readings_are_bounded, readings_state_the_version};
use source_requests::{
    Pairs, Reading, Request, any_request, further_request, own_request, read_source,
};
use std::alloc::Global;
use std::marker::Model;

/// What was found for a query of any source.
#[derive(Drop)]
pub struct FoundLinks<'a> {
    reading: Reading,
    links: Vec<FoundLink<'a>>,
}

impl<'a> Model for FoundLinks<'a> {
    ghost use Rattle.source_menus.specs.Found.{FoundForQuery};

    ghost Value = { FoundForQuery };

    ghost view = { λ found. record { reading = found.reading; links = found.links.items } };
}

impl<'a> FoundLinks<'a> {
    /// The query, read as OpenURL 1.0.
    pub fn reading(&self) -> &Reading
        ensures { result.now ≡ self.now.reading }
    {
        &self.reading
    }

    /// The links, each target once: first those of the query's own request, in the order of the menu, then those of
    /// further numbers, and then those of targets that answer every request.
    pub fn links(&self) -> &[FoundLink<'a>]
        ensures { result.now ≡ self.now.links }
    {
        &self.links
    }
}

/// The links that a source of menus has for a query of any source, and for further numbers of its title, which are
/// ISSNs or ISBNs, as those of other editions.
///
/// `TooLong` if the query has more than 65,536 bytes, before or after it is repaired and made UTF-8; `NoMemory` if an
/// allocation failed.
pub fn found_links<'a, S: MenuSource>(
    alloc: Global,
    source: &'a S,
    numbers: &[&'a str],
    query: &[u8],
) -> Result<FoundLinks<'a>, KevError>
    ensures ok { IfOk result (λ found. found ≡ spec.found_for (S.menus source.now) (texts_of numbers.now) query.now) }
    ensures fits { IfOk result (λ _. IsShort query.now) }
    ensures err { IfErr result (λ e. (e ≡ KevError.NoMemory) ⊎ ((e ≡ KevError.TooLong) × IsTooLong query.now)) }
{
    let reading = read_source(alloc, query)?;
    readings_are_bounded();
    readings_state_the_version();
    let links = links_for(alloc, source, numbers, reading.pairs())?;
    Ok(FoundLinks { reading, links })
}

/// The links for the pairs of a reading, each target once.
fn links_for<'a, S: MenuSource>(
    alloc: Global,
    source: &'a S,
    numbers: &[&'a str],
    pairs: &Pairs,
) -> Result<Vec<FoundLink<'a>>, KevError>
    requires few { length pairs.now < MAX_PAIRS }
    requires version { states_other_version pairs.now ≡ false }
    ensures links { IfOk result (λ links. links.items
        ≡ spec.links_for (S.menus source.now) (texts_of numbers.now) pairs.now) }
    ensures err { IfErr result (λ e. e ≡ KevError.NoMemory) }
{
    let mut links = Vec::new(alloc);
    push_found(alloc, &mut links, source, pairs, LinkRequest::Own)?;
    for number in numbers {
        push_found(
            alloc,
            &mut links,
            source,
            pairs,
            LinkRequest::Further(number),
        )?;
    }
    push_found(alloc, &mut links, source, pairs, LinkRequest::Any)?;
    Ok(links)
}

/// Appends the links that a request gives, of the targets that have none yet.
fn push_found<'a, S: MenuSource>(
    alloc: Global,
    links: &mut Vec<FoundLink<'a>>,
    source: &'a S,
    pairs: &Pairs,
    request: LinkRequest<'a>,
) -> Result<(), KevError>
    requires once { spec.first_of_each links.old.items ≡ links.old.items }
    requires few { length pairs.now < MAX_PAIRS }
    requires version { states_other_version pairs.now ≡ false }
    ensures links { OnOk result (links.new.items ≡ spec.first_of_each (links.old.items
        ++ spec.links_by (S.menus source.now) pairs.now (spec.request_value request.entry))) }
    ensures err { IfErr result (λ e. e ≡ KevError.NoMemory) }
{
    let sent = request_for(alloc, request, pairs)?;
    let menu = source.menu_for(alloc, &sent)?;
    push_links(alloc, links, menu.entries(), request)?;
    Ok(())
}

/// The pairs of a reading as a request.
fn request_for(alloc: Global, request: LinkRequest<'_>, pairs: &Pairs) -> Result<Request, KevError>
    requires few { length pairs.now < MAX_PAIRS }
    requires version { states_other_version pairs.now ≡ false }
    ensures pairs { IfOk result (λ sent. sent.pairs
        ≡ fitting (spec.pairs_for (spec.request_value request.entry) pairs.now)) }
    ensures err { IfErr result (λ e. e ≡ KevError.NoMemory) }
{
    match request {
        LinkRequest::Own => own_request(alloc, pairs),
        LinkRequest::Further(number) => further_request(alloc, number, pairs),
        LinkRequest::Any => any_request(alloc, pairs),
    }
}
