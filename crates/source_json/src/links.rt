//! The links for a query.

ghost use Rattle.std.specs.Prelude.{◌≡◌, Some, IfOk, string_bytes};
ghost use Rattle.serde_json.specs.Read.{read};
ghost use Rattle.serde_json.specs.View.{view};
ghost use Rattle.source_menus.specs.Found.{request_value};
ghost use Rattle.source_json.specs.Values as spec;

use crate::readings::put_reading;
use serde_json::{Map, Value, json, put};
use source_menus::{FoundLink, FoundLinks, LinkRequest};
use std::alloc::{AllocError, Global};

/// The JSON of what was found for a query: the members of its reading (`reading_json`), and `links`, an array with an
/// object for each link, which has its `target`, the `part` of the target that gave it, the `row` of the part's table,
/// counted from 0, the `link`, and the `query` that gave it: `own`, a further number, or `any`, the one for targets
/// that answer every request.
///
/// `AllocError` if an allocation failed.
pub fn found_json(alloc: Global, found: &FoundLinks<'_>) -> Result<String, AllocError>
    ensures text { IfOk result (λ text. string_bytes text ≡ spec.found_text found.now) }

    // Whoever reads the text as JSON has the value again.
    ensures read { IfOk result (λ text. read (string_bytes text) ≡ Some (spec.found_value found.now)) }
{
    let value = found_value(alloc, found)?;
    value.to_string(alloc)
}

fn found_value(alloc: Global, found: &FoundLinks<'_>) -> Result<Value, AllocError>
    ensures { IfOk result (λ value. view value ≡ spec.found_value found.now) }
{
    let mut members = Map::new(alloc);
    let links = links_value(alloc, found.links())?;
    put(&mut members, alloc, "links", links)?;
    put_reading(alloc, &mut members, found.reading())?;
    Ok(Value::Object(members))
}

/// Each link as an object.
fn links_value(alloc: Global, links: &[FoundLink<'_>]) -> Result<Value, AllocError>
    ensures { IfOk result (λ value. view value ≡ spec.links_value links.now) }
{
    let mut list = Vec::new(alloc);
    for link in links {
        list.push(link_value(alloc, link)?)?;
    }
    Ok(Value::Array(list))
}

fn link_value(alloc: Global, link: &FoundLink<'_>) -> Result<Value, AllocError>
    ensures { IfOk result (λ value. view value ≡ spec.link_value link.now) }
{
    let query = query_name(link.request);
    let target = link.target();
    json!(in alloc; {
        "link": link.link.as_str(),
        "part": link.name,
        "query": query,
        "row": link.row,
        "target": target
    })
}

/// The request that gave a link, as it is named.
fn query_name<'a>(request: LinkRequest<'a>) -> &'a str
    ensures { result.now ≡ spec.query_name (request_value request.entry) }
{
    match request {
        LinkRequest::Own => "own",
        LinkRequest::Further(number) => number,
        LinkRequest::Any => "any",
    }
}
