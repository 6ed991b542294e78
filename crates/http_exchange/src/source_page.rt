//! The replies for a query of any source.

ghost use Rattle.std.specs.Prelude.{◌≡◌, ◌≤◌, IfOk, codes, length, string_bytes};
ghost use Rattle.text_model.specs.Texts.{texts_of};
ghost use Rattle.kev_read.specs.declared.read.TheConstants.{MAX_QUERY_BYTES};
ghost use Rattle.http_request.specs.Numbers.{numbers_of};
ghost use Rattle.http_exchange.specs.Replies.{plain};
ghost use Rattle.http_exchange.specs.RouteReplies as spec;

use crate::reply::{BodyType, Reply};
use http::StatusCode;
use kev_read::KevError;
use menu_source::MenuSource;
use source_json::{found_json, reading_json};
use source_menus::found_links;
use source_requests::read_source;
use std::alloc::{AllocError, Global};

/// The reading of a query.
#[tactic(auto, unfolding(crate::specs::RouteReplies::reading_reply))]
pub(crate) fn reading_reply(alloc: Global, query: &[u8]) -> Result<Reply, AllocError>
    requires { length query.now ≤ MAX_QUERY_BYTES }
    ensures { IfOk result (λ reply. reply ≡ spec.reading_reply query.now) }
{
    match read_source(alloc, query) {
        Ok(reading) => {
            let text = reading_json(alloc, &reading)?;
            Ok(Reply::new(StatusCode::OK, BodyType::Json, text))
        }
        Err(KevError::TooLong) => too_long(alloc),
        Err(_) => Err(AllocError),
    }
}

/// The reading of a query, and its links and those for further numbers of its title.
#[tactic(auto, unfolding(crate::specs::RouteReplies::links_reply))]
pub(crate) fn links_reply<S: MenuSource>(
    alloc: Global,
    source: &S,
    numbers: &str,
    query: &[u8],
) -> Result<Reply, AllocError>
    requires { length query.now ≤ MAX_QUERY_BYTES }
    ensures { IfOk result (λ reply. reply ≡ spec.links_reply (S.menus source.now) numbers.now query.now) }
{
    let numbers = further_numbers(alloc, numbers)?;
    match found_links(alloc, source, &numbers, query) {
        Ok(found) => {
            let text = found_json(alloc, &found)?;
            Ok(Reply::new(StatusCode::OK, BodyType::Json, text))
        }
        Err(KevError::TooLong) => too_long(alloc),
        Err(_) => Err(AllocError),
    }
}

/// The reply to a query that is too long once it is repaired and made UTF-8.
fn too_long(alloc: Global) -> Result<Reply, AllocError>
    ensures { IfOk result (λ reply. reply ≡ plain 400 (codes "query: too long\n")) }
{
    Reply::plain(alloc, StatusCode::BAD_REQUEST, "query: too long\n")
}

/// The numbers between the commas, none in an empty text.
fn further_numbers(alloc: Global, numbers: &str) -> Result<Vec<&str>, AllocError>
    ensures { IfOk result (λ list. texts_of list.items ≡ spec.further_numbers numbers.now) }
{
    if numbers.is_empty() {
        Ok(Vec::new(alloc))
    } else {
        between_commas(alloc, numbers)
    }
}

fn between_commas(alloc: Global, numbers: &str) -> Result<Vec<&str>, AllocError>
    ensures { IfOk result (λ list. texts_of list.items ≡ numbers_of numbers.now) }
{
    numbers.split(',').collect(alloc)
}
