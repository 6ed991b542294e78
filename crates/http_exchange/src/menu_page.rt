//! The reply to a request, by its route.

ghost use Rattle.std.specs.Prelude.{◌≡◌, ◌≤◌, IfOk, length, string_bytes};
ghost use Rattle.kev_read.specs.Refusal.{refusal};
ghost use Rattle.kev_read.specs.declared.read.TheConstants.{MAX_QUERY_BYTES};
ghost use Rattle.http_request.specs.Routes.{query_length, route_value};
ghost use Rattle.http_exchange.specs.Replies.{head_of};
ghost use Rattle.http_exchange.specs.RouteReplies as spec;

use crate::reply::{BodyType, Reply};
use crate::source_page::{links_reply, reading_reply};
use http::StatusCode;
use http_request::{HttpRequest, Page, Route};
use kev_read::{KevError, Request, read_kev};
use menu::Menu;
use menu_source::MenuSource;
use std::alloc::{AllocError, Global};

/// The text of a page.
fn page_text(alloc: Global, page: Page, menu: &Menu) -> Result<String, AllocError>
    ensures { IfOk result (λ text. string_bytes text ≡ spec.page_text page menu.now) }
{
    match page {
        Page::Html => menu.html(alloc),
        Page::Text => menu.text(alloc),
        Page::Report => menu.report(alloc),
    }
}

/// The page of the menu for a request.
fn menu_reply<S: MenuSource>(
    alloc: Global,
    source: &S,
    page: Page,
    request: &Request,
) -> Result<Reply, AllocError>
    ensures { IfOk result (λ reply. reply ≡ spec.menu_reply (S.menus source.now) page request.now.pairs) }
{
    let menu = source.menu_for(alloc, request)?;
    let text = page_text(alloc, page, &menu)?;
    Ok(Reply::new(StatusCode::OK, type_of(page), text))
}

fn type_of(page: Page) -> BodyType
    ensures { result ≡ spec.page_type page }
{
    match page {
        Page::Html => BodyType::Html,
        Page::Text | Page::Report => BodyType::Plain,
    }
}

/// The page of the menu for a query, or the reply that says why the query is rejected.
fn query_reply<S: MenuSource>(
    alloc: Global,
    source: &S,
    page: Page,
    query: &[u8],
) -> Result<Reply, AllocError>
    requires { length query.now ≤ MAX_QUERY_BYTES }
    ensures { IfOk result (spec.IsQueryReply (S.menus source.now) page query.now (refusal query.now)) }
{
    match read_kev(alloc, query) {
        Ok(request) => menu_reply(alloc, source, page, &request),
        Err(KevError::TooManyPairs) => {
            Reply::plain(alloc, StatusCode::BAD_REQUEST, "query: too many pairs\n")
        }
        Err(KevError::WrongVersion) => {
            Reply::plain(alloc, StatusCode::BAD_REQUEST, "query: wrong version\n")
        }
        Err(KevError::NoMemory) => Err(AllocError),
        Err(KevError::TooLong) => unreachable!(),
    }
}

/// The reply for a route.
pub(crate) fn reply_for<S: MenuSource>(
    alloc: Global,
    source: &S,
    route: Route<'_>,
) -> Result<Reply, AllocError>
    requires { query_length (route_value route) ≤ MAX_QUERY_BYTES }
    ensures { IfOk result (spec.IsReplyTo (S.menus source.now) (route_value route.entry)) }
{
    match route {
        Route::Menu { page, query } => query_reply(alloc, source, page, query),
        Route::Reading { query } => reading_reply(alloc, query),
        Route::Links { numbers, query } => links_reply(alloc, source, numbers, query),
        Route::NotFound => Reply::plain(alloc, StatusCode::NOT_FOUND, "not found\n"),
        Route::MethodNotAllowed => {
            Reply::plain(
                alloc,
                StatusCode::METHOD_NOT_ALLOWED,
                "method not allowed\n",
            )
        }
        Route::BadRequest => Reply::plain(alloc, StatusCode::BAD_REQUEST, "bad request\n"),
        Route::HeadTooLarge => Reply::plain(
            alloc,
            StatusCode::REQUEST_HEADER_FIELDS_TOO_LARGE,
            "head too large\n",
        ),
    }
}

/// The reply to a request, and the bytes of its head.
pub(crate) fn print_reply<S: MenuSource>(
    alloc: Global,
    source: &S,
    request: HttpRequest<'_>,
) -> Result<(Reply, String), AllocError>
    requires { query_length (route_value request.route) ≤ MAX_QUERY_BYTES }
    ensures reply { IfOk result (λ made. spec.IsReplyTo (S.menus source.now) (route_value request.entry.route) made.0) }
    ensures head { IfOk result (λ made. string_bytes made.1 ≡ head_of made.0) }
{
    let reply = reply_for(alloc, source, request.route)?;
    let head = reply.head(alloc)?;
    Ok((reply, head))
}
