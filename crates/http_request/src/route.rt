//! Routes: the page that a request is for, or why there is none.

ghost use Rattle.std.specs.Prelude.{◌≡◌, ◌≤◌, length};
ghost use Rattle.http_request.specs.Routes as spec;

use crate::numbers::numbers_in;
use crate::target::{page_of, resource_of, split_query};

/// A page of the menu.
#[derive(Clone, Copy, Debug, PartialEq, Eq)]
pub enum Page {
    /// The links as HTML, at `/openurl`.
    Html,
    /// The links as plain text, at `/openurl.txt`.
    Text,
    /// The outcome of every target, at `/report`.
    Report,
}

/// The page that a request is for, or why there is none. The bytes of a query are as the peer sent them.
#[derive(Clone, Copy, Debug, PartialEq, Eq)]
pub enum Route<'a> {
    /// A page of the menu for the query.
    Menu { page: Page, query: &'a [u8] },
    /// The reading of the query of any source, at `/read`.
    Reading { query: &'a [u8] },
    /// The reading and the links of the query of any source, at `/menu.json`, or at `/menu.json/` and further numbers
    /// of its title, which have commas between them and are empty for none.
    Links { numbers: &'a str, query: &'a [u8] },
    /// The path is none of the pages.
    NotFound,
    /// The method is neither GET nor HEAD.
    MethodNotAllowed,
    /// There is no valid head, or it has a wrong number of Host fields or a target of another form.
    BadRequest,
    /// The head does not end within [`MAX_HEAD_BYTES`](http_streams::MAX_HEAD_BYTES) bytes.
    HeadTooLarge,
}

/// What the head of a request says (RFC 9112, section 3): its route, and whether the reply is sent without its body
/// because the method is HEAD.
#[derive(Clone, Copy, Debug, PartialEq, Eq)]
pub struct HttpRequest<'a> {
    /// The page that the request is for, or why there is none.
    pub route: Route<'a>,
    /// Whether the reply is sent without its body.
    pub without_body: bool,
}

/// The route of a target.
fn route_at(target: &[u8]) -> Route<'_>
    ensures route { spec.route_value result ≡ spec.route_at target.now }
    ensures query { spec.query_length (spec.route_value result) ≤ length target.now }
{
    let Some(resource) = resource_of(target) else {
        return Route::BadRequest;
    };
    let (path, query) = split_query(resource);
    match page_of(path) {
        Some(page) => Route::Menu { page, query },
        None => source_route(path, query),
    }
}

/// The route of a path that is no page of the menu.
#[tactic(auto, unfolding(crate::specs::Routes::source_route))]
fn source_route<'a>(path: &'a [u8], query: &'a [u8]) -> Route<'a>
    ensures route { spec.route_value result ≡ spec.source_route path.now query.now }
    ensures query { spec.query_length (spec.route_value result) ≤ length query.now }
{
    if path == b"/read".as_slice() {
        return Route::Reading { query };
    }
    if path == b"/menu.json".as_slice() {
        return Route::Links { numbers: "", query };
    }
    match numbers_in(path) {
        Some(numbers) => Route::Links { numbers, query },
        None => Route::NotFound,
    }
}

/// Whether a request of this minor version may have this number of Host fields.
fn is_right_host_count(minor: u8, hosts: usize) -> bool
    ensures { result ≡ spec.is_right_host_count minor hosts }
{
    hosts == 1 || (hosts == 0 && minor == 0)
}

/// Whether the method is HEAD.
pub(crate) fn is_head(method: &[u8]) -> bool
    ensures { result ≡ spec.is_head_method method.now }
{
    method == b"HEAD".as_slice()
}

/// The route of a method and a target, in a request of this minor version with this number of Host fields.
pub(crate) fn route_of<'a>(method: &[u8], target: &'a [u8], minor: u8, hosts: usize) -> Route<'a>
    ensures route { spec.route_value result ≡ spec.route_of method.now target.now minor hosts }
    ensures query { spec.query_length (spec.route_value result) ≤ length target.now }
{
    if !is_right_host_count(minor, hosts) {
        Route::BadRequest
    } else if method != b"GET".as_slice() && !is_head(method) {
        Route::MethodNotAllowed
    } else {
        route_at(target)
    }
}
