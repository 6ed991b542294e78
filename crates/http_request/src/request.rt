//! The request that bytes begin with.

ghost use Rattle.std.specs.Prelude.{◌≡◌, ◌<◌, ◌≤◌, ℕ, List, length, IfNone, IfSome};
ghost use Rattle.httparse.specs.Grammar.{ReadsRequest, RequestHead};
ghost use Rattle.httparse.specs.Spans.{IsRequestAt, IsRequestWithin};
ghost use Rattle.http_request.specs.Routes.{IsRouted, query_length, route_value, route_without_head};

use crate::host::host_count;
use crate::route::{HttpRequest, Route, is_head, route_of};
use http_streams::{MAX_HEAD_BYTES, is_closed};
use httparse::Status;
use httparse::spans::{EMPTY_HEADER_SPAN, HeaderSpan, RequestSpans, parse_request};

/// The maximum number of fields of a head.
pub const MAX_FIELDS: usize = 128;

/// The spans of the head that the bytes begin with, if there is one and `fields` has room for its fields.
fn find_head(bytes: &[u8], fields: &mut [HeaderSpan]) -> Option<RequestSpans>
    ensures found { IfSome result (λ spans. (head : RequestHead) × IsRequestAt bytes.now fields.new spans head
        × (length head.fields ≤ length fields.old)) }
    ensures within { IfSome result (IsRequestWithin bytes.now fields.new) }
    ensures none { IfNone result ((head : RequestHead) (rest : List ℕ) → ReadsRequest bytes.now head rest
        → length fields.old < length head.fields) }
{
    match parse_request(bytes, fields) {
        Ok(Status::Complete(spans)) => Some(spans),
        _ => None,
    }
}

/// The route of bytes that begin with no such head.
fn route_without_head(bytes: &[u8]) -> Route<'_>
    ensures { route_value result ≡ route_without_head bytes.now }
{
    if bytes.len() == MAX_HEAD_BYTES && !is_closed(bytes) {
        Route::HeadTooLarge
    } else {
        Route::BadRequest
    }
}

/// The request that the bytes begin with (RFC 9112, section 2.1). Bytes after its head are ignored.
///
/// If there is no page, the first of these reasons is the route: the bytes begin with no head of at most [`MAX_FIELDS`]
/// fields (too large if there are [`MAX_HEAD_BYTES`] bytes without an empty line, and otherwise bad); there is not
/// exactly one Host field, or more than one in HTTP/1.0 (section 3.2); the method is neither GET nor HEAD; the target
/// begins neither with `/` nor with `http://` or `https://` and an authority (sections 3.2.1 and 3.2.2); its path is
/// none of the pages. Nothing is allocated.
///
/// Differences from RFC 9112, each with its test in `tests/commands/test_requests_over_http.py`:
/// - Only the versions 1.0 and 1.1 are accepted, so HTTP/1.2 is a bad request (`test_whole_requests`).
/// - Of the methods only GET and HEAD are served (`test_methods_and_targets`).
/// - The value of the Host field is not examined, only the number of Host fields (`test_whole_requests`).
/// - A target is a path or an absolute URI with the scheme `http` or `https`; nothing in it is decoded
///   (`test_methods_and_targets`).
/// - A head has at most 128 fields (`test_limits`).
pub fn read_request(bytes: &[u8]) -> HttpRequest<'_>
    ensures route { IsRouted bytes.now (route_value result.route) result.without_body }
    ensures query { query_length (route_value result.route) ≤ length bytes.now }
    ensures limit { MAX_FIELDS ≡ 128 }
{
    let mut fields = [EMPTY_HEADER_SPAN; MAX_FIELDS];
    let Some(spans) = find_head(bytes, &mut fields) else {
        return HttpRequest {
            route: route_without_head(bytes),
            without_body: false,
        };
    };
    let method = spans.method.of(bytes);
    let hosts = host_count(bytes, &fields, spans.len, spans.headers);
    HttpRequest {
        route: route_of(method, spans.path.of(bytes), spans.version, hosts),
        without_body: is_head(method),
    }
}
