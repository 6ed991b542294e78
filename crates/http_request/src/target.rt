//! The target of a request (RFC 9112, section 3.2).

ghost use Rattle.std.specs.Prelude.{◌≡◌, ◌≤◌, ◌||◌, IfSome, length, position};
ghost use Rattle.std.specs.Option.{option_copied};
ghost use Rattle.http_request.specs.Target as spec;

use crate::route::Page;
use uri_text::begins_in_any_case;

/// Where the authority at the beginning ends: at the first `/` or `?`.
fn authority_end(bytes: &[u8]) -> Option<usize>
    ensures { result ≡ position (λ b. spec.is_slash b || spec.is_question_mark b) bytes.now }
{
    bytes.iter().position(|byte| *byte == b'/' || *byte == b'?')
}

/// How many bytes the authority at the beginning has.
#[tactic(auto, using(text_model::proofs::Lists::index_or_length))]
fn authority_length(bytes: &[u8]) -> usize
    ensures length { result ≡ spec.authority_length bytes.now }
    ensures within { result ≤ length bytes.now }
{
    authority_end(bytes).unwrap_or(bytes.len())
}

/// What follows the authority, if that is not empty.
fn after_authority(bytes: &[u8]) -> Option<&[u8]>
    ensures after { option_copied result ≡ spec.after_authority bytes.now }
    ensures within { IfSome result (λ rest. length rest.now ≤ length bytes.now) }
{
    match authority_length(bytes) {
        0 => None,
        length => Some(&bytes[length..]),
    }
}

/// What follows the scheme, whose letters may be in either case.
fn after_scheme<'a>(target: &'a [u8], scheme: &[u8]) -> Option<&'a [u8]>
    ensures after { option_copied result ≡ spec.after_scheme scheme.now target.now }
    ensures within { IfSome result (λ rest. length rest.now ≤ length target.now) }
{
    if begins_in_any_case(target, scheme) {
        Some(&target[scheme.len()..])
    } else {
        None
    }
}

/// The path and the query of a target in origin form, or in absolute form with the scheme `http` or `https`. `None` for
/// any other target.
pub(crate) fn resource_of(target: &[u8]) -> Option<&[u8]>
    ensures resource { option_copied result ≡ spec.resource_of target.now }
    ensures within { IfSome result (λ resource. length resource.now ≤ length target.now) }
{
    if target.first() == Some(&b'/') {
        return Some(target);
    }
    match after_scheme(target, b"http://") {
        Some(rest) => after_authority(rest),
        None => after_authority(after_scheme(target, b"https://")?),
    }
}

/// Where the `?` before the query is.
fn query_mark(resource: &[u8]) -> Option<usize>
    ensures { result ≡ position spec.is_question_mark resource.now }
{
    resource.iter().position(|byte| *byte == b'?')
}

/// The path, which is what comes before the first `?`, and the query after it.
pub(crate) fn split_query(resource: &[u8]) -> (&[u8], &[u8])
    ensures path { result.0.now ≡ spec.path_of resource.now }
    ensures query { result.1.now ≡ spec.query_of resource.now }
{
    match query_mark(resource) {
        Some(end) => (&resource[..end], &resource[end + 1..]),
        None => (resource, &[]),
    }
}

/// The page at a path.
pub(crate) fn page_of(path: &[u8]) -> Option<Page>
    ensures { result ≡ spec.page_of path.now }
{
    if path == b"/openurl".as_slice() {
        Some(Page::Html)
    } else if path == b"/openurl.txt".as_slice() {
        Some(Page::Text)
    } else if path == b"/report".as_slice() {
        Some(Page::Report)
    } else {
        None
    }
}
