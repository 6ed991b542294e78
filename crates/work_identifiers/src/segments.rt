//! The part of an address that would be an identifier.

ghost use Rattle.std.specs.Prelude.{◌≡◌, ◌≤◌, length};
ghost use Rattle.std.specs.List.{prefix_len, take_while};
ghost use Rattle.work_identifiers.specs.Places as spec;

use crate::ends::{byte_at, from_start};
use crate::namespace::Namespace;
use uri_text::begins_in_any_case;

/// How many bytes a proxy may write after a host.
const LONGEST_PROXY: usize = 80;

/// The part of the rest of an address that would be its identifier.
pub(crate) fn segment(namespace: Namespace, rest: &[u8]) -> &[u8]
    ensures { result.now ≡ spec.segment namespace rest.now }
{
    match namespace {
        Namespace::Doi => after_host(rest),
        Namespace::Arxiv => rest,
        Namespace::Oclc => path_part(after_title(rest)),
        Namespace::Pmid | Namespace::Pmc => rest.split_at(word_length(rest)).0,
    }
}

/// The text from the last bytes of its host on, as many as `worldcat.org` has.
pub(crate) fn from_site(text: &[u8]) -> &[u8]
    ensures { result.now ≡ spec.from_site text.now }
{
    text.split_at(host_length(text).saturating_sub(12)).1
}

/// What is after the rest of a host, such as the name of a proxy, and a slash.
fn after_host(rest: &[u8]) -> &[u8]
    ensures { result.now ≡ spec.after_host rest.now }
{
    let host = host_length(rest);
    if host <= LONGEST_PROXY && byte_at(rest, host) == b'/' {
        from_start(rest.split_at(host + 1).1)
    } else {
        b""
    }
}

/// What is after a title and `/oclc/`, or else the text.
fn after_title(rest: &[u8]) -> &[u8]
    ensures { result.now ≡ spec.after_title rest.now }
{
    let (title, more) = rest.split_at(path_length(rest));
    if begins_in_any_case(more, b"/oclc/") {
        rest.split_at(title.len() + 6).1
    } else {
        rest
    }
}

/// The part of the path with which the rest of an address begins.
fn path_part(rest: &[u8]) -> &[u8]
    ensures { result.now ≡ take_while spec.is_path_byte rest.now }
{
    rest.split_at(path_length(rest)).0
}

fn is_word_byte(byte: u8) -> bool
    ensures { result ≡ spec.is_word_byte byte }
{
    byte.is_ascii_alphanumeric() || byte == b'_'
}

fn is_host_byte(byte: u8) -> bool
    ensures { result ≡ spec.is_host_byte byte }
{
    is_word_byte(byte) || byte == b'.' || byte == b'-'
}

fn is_path_byte(byte: u8) -> bool
    ensures { result ≡ spec.is_path_byte byte }
{
    !(byte == b'/' || byte == b'?' || byte == b'#' || byte == b'&')
}

/// How many letters, digits and underscores a text begins with.
fn word_length(text: &[u8]) -> usize
    ensures value { result ≡ prefix_len spec.is_word_byte text.now }
    ensures within { result ≤ length text.now }
{
    for (at, byte) in text.iter().enumerate() {
        if !is_word_byte(*byte) {
            return at;
        }
    }
    text.len()
}

/// How many of these, full stops and hyphens a text begins with.
fn host_length(text: &[u8]) -> usize
    ensures value { result ≡ prefix_len spec.is_host_byte text.now }
    ensures within { result ≤ length text.now }
{
    for (at, byte) in text.iter().enumerate() {
        if !is_host_byte(*byte) {
            return at;
        }
    }
    text.len()
}

/// How many bytes are before the first of `/?#&`.
fn path_length(text: &[u8]) -> usize
    ensures value { result ≡ prefix_len spec.is_path_byte text.now }
    ensures within { result ≤ length text.now }
{
    for (at, byte) in text.iter().enumerate() {
        if !is_path_byte(*byte) {
            return at;
        }
    }
    text.len()
}
