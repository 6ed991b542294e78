//! The two percent-encodings of a text, U and UR.

ghost use Rattle.std.specs.Prelude.{◌≡◌, ◌+◌, ◌*◌, ◌<◌, ◌≤◌, ◌++◌, length};
ghost use Rattle.std.specs.Prelude.{string_bytes, string_len, string_capacity, vec_len, vec_capacity};
ghost use Rattle.std.specs.Str.{IsUtf8};
ghost use Rattle.text_model.specs.Writing.{written, written_u, written_ur, written_byte};
ghost use Rattle.text_model.specs.UriText.{IsUriText};
ghost use Rattle.uri_text.specs.Private.Copied.{is_copied};

use crate::classes::{high_digit, is_unreserved, is_unreserved_or_reserved, low_digit};
use crate::triplet::begins_with_triplet;
use std::mem;
use text_model::Writing;

/// Takes the bytes of a string, which `put_back` returns to it. The functions between them hold the vector in a
/// variable of their own: its length then stays in a register.
fn take_bytes(out: &mut String) -> Vec<u8>
    ensures items { result.items ≡ string_bytes out.old }
    ensures len { vec_len result ≡ string_len out.old }
    ensures capacity { vec_capacity result ≡ string_capacity out.old }
{
    let empty = String::new(*out.allocator());
    mem::replace(out, empty).into_bytes()
}

fn put_back(out: &mut String, bytes: Vec<u8>)
    requires { IsUtf8 bytes.items }
    ensures bytes { string_bytes out.new ≡ bytes.items }
    ensures len { string_len out.new ≡ vec_len bytes }
    ensures capacity { string_capacity out.new ≡ vec_capacity bytes }
{
    *out = unsafe { String::from_utf8_unchecked(bytes) };
}

/// Appends a byte, as it is or as its triplet.
#[inline(always)]
fn push_byte(bytes: &mut Vec<u8>, byte: u8, stays: bool)
    requires room { vec_len bytes.old + length (written_byte stays byte) ≤ vec_capacity bytes.old }
    ensures items { bytes.new.items ≡ bytes.old.items ++ written_byte stays byte }
    ensures len { vec_len bytes.new ≡ vec_len bytes.old + length (written_byte stays byte) }
    ensures capacity { vec_capacity bytes.new ≡ vec_capacity bytes.old }
{
    if stays {
        bytes.push_reserved(byte);
    } else {
        bytes.push_reserved(b'%');
        bytes.push_reserved(high_digit(byte));
        bytes.push_reserved(low_digit(byte));
    }
}

/// Whether the first byte is copied: one that may stay or, by UR, the `%` of a triplet. The digits of a triplet are
/// unreserved.
#[inline(always)]
fn is_copied(text: &[u8], writing: Writing) -> bool
    requires { 0 < length text.now }
    ensures { result ≡ is_copied writing text.now }
{
    match writing {
        Writing::U => is_unreserved(text[0]),
        Writing::UR => is_unreserved_or_reserved(text[0]) || begins_with_triplet(text),
    }
}

/// Appends the first byte encoded. Returns what is left.
#[inline(always)]
fn push_first<'t>(bytes: &mut Vec<u8>, text: &'t [u8], writing: Writing) -> &'t [u8]
    requires some { 0 < length text.now }
    requires room { vec_len bytes.old + length (written writing text.now) ≤ vec_capacity bytes.old }
    ensures shorter { length result.now < length text.now }
    ensures items { bytes.new.items ++ written writing result.now ≡ bytes.old.items ++ written writing text.now }
    ensures len { vec_len bytes.new + length (written writing result.now) ≡ vec_len bytes.old
        + length (written writing text.now) }
    ensures capacity { vec_capacity bytes.new ≡ vec_capacity bytes.old }
{
    let (first, rest) = text.split_at(1);
    push_byte(bytes, first[0], is_copied(text, writing));
    rest
}

/// Appends the text encoded. Each call names its writing, for which the loop is compiled.
#[inline(always)]
fn push_text(out: &mut String, text: &[u8], writing: Writing)
    requires room { string_len out.old + length (written writing text.now) ≤ string_capacity out.old }
    ensures bytes { string_bytes out.new ≡ string_bytes out.old ++ written writing text.now }
    ensures len { string_len out.new ≡ string_len out.old + length (written writing text.now) }
    ensures capacity { string_capacity out.old ≤ string_capacity out.new }
    ensures at_most_triples { length (written writing text.now) ≤ 3 * length text.now }
    ensures uri_text { IsUriText (written writing text.now) }
{
    let mut bytes = take_bytes(out);
    let mut rest = text;
    while !rest.is_empty() {
        rest = push_first(&mut bytes, rest, writing);
    }
    put_back(out, bytes);
}

/// Appends the text encoded by U: unreserved characters stay, and every other byte becomes a triplet with upper-case
/// digits (RFC 6570, section 3.2.1, where `allow` is U).
///
/// It allocates nothing: `out` must have spare capacity for what is appended, which is at most three bytes for each
/// byte of the text.
pub fn encode_u(out: &mut String, text: &[u8])
    requires room { string_len out.old + length (written_u text.now) ≤ string_capacity out.old }
    ensures bytes { string_bytes out.new ≡ string_bytes out.old ++ written_u text.now }
    ensures len { string_len out.new ≡ string_len out.old + length (written_u text.now) }
    ensures capacity { string_capacity out.old ≤ string_capacity out.new }
    ensures at_most_triples { length (written_u text.now) ≤ 3 * length text.now }
    ensures uri_text { IsUriText (written_u text.now) }
{
    push_text(out, text, Writing::U)
}

/// Appends the text encoded by UR: unreserved and reserved characters and whole triplets stay, and every other byte
/// becomes a triplet with upper-case digits (RFC 6570, section 3.2.1, where `allow` is U+R).
///
/// It allocates nothing: `out` must have spare capacity for what is appended, which is at most three bytes for each
/// byte of the text.
pub fn encode_ur(out: &mut String, text: &[u8])
    requires room { string_len out.old + length (written_ur text.now) ≤ string_capacity out.old }
    ensures bytes { string_bytes out.new ≡ string_bytes out.old ++ written_ur text.now }
    ensures len { string_len out.new ≡ string_len out.old + length (written_ur text.now) }
    ensures capacity { string_capacity out.old ≤ string_capacity out.new }
    ensures at_most_triples { length (written_ur text.now) ≤ 3 * length text.now }
    ensures uri_text { IsUriText (written_ur text.now) }
{
    push_text(out, text, Writing::UR)
}

/// Appends the text encoded by U or by UR, as [`encode_u`] and [`encode_ur`] do.
pub fn encode(out: &mut String, text: &[u8], writing: Writing)
    requires room { string_len out.old + length (written writing text.now) ≤ string_capacity out.old }
    ensures bytes { string_bytes out.new ≡ string_bytes out.old ++ written writing text.now }
    ensures len { string_len out.new ≡ string_len out.old + length (written writing text.now) }
    ensures capacity { string_capacity out.old ≤ string_capacity out.new }
    ensures at_most_triples { length (written writing text.now) ≤ 3 * length text.now }
    ensures uri_text { IsUriText (written writing text.now) }
{
    match writing {
        Writing::U => encode_u(out, text),
        Writing::UR => encode_ur(out, text),
    }
}
