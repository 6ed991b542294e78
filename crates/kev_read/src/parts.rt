//! Where the key and the value of a pair end in a query.

ghost use Rattle.std.specs.Prelude.{◌≡◌, ◌≢◌, ◌<◌, ◌≤◌, ◌⊎◌, ◌↔◌, true, All, IsTrue, length, slice_index, take};
ghost use Rattle.form_urlencoded.specs.Form.{ampersand, equals_sign};
ghost use Rattle.kev_read.specs.Private.Ordinary.{IsOrdinary};

use crate::ordinary::ordinary_len;
use memchr::memchr;

/// How many bytes come before the `=` or the `&` that ends a key, or before the end; and whether they are known to be
/// ordinary.
#[inline(always)]
pub(crate) fn key_part(rest: &[u8]) -> (usize, bool)
    ensures within { result.0 ≤ length rest.now }
    ensures lacks { All (λ byte. (byte ≢ ampersand) × (byte ≢ equals_sign)) (take result.0 rest.now) }
    ensures ends { result.0 < length rest.now
        → (slice_index rest.now result.0 ≡ ampersand) ⊎ (slice_index rest.now result.0 ≡ equals_sign) }
    ensures ordinary { result.1 ≡ true → All IsOrdinary (take result.0 rest.now) }
{
    let len = ordinary_len(rest);
    if len == rest.len() || ends_key(rest[len]) {
        (len, true)
    } else {
        (key_len(rest), false)
    }
}

/// How many bytes come before the `&` that ends a value, or before the end; and whether they are known to be ordinary.
#[inline(always)]
pub(crate) fn value_part(rest: &[u8]) -> (usize, bool)
    ensures within { result.0 ≤ length rest.now }
    ensures lacks { All (λ byte. byte ≢ ampersand) (take result.0 rest.now) }
    ensures ends { result.0 < length rest.now → slice_index rest.now result.0 ≡ ampersand }
    ensures ordinary { result.1 ≡ true → All IsOrdinary (take result.0 rest.now) }
{
    let len = ordinary_len(rest);
    if len == rest.len() || rest[len] == b'&' {
        (len, true)
    } else {
        (value_len(rest), false)
    }
}

#[inline(always)]
fn ends_key(byte: u8) -> bool
    ensures { IsTrue result ↔ ((byte ≡ ampersand) ⊎ (byte ≡ equals_sign)) }
{
    byte == b'&' || byte == b'='
}

/// How many bytes come before the first `=` or `&`, or before the end.
fn key_len(rest: &[u8]) -> usize
    ensures within { result ≤ length rest.now }
    ensures lacks { All (λ byte. (byte ≢ ampersand) × (byte ≢ equals_sign)) (take result rest.now) }
    ensures ends { result < length rest.now
        → (slice_index rest.now result ≡ ampersand) ⊎ (slice_index rest.now result ≡ equals_sign) }
{
    rest.iter()
        .position(|byte| ends_key(*byte))
        .unwrap_or(rest.len())
}

/// How many bytes come before the first `&`, or before the end.
fn value_len(rest: &[u8]) -> usize
    ensures within { result ≤ length rest.now }
    ensures lacks { All (λ byte. byte ≢ ampersand) (take result rest.now) }
    ensures ends { result < length rest.now → slice_index rest.now result ≡ ampersand }
{
    match memchr(b'&', rest) {
        Some(len) => len,
        None => rest.len(),
    }
}
