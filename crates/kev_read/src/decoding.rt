//! Decoding the names and values of a form (URL Standard, section 5.1).

ghost use Rattle.std.specs.Prelude.{◌≡◌, ◌+◌, ◌<◌, ◌≤◌, ◌++◌, ◌∷◌, IsUtf8, MatchOption, OnOk, drop};
ghost use Rattle.std.specs.Prelude.{length, slice_index, true, vec_capacity, vec_len};
ghost use Rattle.std.specs.Char.{digit_value};
ghost use Rattle.form_urlencoded.specs.Form as form;
ghost use Rattle.kev_read.specs.Pairs.{decoded};

use form_urlencoded::decode;
use std::alloc::AllocError;
use std::mem;
use std::str::from_utf8;

/// For each hexadecimal digit the character that comes as long after `@` as its value says, and `-` for the others.
static DIGITS: [u8; 256] = *b"\
    --------------------------------\
    ----------------@ABCDEFGHI------\
    -JKLMNO-------------------------\
    -JKLMNO-------------------------\
    --------------------------------\
    --------------------------------\
    --------------------------------\
    --------------------------------";

/// Appends the text that a form's name or value encodes, with U+FFFD for bytes that are not UTF-8.
pub(crate) fn push_decoded(out: &mut Vec<u8>, input: &[u8]) -> Result<(), AllocError>
    ensures ok { OnOk result (out.new.items ≡ out.old.items ++ decoded input.now) }
    ensures utf8 { OnOk result (IsUtf8 (decoded input.now)) }
{
    out.reserve(input.len())?;
    let start = out.len();
    append_decoded(out, input);
    if are_utf8(&out[start..]) {
        return Ok(());
    }
    out.truncate(start);
    let text = decode(*out.allocator(), input)?;
    out.extend_from_slice(text.as_str().as_bytes())
}

/// Whether the bytes are UTF-8. Most are ASCII, which takes less time to see.
fn are_utf8(bytes: &[u8]) -> bool
    ensures { result ≡ true → IsUtf8 bytes.now }
{
    bytes.is_ascii() || from_utf8(bytes).is_ok()
}

/// Appends the decoded bytes.
fn append_decoded(out: &mut Vec<u8>, input: &[u8])
    requires room { vec_len out.old + length input.now ≤ vec_capacity out.old }
    ensures { out.new.items ≡ out.old.items ++ form.decode input.now }
{
    // The loop has the vector in a variable of its own, so its length stays in a register.
    let empty = Vec::new(*out.allocator());
    let mut bytes = mem::replace(out, empty);
    let mut rest = input;
    while !rest.is_empty() {
        rest = push_first(&mut bytes, rest);
    }
    *out = bytes;
}

/// Appends the first of the decoded bytes. Returns what is left.
#[inline(always)]
fn push_first<'t>(bytes: &mut Vec<u8>, input: &'t [u8]) -> &'t [u8]
    requires some { 0 < length input.now }
    requires room { vec_len bytes.old + length input.now ≤ vec_capacity bytes.old }
    ensures shorter { length result.now < length input.now }
    ensures items { bytes.new.items ++ form.decode result.now ≡ bytes.old.items ++ form.decode input.now }
    ensures room { vec_len bytes.new + length result.now ≤ vec_capacity bytes.new }
{
    if input[0] != b'%' {
        bytes.push_reserved(plus_to_space(input[0]));
        return input.split_at(1).1;
    }
    match escaped_byte(input) {
        Some(byte) => {
            bytes.push_reserved(byte);
            input.split_at(3).1
        }
        None => {
            bytes.push_reserved(b'%');
            input.split_at(1).1
        }
    }
}

/// The byte of the escape with which the input begins: `%` and two hexadecimal digits.
#[inline(always)]
fn escaped_byte(input: &[u8]) -> Option<u8>
    ensures { MatchOption result
        (0 < length input.now
        → form.decode input.now ≡ form.plus_to_space (slice_index input.now 0) ∷ form.decode (drop 1 input.now))
        (λ byte. (3 ≤ length input.now) × (form.decode input.now ≡ byte ∷ form.decode (drop 3 input.now))) }
{
    let [b'%', high, low, ..] = input else {
        return None;
    };
    let high = digit(*high)?;
    let low = digit(*low)?;
    Some(high * 16 + low)
}

/// The value of a hexadecimal digit.
#[inline(always)]
fn digit(byte: u8) -> Option<u8>
    ensures { MatchOption result (16 ≤ digit_value byte) (λ value. (value < 16) × (value ≡ digit_value byte)) }
{
    let code = DIGITS[byte as usize];
    if code < b'@' { None } else { Some(code - b'@') }
}

#[inline(always)]
fn plus_to_space(byte: u8) -> u8
    ensures { result ≡ form.plus_to_space byte }
{
    if byte == b'+' { b' ' } else { byte }
}
