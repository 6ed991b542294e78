//! Numbers of a title in a path.

ghost use Rattle.std.specs.Prelude.{◌≡◌, ◌<◌, IfNone, IfSome, None, count_by, length, not, option_map, position};
ghost use Rattle.std.specs.List.{after_first, before_first, list_all, position_or_len};
ghost use Rattle.http_request.specs.Numbers as spec;

use std::str::from_utf8;

/// The maximum number of further numbers in a path.
pub const MAX_NUMBERS: usize = 3;

/// Where the first comma is.
fn comma(text: &[u8]) -> Option<usize>
    ensures { result ≡ position spec.is_comma text.now }
{
    text.iter().position(|byte| *byte == b',')
}

fn is_number_byte(byte: u8) -> bool
    ensures { result ≡ spec.is_number_byte byte }
{
    byte.is_ascii_digit() || byte == b'X' || byte == b'-' || byte == b','
}

/// How many characters a number has without its hyphens.
fn characters(number: &[u8]) -> usize
    ensures { result ≡ count_by (λ b. not (spec.is_hyphen b)) number.now }
{
    let mut count: usize = 0;
    for byte in number {
        if *byte != b'-' {
            count += 1;
        }
    }
    count
}

/// Whether a number is as long as an ISSN or an ISBN.
fn has_number_length(number: &[u8]) -> bool
    ensures { result ≡ spec.has_number_length number.now }
{
    let count = characters(number);
    count == 8 || count == 10 || count == 13
}

/// The first number, and what follows its comma.
fn split_comma(text: &[u8]) -> Option<(&[u8], &[u8])>
    ensures none { IfNone result (position spec.is_comma text.now ≡ None) }
    ensures comma { IfSome result (λ _. position_or_len spec.is_comma text.now < length text.now) }
    ensures number { IfSome result (λ parts. parts.0.now ≡ before_first spec.is_comma text.now) }
    ensures rest { IfSome result (λ parts. parts.1.now ≡ after_first spec.is_comma text.now) }
{
    let end = comma(text)?;
    Some((&text[..end], &text[end + 1..]))
}

/// Whether there are no more numbers than there may be, and each is as long as one.
fn are_few(text: &[u8]) -> bool
    ensures { result ≡ spec.are_few MAX_NUMBERS text.now }
{
    let mut left = text;
    for _number in 0..MAX_NUMBERS {
        let Some((number, rest)) = split_comma(left) else {
            return has_number_length(left);
        };
        if !has_number_length(number) {
            return false;
        }
        left = rest;
    }
    false
}

/// Whether a text has no other bytes than numbers with commas between them.
fn has_number_bytes(text: &[u8]) -> bool
    ensures { result ≡ list_all spec.is_number_byte text.now }
{
    text.iter().all(|byte| is_number_byte(*byte))
}

/// Whether a text is numbers with commas between them.
fn are_numbers(text: &[u8]) -> bool
    ensures { result ≡ spec.are_numbers text.now }
{
    has_number_bytes(text) && are_few(text)
}

/// The text, if it is numbers.
fn numbers_if(text: &[u8]) -> Option<&str>
    ensures { option_map (λ numbers. numbers.now) result ≡ spec.numbers_if text.now }
{
    if are_numbers(text) {
        from_utf8(text).ok()
    } else {
        None
    }
}

/// The numbers at the end of a path, after `/menu.json/`.
pub(crate) fn numbers_in(path: &[u8]) -> Option<&str>
    ensures { option_map (λ numbers. numbers.now) result ≡ spec.numbers_in path.now }
{
    let before = b"/menu.json/";
    if path.starts_with(before) {
        numbers_if(&path[before.len()..])
    } else {
        None
    }
}
