//! What may be after an identifier of arXiv.

ghost use Rattle.std.specs.Prelude.{◌≡◌, ◌≤◌, length};
ghost use Rattle.std.specs.Char.{is_ascii_digit};
ghost use Rattle.std.specs.List.{prefix_len, take_while};
ghost use Rattle.work_identifiers.specs.Places as spec;

use crate::ends::to_end;
use crate::forms::is_between;

/// Whether a text after an identifier says no more of it than its version and the ending of its file.
pub(crate) fn is_rest(rest: &[u8]) -> bool
    ensures { result ≡ spec.is_rest rest.now }
{
    is_ending(after_version(to_end(unmarked(rest))))
}

/// The text up to a query, a fragment or a subject class.
fn unmarked(rest: &[u8]) -> &[u8]
    ensures { result.now ≡ take_while spec.is_no_mark rest.now }
{
    rest.split_at(unmarked_length(rest)).0
}

/// What is after a version, or else the text.
fn after_version(text: &[u8]) -> &[u8]
    ensures { result.now ≡ spec.after_version text.now }
{
    match text {
        [] => text,
        [first, rest @ ..] => {
            let digits = digits_length(rest);
            if is_v(*first) && is_between(1, 3, digits) {
                rest.split_at(digits).1
            } else {
                text
            }
        }
    }
}

fn is_v(byte: u8) -> bool
    ensures { result ≡ spec.is_v byte }
{
    byte == b'v' || byte == b'V'
}

fn is_ending(text: &[u8]) -> bool
    ensures { result ≡ spec.is_ending text.now }
{
    text.is_empty()
        || text == b"/".as_slice()
        || b"pdf".eq_ignore_ascii_case(text)
        || b".pdf".eq_ignore_ascii_case(text)
}

fn is_no_mark(byte: u8) -> bool
    ensures { result ≡ spec.is_no_mark byte }
{
    !(byte == b'?' || byte == b'#' || byte == b'[')
}

/// How many bytes are before the first of these marks.
fn unmarked_length(text: &[u8]) -> usize
    ensures value { result ≡ prefix_len spec.is_no_mark text.now }
    ensures within { result ≤ length text.now }
{
    for (at, byte) in text.iter().enumerate() {
        if !is_no_mark(*byte) {
            return at;
        }
    }
    text.len()
}

/// How many digits a text begins with.
fn digits_length(text: &[u8]) -> usize
    ensures value { result ≡ prefix_len is_ascii_digit text.now }
    ensures within { result ≤ length text.now }
{
    for (at, byte) in text.iter().enumerate() {
        if !byte.is_ascii_digit() {
            return at;
        }
    }
    text.len()
}
