//! Texts of sources.

ghost use Rattle.std.specs.Prelude.{◌≡◌, ◌<◌, ◌++◌, OnOk, drop, length, string_bytes};
ghost use Rattle.source_answers.specs.Shown as spec;

use printed_text::push_visible;
use std::alloc::AllocError;

/// Appends a text; if it has a control character, as [`push_visible`] does.
pub(crate) fn push_shown(out: &mut String, text: &str) -> Result<(), AllocError>
    ensures { OnOk result (string_bytes out.new ≡ string_bytes out.old ++ spec.shown text.now) }
{
    if has_control(text.as_bytes()) {
        push_visible(out, text.as_bytes())
    } else {
        out.push_str(text)
    }
}

/// Whether a text has a control character, of ASCII or one of U+0080 to U+009F.
fn has_control(text: &[u8]) -> bool
    ensures { result ≡ spec.has_control text.now }
{
    for index in 0..text.len() {
        if is_control(text[index]) || begins_with_control(&text[index..]) {
            return true;
        }
    }
    false
}

fn is_control(byte: u8) -> bool
    ensures { result ≡ spec.is_control byte }
{
    byte < 0x20 || byte == 0x7f
}

fn begins_with_control(text: &[u8]) -> bool
    ensures { result ≡ spec.begins_with_control text.now }
{
    matches!(text, [0xc2, next, ..] if *next < 0xa0) || text == b"\xc2".as_slice()
}
