//! Values written in ASCII, the part of them that is searched for a number or a date, and texts that are read whole.

ghost use Rattle.std.specs.Prelude.{◌≡◌, IfOk, length, nat_le, take};
ghost use Rattle.openurl_reading.specs.Values as spec;

use std::alloc::{AllocError, Global};
use uri_text::Text;
use written_texts::{Role, read};

/// How many bytes of a value are searched.
const MOST_BYTES: usize = 200;

/// A value as a number, a date, a volume or a page is written in ASCII.
pub(crate) fn in_ascii(alloc: Global, value: &str) -> Result<Text, AllocError>
    ensures { IfOk result (λ text. text ≡ spec.in_ascii value.now) }
{
    read(alloc, Role::Number, value)
}

/// The first bytes of a text, which are searched.
pub(crate) fn searched(text: &Text) -> &[u8]
    ensures { result.now ≡ take spec.most_bytes text.now }
{
    let bytes = text.as_str().as_bytes();
    if bytes.len() <= MOST_BYTES {
        bytes
    } else {
        bytes.split_at(MOST_BYTES).0
    }
}

/// Whether a text is short enough to be read as a whole.
pub(crate) fn is_short(text: &[u8]) -> bool
    ensures { result ≡ nat_le (length text.now) spec.most_bytes }
{
    text.len() <= MOST_BYTES
}
