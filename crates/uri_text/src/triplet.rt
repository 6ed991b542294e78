//! Triplets: `%` and two hexadecimal digits (RFC 3986, section 2.1).

ghost use Rattle.std.specs.Prelude.{◌≡◌, ◌&&◌};
ghost use Rattle.text_model.specs.Texts.{is_hexadecimal, begins_with_triplet};

/// Whether both are hexadecimal digits, in upper or lower case.
pub(crate) fn are_hexadecimal(high: u8, low: u8) -> bool
    ensures { result ≡ (is_hexadecimal high && is_hexadecimal low) }
{
    high.is_ascii_hexdigit() && low.is_ascii_hexdigit()
}

/// Whether a whole triplet is at the beginning.
pub(crate) fn begins_with_triplet(text: &[u8]) -> bool
    ensures { result ≡ begins_with_triplet text.now }
{
    match text {
        [b'%', high, low, ..] => are_hexadecimal(*high, *low),
        _ => false,
    }
}
