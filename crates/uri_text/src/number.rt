//! The number that a text begins with.

ghost use Rattle.std.specs.Prelude.{◌≡◌, ◌<◌, ◌^◌, IfSome};
ghost use Rattle.text_model.specs.Number.{leading_number};

/// The value of the decimal digits with which the text begins, if there are 1 to 9; `None` if there are none, or ten or
/// more. Leading zeros count as digits.
///
/// At most ten bytes of the text are read.
pub fn leading_number(text: &[u8]) -> Option<u32>
    ensures value { result ≡ leading_number text.now }
    ensures below { IfSome result (λ number. number < 10 ^ 9) }
{
    let mut number = 0;
    for (count, byte) in text.iter().enumerate() {
        if !byte.is_ascii_digit() {
            return (count > 0).then_some(number);
        }
        if count == 9 {
            return None;
        }
        number = 10 * number + u32::from(byte - b'0');
    }
    (!text.is_empty()).then_some(number)
}
