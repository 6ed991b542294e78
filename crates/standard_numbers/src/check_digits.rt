//! The sums of check digits.

ghost use Rattle.std.specs.Prelude.{◌≡◌, ◌≤◌, length};
ghost use Rattle.standard_numbers.specs.CheckDigits as spec;

/// The value of a digit; that of `X` is ten.
pub(crate) fn value(byte: u8) -> u32
    ensures { result ≡ spec.value byte }
{
    if byte == b'X' {
        10
    } else {
        u32::from(byte.saturating_sub(b'0'))
    }
}

/// The first value times the weight, the next one times one less, and so on.
pub(crate) fn weighted(weight: u32, digits: &[u8]) -> u32
    requires small { weight ≤ 10 }
    requires few { length digits.now ≤ 10 }
    ensures value { result ≡ spec.weighted weight digits.now }
    ensures bound { result ≤ 20700 }
{
    let mut sum = 0;
    let mut factor = weight;
    for byte in digits {
        sum += factor * value(*byte);
        factor = factor.saturating_sub(1);
    }
    sum
}

/// The values times 1 and 3 in turn.
pub(crate) fn alternating(digits: &[u8]) -> u32
    requires { length digits.now ≤ 13 }
    ensures { result ≡ spec.alternating 1 digits.now }
{
    let mut sum = 0;
    let mut weight = 1;
    for byte in digits {
        sum += weight * value(*byte);
        weight = 4 - weight;
    }
    sum
}
