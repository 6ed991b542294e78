//! The parts of targets.

ghost use Rattle.std.specs.Prelude.{◌≡◌, ◌≤◌, ◌<◌, ◌+◌, ◌-◌, length, slice_index, true};
ghost use Rattle.source_menus.specs.Parts as spec;

/// The target that a name of the registry is a part of: `press.2` to `press.999` are parts of `press`.
pub fn target_of(name: &str) -> &str
    ensures { result.now ≡ spec.target_of name.now }
{
    let digits = number_digits(name.as_bytes());
    if digits == 0 {
        name
    } else {
        &name[..name.len() - digits - 1]
    }
}

/// How many digits the number of a part has with which a name ends; 0 if it ends with none.
fn number_digits(name: &[u8]) -> usize
    ensures digits { result ≡ spec.number_digits name.now }
    ensures dot { 0 < result → (result + 1 < length name.now)
        × (slice_index name.now (length name.now - result - 1) ≡ 0x2e) }
{
    if has_number(name, 1) {
        1
    } else if has_number(name, 2) {
        2
    } else if has_number(name, 3) {
        3
    } else {
        0
    }
}

/// Whether a name ends with the number of a part, of that many digits.
fn has_number(name: &[u8], digits: usize) -> bool
    requires { digits ≤ 3 }
    ensures number { result ≡ spec.has_number digits name.now }
    ensures dot { result ≡ true → (digits + 1 < length name.now)
        × (slice_index name.now (length name.now - digits - 1) ≡ 0x2e) }
{
    if name.len() <= digits + 1 {
        return false;
    }
    let (front, number) = name.split_at(name.len() - digits);
    front[front.len() - 1] == b'.' && is_part_number(number)
}

/// Whether a text is digits, without a zero before them, and not `1`.
fn is_part_number(number: &[u8]) -> bool
    ensures { result ≡ spec.is_part_number number.now }
{
    are_digits(number) && !number.starts_with(b"0") && number != b"1".as_slice()
}

fn are_digits(number: &[u8]) -> bool
    ensures { result ≡ spec.are_digits number.now }
{
    number.iter().all(|byte| byte.is_ascii_digit())
}
