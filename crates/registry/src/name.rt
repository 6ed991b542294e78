//! Names of targets.

ghost use Rattle.std.specs.Prelude.{◌≡◌, ◌↔◌, IsTrue};
ghost use Rattle.menu.specs.Contained as spec;

/// The maximum length of a name, in bytes.
const MAX_NAME_BYTES: usize = 64;

/// Whether a byte is a letter, a digit, or one of `-_.`.
fn is_name_character(byte: u8) -> bool
    ensures { result ≡ spec.is_target_name_character byte }
{
    byte.is_ascii_alphanumeric() || byte == b'-' || byte == b'_' || byte == b'.'
}

/// Whether a text can be the name of a target: 1 to 64 ASCII letters, digits, `-`, `_` and `.`.
pub(crate) fn is_target_name(name: &str) -> bool
    ensures { IsTrue result ↔ spec.IsTargetName name.now }
{
    let name = name.as_bytes();
    !name.is_empty()
        && name.len() <= MAX_NAME_BYTES
        && name.iter().all(|byte| is_name_character(*byte))
}
