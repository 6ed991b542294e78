//! Groups in braces.

ghost use Rattle.std.specs.Prelude.{◌≡◌, ◌<◌, ◌++◌, length, false, OnOk};
ghost use Rattle.std.specs.Option.{IfSome};
ghost use Rattle.latex_text.specs.Groups as spec;

use std::alloc::AllocError;

/// How many bytes are before the end of a group, if no command and no other group is before it.
pub(crate) fn closing_at(text: &[u8]) -> Option<usize>
    ensures value { result ≡ spec.closing_at false text.now }
    ensures within { IfSome result (λ at. at < length text.now) }
{
    let mut in_formula = false;
    for (at, byte) in text.iter().enumerate() {
        if in_formula {
            in_formula = *byte != b'$';
        } else if *byte == b'}' {
            return Some(at);
        } else if *byte == b'\\' || *byte == b'{' {
            return None;
        } else {
            in_formula = *byte == b'$';
        }
    }
    None
}

/// Appends a text without the braces of the group with which it begins.
pub(crate) fn push_ungrouped(text: &mut Vec<u8>, rest: &[u8]) -> Result<(), AllocError>
    ensures { OnOk result (text.new.items ≡ text.old.items ++ spec.ungrouped rest.now) }
{
    if let [b'{', inner @ ..] = rest {
        if let Some(at) = closing_at(inner) {
            text.extend_from_slice(inner.split_at(at).0)?;
            text.extend_from_slice(inner.split_at(at + 1).1)?;
            return Ok(());
        }
    }
    text.extend_from_slice(rest)?;
    Ok(())
}
