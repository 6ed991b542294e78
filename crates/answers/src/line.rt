//! A line of output.

ghost use Rattle.std.specs.Prelude.{◌≡◌, ◌++◌, ◌∷◌, [], IfOk, string_bytes};

use std::alloc::AllocError;

/// The text with a line feed after it.
pub(crate) fn ended(text: String) -> Result<String, AllocError>
    ensures { IfOk result (λ line. string_bytes line ≡ string_bytes text ++ 10 ∷ []) }
{
    let mut line = text;
    line.push('\n')?;
    Ok(line)
}
