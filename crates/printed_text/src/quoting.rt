//! Bytes in printable ASCII.

ghost use Rattle.std.specs.Prelude.{◌≡◌, ◌++◌, OnOk, string_bytes};
ghost use Rattle.std.specs.List.{flat_map};
ghost use Rattle.printed_text.specs.Printed.{byte_text, escape, is_plain, visible_byte};
ghost use Rattle.printed_text.specs.Printed.{quoted, shortened, visible};

use std::alloc::AllocError;

/// The maximum number of bytes of a text that [`push_shortened`] shows.
pub const MAX_SHOWN: usize = 60;

/// Appends the bytes in quotation marks. Bytes outside printable ASCII, quotation marks and backslashes are
/// written as `\x` and two hexadecimal digits.
pub fn push_quoted(out: &mut String, bytes: &[u8]) -> Result<(), AllocError>
    ensures { OnOk result (string_bytes out.new ≡ string_bytes out.old ++ quoted bytes.now) }
{
    out.push('"')?;
    push_bytes(out, bytes)?;
    out.push('"')
}

/// Appends the first [`MAX_SHOWN`] bytes as [`push_quoted`] does, and `...` if there are more.
pub fn push_shortened(out: &mut String, bytes: &[u8]) -> Result<(), AllocError>
    ensures { OnOk result (string_bytes out.new ≡ string_bytes out.old ++ shortened bytes.now) }
{
    if bytes.len() <= MAX_SHOWN {
        return push_quoted(out, bytes);
    }
    push_quoted(out, bytes.split_at(MAX_SHOWN).0)?;
    out.push_str("...")
}

/// Appends the bytes; those outside printable ASCII are written as `\x` and two hexadecimal digits.
pub fn push_visible(out: &mut String, bytes: &[u8]) -> Result<(), AllocError>
    ensures { OnOk result (string_bytes out.new ≡ string_bytes out.old ++ visible bytes.now) }
{
    for b in bytes {
        push_visible_byte(out, *b)?;
    }
    Ok(())
}

/// Appends what [`push_quoted`] writes between the quotation marks.
fn push_bytes(out: &mut String, bytes: &[u8]) -> Result<(), AllocError>
    ensures { OnOk result (string_bytes out.new ≡ string_bytes out.old ++ flat_map byte_text bytes.now) }
{
    for b in bytes {
        push_byte(out, *b)?;
    }
    Ok(())
}

fn push_visible_byte(out: &mut String, b: u8) -> Result<(), AllocError>
    ensures { OnOk result (string_bytes out.new ≡ string_bytes out.old ++ visible_byte b) }
{
    if (0x20..=0x7e).contains(&b) {
        out.push(char::from(b))
    } else {
        push_escape(out, b)
    }
}

fn push_byte(out: &mut String, b: u8) -> Result<(), AllocError>
    ensures { OnOk result (string_bytes out.new ≡ string_bytes out.old ++ byte_text b) }
{
    if shows_itself(b) {
        out.push(char::from(b))
    } else {
        push_escape(out, b)
    }
}

fn push_escape(out: &mut String, b: u8) -> Result<(), AllocError>
    ensures { OnOk result (string_bytes out.new ≡ string_bytes out.old ++ escape b) }
{
    let high = b / 16;
    let low = b % 16;
    write!(out, "\\x{high:x}{low:x}")
}

fn shows_itself(b: u8) -> bool
    ensures { result ≡ is_plain b }
{
    (0x20..=0x7e).contains(&b) && b != b'"' && b != b'\\'
}
