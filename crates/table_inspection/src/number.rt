//! Identifiers in normal form, and which of them are ISSNs or ISBNs.

ghost use Rattle.std.specs.Prelude.{◌≡◌, ◌<◌, OnOk};
ghost use Rattle.std.specs.List.{list_all};
ghost use Rattle.std.specs.Char.{is_ascii_digit};
ghost use Rattle.std.specs.Option.{option_copied};
ghost use Rattle.kbart_rows.specs.Identifiers.{normalised as in_normal_form};
ghost use Rattle.table_inspection.specs.Identifiers as spec;
ghost use Rattle.table_inspection.specs.Private.Forms.{is_normal_byte as stays, normal_form};

use kbart_rows::write_normal;
use std::alloc::AllocError;

/// Writes the identifier of a cell as it is compared, without hyphens and spaces and in capital letters, in place of
/// the bytes in the vector; it is empty where the cell is undefined.
pub(crate) fn write_form(cell: Option<&str>, id: &mut Vec<u8>) -> Result<(), AllocError>
    ensures { OnOk result (id.new.items ≡ normal_form (option_copied cell.entry)) }
{
    match cell {
        Some(text) => write_text(text, id),
        None => {
            id.clear();
            Ok(())
        }
    }
}

/// Writes the normal form of a text, which is often the text itself.
fn write_text(text: &str, id: &mut Vec<u8>) -> Result<(), AllocError>
    ensures { OnOk result (id.new.items ≡ in_normal_form text.now) }
{
    if is_normal(text) {
        id.clear();
        id.extend_from_slice(text.as_bytes())?;
        return Ok(());
    }
    write_normal(text, id)
}

/// Whether no byte changes in the normal form.
fn is_normal(text: &str) -> bool
    ensures { result ≡ list_all stays text.now }
{
    text.as_bytes().iter().all(|b| is_normal_byte(*b))
}

fn is_normal_byte(b: u8) -> bool
    ensures { result ≡ stays b }
{
    b != b'-' && b != b' ' && !b.is_ascii_lowercase()
}

/// Whether an identifier in normal form is an ISSN or an ISBN, or the one that stands for any title. Check digits are
/// not computed.
pub(crate) fn is_number(id: &[u8]) -> bool
    ensures { result ≡ spec.is_number id.now }
{
    is_checked(id, 7) || is_checked(id, 9) || is_long_isbn(id) || id == b"ANY".as_slice()
}

/// Whether these are that many digits, followed by a digit or `X`.
fn is_checked(id: &[u8], digits: usize) -> bool
    requires { digits < 10 }
    ensures { result ≡ spec.is_checked digits id.now }
{
    id.len() == digits + 1 && are_digits(&id[..digits]) && is_check(id[digits])
}

fn is_long_isbn(id: &[u8]) -> bool
    ensures { result ≡ spec.is_long_isbn id.now }
{
    id.len() == 13
        && are_digits(id)
        && (&id[..3] == b"978".as_slice() || &id[..3] == b"979".as_slice())
}

fn is_check(b: u8) -> bool
    ensures { result ≡ spec.is_check b }
{
    b.is_ascii_digit() || b == b'X'
}

/// Whether all bytes are ASCII digits.
pub(crate) fn are_digits(bytes: &[u8]) -> bool
    ensures { result ≡ list_all is_ascii_digit bytes.now }
{
    bytes.iter().all(|b| b.is_ascii_digit())
}
