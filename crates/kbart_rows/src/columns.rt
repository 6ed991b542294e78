//! The columns of a header, by name.

ghost use Rattle.std.specs.Prelude.{◌≡◌, ◌==◌, IfOk, OnOk, Some, false, string_bytes, if◌then◌else◌};
ghost use Rattle.std.specs.HashMap.{get_by_text, hasher_of};
ghost use Rattle.std.specs.Option.{option_map_or, unwrap_or};
ghost use Rattle.std.specs.Str.{bytes_eq};
ghost use Rattle.text_model.specs.Texts.{Text};
ghost use Rattle.kbart_rows.specs.Cells.{column_of};
ghost use Rattle.kbart_rows.specs.Lines.{cells_in};
ghost use Rattle.kbart_rows.specs.Private.Kept as spec;

use crate::cells::next_cell;
use crate::keys::Keys;
use crate::row_cursor::RowCursor;
use std::alloc::{AllocError, Global};
use std::collections::HashMap;

/// The first column of each name in the line of a header.
pub(crate) fn columns_of(
    alloc: Global,
    header: &str,
    keys: Keys,
) -> Result<HashMap<String, usize, Keys>, AllocError>
    ensures columns { IfOk result (λ columns. (name : Text)
        → get_by_text columns name ≡ column_of (cells_in header.now) name) }
    ensures keyed { IfOk result (λ columns. hasher_of columns ≡ keys) }
{
    let mut columns = HashMap::with_hasher(alloc, keys);
    let mut column: usize = 0;
    let mut rest = header;
    while let Some((name, others)) = next_cell(rest) {
        add_name(&mut columns, String::from_str(alloc, name)?, column)?;
        column += 1;
        rest = others;
    }
    Ok(columns)
}

/// Adds a column under its name, unless an earlier column has the name.
fn add_name(
    columns: &mut HashMap<String, usize, Keys>,
    name: String,
    column: usize,
) -> Result<(), AllocError>
    ensures added { OnOk result ((other : Text) → get_by_text columns.new other
        ≡ (if bytes_eq other (string_bytes name) then Some (unwrap_or (get_by_text columns.old other) column)
        else get_by_text columns.old other)) }
    ensures keyed { OnOk result (hasher_of columns.new ≡ hasher_of columns.old) }
{
    columns.entry(name)?.or_insert(column);
    Ok(())
}

/// For each column of the line of a header, whether it is the first of its name.
pub(crate) fn firsts_of(
    alloc: Global,
    header: &str,
    columns: &HashMap<String, usize, Keys>,
) -> Result<Vec<bool>, AllocError>
    requires { (name : Text) → get_by_text columns.now name ≡ column_of (cells_in header.now) name }
    ensures { IfOk result (λ firsts. firsts.items ≡ spec.firsts_of (cells_in header.now)) }
{
    let mut firsts = Vec::new(alloc);
    let mut names = RowCursor::new(header);
    while let Some(name) = names.next_cell() {
        let first = is_first(columns, name, firsts.len());
        firsts.push(first)?;
    }
    Ok(firsts)
}

/// Whether the column is the first of the name.
pub(crate) fn is_first(columns: &HashMap<String, usize, Keys>, name: &str, column: usize) -> bool
    ensures { result ≡ option_map_or (λ first. first == column) (get_by_text columns.now name.now) false }
{
    match columns.get(name) {
        Some(first) => *first == column,
        None => false,
    }
}
