//! The cells of a row, added to an environment.

ghost use Rattle.std.specs.Prelude.{◌≡◌, IfErr, OnOk, OnErr};
ghost use Rattle.std.specs.HashMap.{get_by_text};
ghost use Rattle.text_model.specs.Texts.{Text};
ghost use Rattle.kbart_rows.specs.Cells.{column_of, name_cell, named_cells};
ghost use Rattle.kbart_rows.specs.Private.Kept.{cell_at_first, IsRefusedCell};
ghost use Rattle.kbart_rows.specs.Filling as spec;
ghost use Rattle.kbart_rows.specs.Lines.{cells_in};

use crate::cells::{defined, next_cell, split_cell};
use crate::columns::is_first;
use crate::keys::Keys;
use std::collections::HashMap;
use target_vars::{Env, VarsError};

/// Adds the defined cells of a line under the names in the header, up to the first cell that is rejected.
pub(crate) fn fill(
    header: &str,
    columns: &HashMap<String, usize, Keys>,
    line: &str,
    env: &mut Env,
) -> Result<(), VarsError>
    requires { (name : Text) → get_by_text columns.now name ≡ column_of (cells_in header.now) name }
    ensures ok { OnOk result
        (env.new.entries ≡ spec.with_named_cells env.old.entries
        (named_cells (cells_in header.now) (cells_in line.now))) }
    ensures err { IfErr result
        (spec.StopsAtCell env.old.entries (named_cells (cells_in header.now) (cells_in line.now)) env.new.entries) }
{
    let mut column: usize = 0;
    let mut names = header;
    let mut cells = line;
    while let Some((name, other_names)) = next_cell(names) {
        let (cell, other_cells) = split_cell(cells);
        add(columns, column, name, cell, env)?;
        column += 1;
        names = other_names;
        cells = other_cells;
    }
    Ok(())
}

/// Adds the cell of a column under its name, unless an earlier column has the name.
fn add(
    columns: &HashMap<String, usize, Keys>,
    column: usize,
    name: &str,
    cell: &str,
    env: &mut Env,
) -> Result<(), VarsError>
    ensures ok { OnOk result
        (env.new.entries ≡ spec.with_defined env.old.entries
        (cell_at_first (get_by_text columns.now name.now) column name.now cell.now)) }
    ensures err { IfErr result
        (IsRefusedCell env.old.entries (cell_at_first (get_by_text columns.now name.now) column name.now cell.now)) }
    ensures kept { OnErr result (env.new.entries ≡ env.old.entries) }
{
    if is_first(columns, name, column) {
        put(name, cell, env)
    } else {
        Ok(())
    }
}

/// Adds a cell under a name, if the cell is defined.
fn put(name: &str, cell: &str, env: &mut Env) -> Result<(), VarsError>
    ensures ok { OnOk result (env.new.entries ≡ spec.with_defined env.old.entries (name_cell name.now cell.now)) }
    ensures err { IfErr result (IsRefusedCell env.old.entries (name_cell name.now cell.now)) }
    ensures kept { OnErr result (env.new.entries ≡ env.old.entries) }
{
    if let Some(text) = defined(cell) {
        env.put_text(name, text)?;
    }
    Ok(())
}
