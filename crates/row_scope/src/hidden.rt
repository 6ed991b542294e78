//! What a row of a table hides of a request.

ghost use Rattle.std.specs.Prelude.{◌≡◌, ◌≤◌, [], get_or, length, sum_by};
ghost use Rattle.std.specs.List.{range_with_len};
ghost use Rattle.environment_model.specs.Environment.{byte_count, member_count};
ghost use Rattle.kbart_rows.specs.Cells.{named_cells};
ghost use Rattle.kbart_rows.specs.Lines.{cells_in};
ghost use Rattle.row_laws.specs.Shadowing.{requested, hidden, row_of, hidden_bytes_at, hidden_members_at};
ghost use Rattle.row_scope.specs.RowEnvironments.{lists_of};
ghost use Rattle.row_scope.specs.RequestValues.{IsApartFrom};

use crate::name_columns::is_list;
use crate::request_values::RequestValues;
use code_file::Code;
use kbart_rows::{RowCursor, Table};
use row_laws::{hidden_by_columns, requests_are_small};

/// How many bytes and members of a request the cells of a row's line hide.
pub(crate) fn hidden_by(
    code: &Code,
    table: &Table,
    request: &RequestValues,
    line: &str,
) -> (usize, usize)
    requires apart { IsApartFrom request.now table.now.header }
    requires short { length line.now ≤ 65537 }
    ensures bytes { result.0
        ≡ byte_count (hidden (row_of (named_cells table.now.header (cells_in line.now)))
        (requested (lists_of code.now) request.now.pairs)) }
    ensures members { result.1
        ≡ member_count (hidden (row_of (named_cells table.now.header (cells_in line.now)))
        (requested (lists_of code.now) request.now.pairs)) }
{
    hidden_by_columns();
    if request.meets_columns() {
        hidden_by_cells(code, table, request, line)
    } else {
        (0, 0)
    }
}

/// The same, column by column.
fn hidden_by_cells(
    code: &Code,
    table: &Table,
    request: &RequestValues,
    line: &str,
) -> (usize, usize)
    requires { length line.now ≤ 65537 }
    ensures bytes { result.0
        ≡ sum_by (hidden_bytes_at table.now.header (cells_in line.now) (lists_of code.now) request.now.pairs)
        (range_with_len 0 (length table.now.header)) }
    ensures members { result.1
        ≡ sum_by (hidden_members_at table.now.header (cells_in line.now) (lists_of code.now) request.now.pairs)
        (range_with_len 0 (length table.now.header)) }
{
    hidden_by_columns();
    requests_are_small();
    let _known = request.size();
    let mut sums = (0, 0);
    let mut header = RowCursor::new(table.header());
    let mut cells = RowCursor::new(line);
    let mut column: usize = 0;
    while let Some(name) = header.next_cell() {
        let (bytes, members) = hidden_at(code, table, request, column, name, &mut cells);
        sums = (sums.0 + bytes, sums.1 + members);
        column += 1;
    }
    sums
}

/// How many bytes and members of a request the cell of a column hides: those of the column's name if the cell is
/// defined and no column before it has the name. The cursor moves to the column.
fn hidden_at(
    code: &Code,
    table: &Table,
    request: &RequestValues,
    column: usize,
    name: &str,
    cells: &mut RowCursor,
) -> (usize, usize)
    requires named { get_or table.now.header column [] ≡ name.now }
    requires ahead { cells.old.column ≤ column }
    requires short { length cells.old.line ≤ 65537 }
    ensures bytes { result.0
        ≡ hidden_bytes_at table.now.header (cells_in cells.old.line) (lists_of code.now) request.now.pairs column }
    ensures members { result.1
        ≡ hidden_members_at table.now.header (cells_in cells.old.line) (lists_of code.now) request.now.pairs column }
    ensures line { cells.new.line ≡ cells.old.line }
    ensures column { cells.new.column ≡ column }
{
    let (_, len) = cells.seek(column);
    if len == 0 || request.values_of(name).1 == 0 || table.column(name) != Some(column) {
        return (0, 0);
    }
    request.sums_of(name, is_list(code, name))
}
