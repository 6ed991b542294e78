//! The identifiers of the rows.

ghost use Rattle.std.specs.Prelude.{◌≡◌, ◌&&◌, ◌∷◌, [], ◌++◌, ◌<◌, ◌≤◌, ◌+◌, List, IfOk, get_or, length, true};
ghost use Rattle.std.specs.Option.{option_copied};
ghost use Rattle.kbart_rows.specs.Cells.{cell_in};
ghost use Rattle.kbart_rows.specs.Identifiers.{identifier_columns};
ghost use Rattle.table_inspection.specs.Cells as spec;
ghost use Rattle.table_inspection.specs.Columns.{is_empty_text};
ghost use Rattle.table_inspection.specs.Private.Counting.{AreIdentified};
ghost use Rattle.table_inspection.specs.Private.Forms.{normal_form};
ghost use Rattle.table_inspection.specs.Private.CountedCells.{AreCells, faults_at};

use crate::cells::Cells;
use crate::number::{is_number, write_form};
use crate::rows::Rows;
use crate::tally::{RowIds, Tally};
use kbart_rows::{Ids, Table, cell_in};
use std::alloc::{AllocError, Global};

/// What is found in the columns of identifiers.
#[derive(Drop)]
pub(crate) struct Identified<'a> {
    pub(crate) tally: Tally,
    pub(crate) unidentified: Rows,
    pub(crate) bad_numbers: Cells<'a>,
}

/// The columns of identifiers.
#[derive(Clone, Copy)]
struct IdColumns {
    print: Option<usize>,
    online: Option<usize>,
}

/// The cells of a row in the columns of identifiers.
#[derive(Clone, Copy)]
struct IdCells<'a> {
    print: Option<&'a str>,
    online: Option<&'a str>,
}

/// How many identifiers there are and which has the most rows, the rows without one and the identifiers that are no
/// numbers, by one pass over the rows.
pub(crate) fn identify<'a>(alloc: Global, table: &'a Table) -> Result<Identified<'a>, AllocError>
    ensures { IfOk result (AreIdentified table.now) }
{
    let columns = columns_of(table);
    let sharing = table.sharing(alloc)?;
    let mut ids = Ids::none(alloc, table.keys());
    let mut print = Vec::new(alloc);
    let mut online = Vec::new(alloc);
    let mut tally = Tally::new(alloc);
    let mut unidentified = Rows::none();
    let mut bad_numbers = Cells::none();
    for row in 0..table.rows() {
        let cells = cells_of(table, columns, row);
        write_form(cells.print, &mut print)?;
        write_form(cells.online, &mut online)?;
        let print_id = print.as_slice();
        let online_id = online.as_slice();
        unidentified.add_if(are_empty(print_id, online_id), row);
        add_number(&mut bad_numbers, row, cells.print, print_id);
        add_number(&mut bad_numbers, row, cells.online, online_id);
        let shared = sharing[row];
        let is_repeated = is_repeated(table, columns, row, shared.first, cells);
        let own = RowIds {
            row,
            print: print_id,
            online: online_id,
            sharing: shared,
            is_repeated,
        };
        tally.add_row(alloc, table, &mut ids, own)?;
    }
    Ok(Identified {
        tally,
        unidentified,
        bad_numbers,
    })
}

fn columns_of(table: &Table) -> IdColumns
    ensures { result.print ∷ result.online ∷ [] ≡ identifier_columns table.now.header }
{
    IdColumns {
        print: table.column("print_identifier"),
        online: table.column("online_identifier"),
    }
}

fn cells_of(table: &Table, columns: IdColumns, row: usize) -> IdCells<'_>
    requires { row < length table.now.rows }
    ensures print { option_copied result.print ≡ cell_in (get_or table.now.rows row []) columns.print }
    ensures online { option_copied result.online ≡ cell_in (get_or table.now.rows row []) columns.online }
{
    let line = table.line(row);
    IdCells {
        print: cell_in(line, columns.print),
        online: cell_in(line, columns.online),
    }
}

/// Whether `first` is an earlier row than `row`, and has its cells.
fn is_repeated(
    table: &Table,
    columns: IdColumns,
    row: usize,
    first: usize,
    cells: IdCells<'_>,
) -> bool
    requires { row < length table.now.rows }
    ensures before { result ≡ true → first < row }
    ensures print { result ≡ true
        → option_copied cells.entry.print ≡ cell_in (get_or table.now.rows first []) columns.print }
    ensures online { result ≡ true
        → option_copied cells.entry.online ≡ cell_in (get_or table.now.rows first []) columns.online }
{
    if first >= row {
        return false;
    }
    let others = cells_of(table, columns, first);
    is_same(cells.print, others.print) && is_same(cells.online, others.online)
}

fn is_same(a: Option<&str>, b: Option<&str>) -> bool
    ensures { result ≡ true → option_copied a.entry ≡ option_copied b.entry }
{
    match (a, b) {
        (Some(a), Some(b)) => a == b,
        (None, None) => true,
        _ => false,
    }
}

fn are_empty(print: &[u8], online: &[u8]) -> bool
    ensures { result ≡ (is_empty_text print.now && is_empty_text online.now) }
{
    print.is_empty() && online.is_empty()
}

/// Adds a cell of a row, if it is defined and its normal form is no number.
fn add_number<'a>(cells: &mut Cells<'a>, row: usize, cell: Option<&'a str>, id: &[u8])
    requires count { cells.old.count < usize.MAX }
    requires id { id.now ≡ normal_form (option_copied cell) }
    ensures added { (others : List spec.CellAt)
        → AreCells others cells.old.count cells.old.first cells.old.text.now
        → AreCells (others ++ faults_at spec.is_numbered row (option_copied cell.entry))
        cells.new.count cells.new.first cells.new.text.now }
    ensures small { cells.new.count ≤ cells.old.count + 1 }
{
    if let Some(text) = cell {
        cells.add_if(!is_number(id), row, text);
    }
}
