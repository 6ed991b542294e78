//! What the cells of each column have in common, by one pass over the rows.

ghost use Rattle.std.specs.Prelude.{◌≡◌, ◌<◌, ℕ, [], IfOk, get_or, length};
ghost use Rattle.kbart_rows.specs.Lines.{cells_in};
ghost use Rattle.rule_lint.specs.declared.columns.Column.{Column};
ghost use Rattle.rule_lint.specs.Private.Columns as spec;

use crate::host_state::{HostState, after_text, for_both};
use kbart_rows::{RowCursor, Table};
use std::alloc::{AllocError, Global};

/// The cells of a column in the rows so far.
#[derive(Clone, Copy)]
pub(crate) struct Column {
    /// How many rows there are before the first one in which the cell is undefined.
    pub(crate) complete: usize,
    /// The states after any of the defined cells, by the state before it.
    pub(crate) outside: HostState,
    pub(crate) slash: HostState,
    pub(crate) opened: HostState,
    pub(crate) inside: HostState,
}

impl Column {
    /// A column before the first row.
    fn none() -> Column
        ensures { result ≡ spec.no_cells }
    {
        Column {
            complete: 0,
            outside: HostState::Past,
            slash: HostState::Past,
            opened: HostState::Past,
            inside: HostState::Past,
        }
    }

    /// The column with the cell of one more row, which may be empty.
    fn with_cell(self, row: usize, cell: &str) -> Column
        requires { row < usize.MAX }
        ensures { result ≡ spec.with_cell self row cell.now }
    {
        if cell.is_empty() {
            return self;
        }
        let text = cell.as_bytes();
        Column {
            complete: longer_by_one(self.complete, row),
            outside: for_both(self.outside, after_text(HostState::Outside, text)),
            slash: for_both(self.slash, after_text(HostState::Slash, text)),
            opened: for_both(self.opened, after_text(HostState::Opened, text)),
            inside: for_both(self.inside, after_text(HostState::Inside, text)),
        }
    }

    /// The state after any of the cells.
    pub(crate) fn after(&self, state: HostState) -> HostState
        ensures { result ≡ spec.after_cells self.now state }
    {
        match state {
            HostState::Outside => self.outside,
            HostState::Slash => self.slash,
            HostState::Opened => self.opened,
            HostState::Inside => self.inside,
            HostState::Past => HostState::Past,
            HostState::Lost => HostState::Lost,
        }
    }
}

fn longer_by_one(complete: usize, row: usize) -> usize
    requires { row < usize.MAX }
    ensures { result ≡ spec.longer_by_one complete row }
{
    if complete == row { row + 1 } else { complete }
}

/// Adds the cells of one more row. It takes no time for columns past the last cell.
fn add_row(columns: &mut [Column], row: usize, line: &str)
    requires { row < usize.MAX }
    ensures { (k : ℕ) (d : Column) → k < length columns.old
        → get_or columns.new k d ≡ spec.with_cell (get_or columns.old k d) row (get_or (cells_in line.now) k []) }
{
    let mut cells = RowCursor::new(line);
    for k in 0..columns.len() {
        let Some(cell) = cells.next_cell() else {
            return;
        };
        columns[k] = columns[k].with_cell(row, cell);
    }
}

fn no_cells(alloc: Global, header: &str) -> Result<Vec<Column>, AllocError>
    ensures { IfOk result (λ columns. spec.AreColumns (cells_in header.now) [] columns.items) }
{
    let mut columns = Vec::new(alloc);
    let mut names = RowCursor::new(header);
    while let Some(_) = names.next_cell() {
        columns.push(Column::none())?;
    }
    Ok(columns)
}

/// The columns of a table.
pub(crate) fn columns_of(alloc: Global, table: &Table) -> Result<Vec<Column>, AllocError>
    ensures { IfOk result (λ columns. spec.AreColumns table.now.header table.now.rows columns.items) }
{
    let mut columns = no_cells(alloc, table.header())?;
    for row in 0..table.rows() {
        add_row(&mut columns, row, table.line(row));
    }
    Ok(columns)
}
