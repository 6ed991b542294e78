//! Whether a row's line is longer than the header.

ghost use Rattle.std.specs.Prelude.{◌≡◌, ◌==◌, ◌&&◌, drop, not};
ghost use Rattle.std.specs.List.{list_any};
ghost use Rattle.kbart_rows.specs.Lines.{cells_in};
ghost use Rattle.table_inspection.specs.Columns.{is_empty_text};

use kbart_rows::{RowCursor, cell_count};

/// Whether a line has a cell past that many that is not empty.
pub(crate) fn is_longer(line: &str, width: usize) -> bool
    ensures { result ≡ list_any (λ cell. not (is_empty_text cell)) (drop width (cells_in line.now)) }
{
    if cell_count(line) <= width {
        return false;
    }
    has_text_past(line, width)
}

fn has_text_past(line: &str, width: usize) -> bool
    ensures { result ≡ list_any (λ cell. not (is_empty_text cell)) (drop width (cells_in line.now)) }
{
    let mut left = width;
    let mut cells = RowCursor::new(line);
    while let Some(cell) = cells.next_cell() {
        if is_past(left, cell) {
            return true;
        }
        left = left.saturating_sub(1);
    }
    false
}

fn is_past(left: usize, cell: &str) -> bool
    ensures { result ≡ (left == 0 && not (is_empty_text cell.now)) }
{
    left == 0 && !cell.is_empty()
}
