//! A row's cells as one text, in which a tab follows each.

ghost use Rattle.std.specs.Prelude.{◌≡◌, ◌<◌, ◌∷◌, ◌++◌, [], IfSome, IfNone, drop, get_or, length};
ghost use Rattle.std.specs.Option.{option_copied};
ghost use Rattle.kbart_rows.specs.Cells as spec;
ghost use Rattle.kbart_rows.specs.Lines.{cells_in};
ghost use Rattle.kbart_rows.specs.Private.Line.{IsSplit};

use crate::tabs::{first_tab, tab_count};

/// The first cell of a line, and the line of those after it.
pub(crate) fn next_cell(line: &str) -> Option<(&str, &str)>
    ensures cell { IfSome result (λ parts. cells_in line.now ≡ parts.0.now ∷ cells_in parts.1.now) }
    ensures parts { IfSome result (λ parts. line.now ≡ parts.0.now ++ spec.tab ∷ parts.1.now) }
    ensures shorter { IfSome result (λ parts. length parts.1.now < length line.now) }
    ensures none { IfNone result (cells_in line.now ≡ []) }
{
    let end = first_tab(line.as_bytes())?;
    Some((&line[..end], &line[end + 1..]))
}

/// The first cell of a line (the empty text if it has none), and the line of the cells after it.
pub(crate) fn split_cell(line: &str) -> (&str, &str)
    ensures cell { result.0.now ≡ get_or (cells_in line.now) 0 [] }
    ensures rest { cells_in result.1.now ≡ drop 1 (cells_in line.now) }
    ensures parts { IsSplit line.now result.0.now result.1.now }
{
    next_cell(line).unwrap_or(("", ""))
}

/// The cell of a line in a column, counted from 0; the empty text if there is none. It takes no time for columns past
/// the line's cells.
pub(crate) fn cell_at(line: &str, column: usize) -> &str
    ensures { result.now ≡ get_or (cells_in line.now) column [] }
{
    let mut rest = line;
    for _ in 0..column {
        if rest.is_empty() {
            return "";
        }
        rest = split_cell(rest).1;
    }
    split_cell(rest).0
}

/// The text of a cell if it is defined, which means not empty.
pub(crate) fn defined(cell: &str) -> Option<&str>
    ensures { option_copied result ≡ spec.defined cell.now }
{
    if cell.is_empty() { None } else { Some(cell) }
}

/// The cell of a line in a column, if there is such a column and the cell is defined.
pub fn cell_in(line: &str, column: Option<usize>) -> Option<&str>
    ensures { option_copied result ≡ spec.cell_in (cells_in line.now) column }
{
    defined(cell_at(line, column?))
}

/// How many cells a line has.
pub fn cell_count(line: &str) -> usize
    ensures { result ≡ length (cells_in line.now) }
{
    tab_count(line.as_bytes())
}
