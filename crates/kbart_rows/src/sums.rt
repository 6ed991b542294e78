//! How many bytes the defined cells of each row have.

ghost use Rattle.std.specs.Prelude.{◌≡◌, ◌≤◌, ◌<◌, ◌+◌, [], All, IfOk, drop, get_or, length, map, true};
ghost use Rattle.kbart_rows.specs.Lines.{cells_in};
ghost use Rattle.kbart_rows.specs.Private.Kept.{bytes_of, counted_bytes, firsts_of};
ghost use Rattle.kbart_rows.specs.Private.Line.{IsClosed};
ghost use Rattle.kbart_rows.specs.declared.read.TheConstants.{MAX_ROW_BYTES};

use crate::cells::{cell_count, split_cell};
use crate::records::Records;
use std::alloc::{AllocError, Global};

/// How many bytes the cells of each row have, if these columns are the first of their names; the first line is the
/// header.
pub(crate) fn sums_of(
    alloc: Global,
    lines: &Records,
    firsts: &[bool],
) -> Result<Vec<u32>, AllocError>
    requires some { 0 < length lines.now }
    requires firsts { firsts.now ≡ firsts_of (get_or lines.now 0 []) }
    ensures { IfOk result (λ sums. sums.items ≡ map (bytes_of (get_or lines.now 0 [])) (drop 1 lines.now)) }
{
    let rows = lines.len() - 1;
    let all_count = do_all_count(firsts);
    let mut sums = Vec::with_capacity(alloc, rows)?;
    for row in 0..rows {
        sums.push(sum_of(lines.line(row + 1), firsts, all_count))?;
    }
    Ok(sums)
}

/// Whether all columns count.
fn do_all_count(counts: &[bool]) -> bool
    ensures { result ≡ true → All (λ counts. counts ≡ true) counts.now }
{
    counts.iter().all(|counts| *counts)
}

/// How many bytes a line's cells have in the columns that count. If all columns count, and the line has no cells beyond
/// them, these are its bytes without its tabs.
fn sum_of(line: &str, counts: &[bool], all_count: bool) -> u32
    requires short { length line.now ≤ MAX_ROW_BYTES + 1 }
    requires closed { IsClosed line.now }
    requires all { all_count ≡ true → All (λ counts. counts ≡ true) counts.now }
    ensures { result ≡ counted_bytes counts.now (cells_in line.now) }
{
    let cells = cell_count(line);
    if all_count && cells <= counts.len() {
        (line.len() - cells) as u32
    } else {
        sum_by_column(line, counts)
    }
}

/// The same, cell by cell. It takes no time for columns past the line's cells.
fn sum_by_column(line: &str, counts: &[bool]) -> u32
    requires { length line.now ≤ MAX_ROW_BYTES + 1 }
    ensures { result ≡ counted_bytes counts.now (cells_in line.now) }
{
    let mut sum = 0;
    let mut rest = line;
    for is_counted in counts {
        if rest.is_empty() {
            return sum as u32;
        }
        let (cell, others) = split_cell(rest);
        if *is_counted {
            sum += cell.len();
        }
        rest = others;
    }
    sum as u32
}
