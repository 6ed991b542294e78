//! Holdings tables: cells under names that no rule can have, and where filling stops.

use crate::environments::{has_texts, nearly_full};
use crate::shared::JOURNAL;
use kbart_rows::{RowCursor, Table};
use std::alloc::Global;
use std::test::Fail;
use target_vars::{Env, VarsError};

/// A table with two columns `a` and two that have no name.
const TWICE: &[u8] = b"a\tb\ta\t\t\n\tB\tx\tD\tE\tF\n1\tB\n";

/// A table, a row, the name of a column, and its cell.
const CELLS: [(&[u8], usize, &str, Option<&str>); 4] = [
    // An empty name is a name.
    (b"a\t\n1\t2\n", 0, "", Some("2")),
    // One byte order mark is dropped, a second is text.
    (b"\xEF\xBB\xBF\xEF\xBB\xBFa\n1\n", 0, "\u{FEFF}a", Some("1")),
    // Cells beyond the columns of the header.
    (b"a\n1\t2\n", 0, "", None),
    // No such row.
    (JOURNAL, 2, "title_url", None),
];

#[test]
fn reads_cells(rt: HostRuntime) -> Result<(), Fail> {
    for (bytes, row, name, cell) in CELLS {
        let table = Table::read(rt.alloc(), bytes)?;
        assert!(rt; table.cell(row, name) == cell, "{bytes:?}");
    }
    Ok(())
}

fn fill_row(table: &Table, row: usize, env: &mut Env) -> Result<bool, VarsError> {
    if row >= table.rows() {
        return Ok(false);
    }
    table.fill(row, env)?;
    Ok(true)
}

/// A table, one of its rows, a text that is there before the row is filled in, and some texts that are there then.
type Filling = (
    &'static [u8],
    usize,
    &'static str,
    &'static [(&'static str, Option<&'static str>)],
);

/// How many rows the table has, how many bytes and members the environment, and whether it has the texts.
fn fill(alloc: Global, filling: Filling) -> Result<(usize, usize, usize, bool), Fail> {
    let (bytes, row, text, texts) = filling;
    let table = Table::read(alloc, bytes)?;
    let mut env = Env::new(alloc);
    env.put_text("b", text)?;
    let is_filled = fill_row(&table, row, &mut env)?;
    let has_texts = is_filled && has_texts(&env, texts);
    Ok((table.rows(), env.bytes(), env.members(), has_texts))
}

/// The same, and how many bytes there are.
const FILLINGS: [(Filling, usize); 3] = [
    (
        (JOURNAL, 1, "", &[("title_url", Some("http://e.org/b"))]),
        27,
    ),
    // The first column of a name counts, and the first text.
    (
        (
            TWICE,
            0,
            "mine",
            &[("a", None), ("b", Some("mine")), ("", Some("D"))],
        ),
        5,
    ),
    (
        (TWICE, 1, "mine", &[("a", Some("1")), ("b", Some("mine"))]),
        5,
    ),
];

#[test]
fn fills_a_row_into_an_environment(rt: HostRuntime) -> Result<(), Fail> {
    for (filling, bytes) in FILLINGS {
        assert_eq!(rt; fill(rt.alloc(), filling)?, (2, bytes, 0, true));
    }
    Ok(())
}

#[test]
fn finds_cells_in_a_line(rt: HostRuntime) -> Result<(), Fail> {
    let table = Table::read(rt.alloc(), TWICE)?;
    let mut header = RowCursor::new(table.header());
    assert_eq!(rt; (header.seek(1), header.seek(3)), ((2, 1), (6, 0)));
    Ok(())
}

/// The result for a row of which the second cell is too long, and whether the cells before it alone were added.
fn fill_nearly_full(alloc: Global) -> Result<(Result<bool, VarsError>, bool), Fail> {
    let table = Table::read(alloc, b"a\tb\tc\n1\t22\t3\n")?;
    let mut env = nearly_full(alloc)?;
    let filled = fill_row(&table, 0, &mut env);
    let texts = [("a", Some("1")), ("b", None), ("c", None)];
    Ok((filled, has_texts(&env, &texts)))
}

#[test]
fn stops_at_a_refused_cell(rt: HostRuntime) -> Result<(), Fail> {
    assert_eq!(rt;
        fill_nearly_full(rt.alloc())?,
        (Err(VarsError::TooLarge), true)
    );
    Ok(())
}
