//! A row's line, read from left to right.

ghost use Rattle.std.specs.Prelude.{◌≡◌, ◌≤◌, ◌<◌, ◌+◌, IfSome, length};
ghost use Rattle.std.specs.List.{slice_get};
ghost use Rattle.std.specs.Option.{option_copied};
ghost use Rattle.kbart_rows.specs.Lines.{cells_in, IsCellAt};

use crate::cells::{next_cell, split_cell};
use std::marker::Model;

/// A row's line and a position in it: the cursor is past some of its columns. Contracts see the line and the
/// number of these columns.
#[derive(Drop)]
pub struct RowCursor<'a> {
    line: &'a str,
    rest: &'a str,
    column: usize,
}

impl<'a> Model for RowCursor<'a> {
    ghost use Rattle.kbart_rows.specs.Lines.{CursorValue};
    ghost use Rattle.kbart_rows.specs.Private.Line.{IsRest};

    ghost Value = { CursorValue };

    ghost view = { λ cursor. record { line = cursor.line.now; column = cursor.column } };

    ghost invariant = { λ cursor. IsRest cursor.line.now cursor.column cursor.rest.now };
}

impl<'a> RowCursor<'a> {
    /// A cursor before the first column of a line.
    pub fn new(line: &'a str) -> RowCursor<'a>
        ensures { result ≡ record { line = line.now; column = 0 } }
    {
        RowCursor {
            line,
            rest: line,
            column: 0,
        }
    }

    /// Where the cell of a column starts in the line, and its length in bytes. A cell that is missing is empty.
    pub fn seek(&mut self, column: usize) -> (u32, u32)
        requires ahead { self.old.column ≤ column }
        requires short { length self.old.line ≤ 65537 }
        ensures line { self.new.line ≡ self.old.line }
        ensures column { self.new.column ≡ column }
        ensures place { IsCellAt self.old.line column result.0 result.1 }
    {
        while self.column() < column {
            self.pass(column);
        }
        self.place()
    }

    /// Moves past the next column or, if the line has no more cells, past all columns before this one.
    fn pass(&mut self, column: usize)
        requires ahead { self.old.column < column }
        ensures line { self.new.line ≡ self.old.line }
        ensures further { self.old.column < self.new.column }
        ensures within { self.new.column ≤ column }
    {
        match next_cell(self.rest) {
            Some((_, others)) => {
                self.rest = others;
                self.column += 1;
            }
            None => self.column = column,
        }
    }

    /// The cell of the next column, `None` past the last; either way the cursor moves past the column.
    pub fn next_cell(&mut self) -> Option<&'a str>
        ensures cell { option_copied result ≡ slice_get (cells_in self.old.line) self.old.column }
        ensures line { self.new.line ≡ self.old.line }
        ensures some { IfSome result (λ cell. self.new.column ≡ self.old.column + 1) }
        ensures column { self.old.column < usize.MAX → self.new.column ≡ self.old.column + 1 }
    {
        self.column = self.column.saturating_add(1);
        let (cell, others) = next_cell(self.rest)?;
        self.rest = others;
        Some(cell)
    }

    fn column(&self) -> usize
        ensures { result ≡ self.now.column }
    {
        self.column
    }

    /// Where the cell of the next column is.
    fn place(&self) -> (u32, u32)
        requires { length self.now.line ≤ 65537 }
        ensures { IsCellAt self.now.line self.now.column result.0 result.1 }
    {
        let start = self.line.len() - self.rest.len();
        let cell = split_cell(self.rest).0;
        (start as u32, cell.len() as u32)
    }
}
