//! Records of cells, kept as lines.

ghost use Rattle.std.specs.Prelude.{◌≡◌, ◌++◌, ◌∷◌, [], ◌≤◌, ◌<◌, ◌+◌, ◌↔◌, IfErr, IfOk, IsTrue, OnOk, get_or};
ghost use Rattle.std.specs.Prelude.{length, string_bytes};
ghost use Rattle.csv.specs.Records.{prev};
ghost use Rattle.kbart_rows.specs.Cells.{row_bytes, tab};
ghost use Rattle.kbart_rows.specs.Lines.{cells_in};
ghost use Rattle.kbart_rows.specs.Private.Kept.{IsLineTooLong};
ghost use Rattle.kbart_rows.specs.Private.Line.{cells_of, IsClosed};
ghost use Rattle.kbart_rows.specs.declared.read.TheConstants.{MAX_ROW_BYTES};

use crate::error::TableError;
use crate::read::MAX_ROW_BYTES;
use std::alloc::{AllocError, Global};
use std::marker::Model;

/// Records of cells; contracts see the cells of each. A record is kept as one line, which takes the bytes of its cells,
/// one tab for each cell, and eight bytes.
#[derive(Drop)]
pub(crate) struct Records {
    // The lines, one after another.
    text: String,
    // Where each line ends.
    ends: Vec<usize>,
}

impl Model for Records {
    ghost use Rattle.std.specs.Prelude.{List, map, string_bytes};
    ghost use Rattle.kbart_rows.specs.Cells.{Row};
    ghost use Rattle.kbart_rows.specs.Lines.{cells_in};
    ghost use Rattle.kbart_rows.specs.Private.Kept.{AreKept, lines_in};

    ghost Value = { List Row };

    ghost view = { λ records. map cells_in (lines_in records.ends.items (string_bytes records.text)) };

    ghost invariant = { λ records. AreKept records.ends.items (string_bytes records.text) };
}

impl Records {
    /// No records, with room for `bytes` bytes of lines.
    pub(crate) fn with_capacity(alloc: Global, bytes: usize) -> Result<Records, AllocError>
        ensures { IfOk result (λ records. records ≡ []) }
    {
        Ok(Records {
            text: String::with_capacity(alloc, bytes)?,
            ends: Vec::new(alloc),
        })
    }

    /// Adds the record of a line, whose last cell has no tab after it. `RowTooLong` if the line is longer than a row
    /// may be, `NoMemory` if an allocation failed; no record is kept then.
    pub(crate) fn push(&mut self, line: &str) -> Result<(), TableError>
        ensures added { OnOk result (self.new ≡ self.old ++ cells_of line.now ∷ []) }
        ensures fits { OnOk result (row_bytes (cells_of line.now) ≤ MAX_ROW_BYTES) }
        ensures refused { IfErr result (IsLineTooLong (cells_of line.now)) }
    {
        match append(&mut self.text, &mut self.ends, line) {
            Ok(()) => Ok(()),
            Err(e) => {
                self.text.clear();
                self.ends.clear();
                Err(e)
            }
        }
    }

    pub(crate) fn len(&self) -> usize
        ensures { result ≡ length self.now }
    {
        self.ends.len()
    }

    /// The line of a record; past the last one the empty line, which has no cells.
    pub(crate) fn line(&self, at: usize) -> &str
        ensures cells { cells_in result.now ≡ get_or self.now at [] }
        ensures closed { IsClosed result.now }
        ensures short { length result.now ≤ MAX_ROW_BYTES + 1 }
    {
        if at >= self.ends.len() {
            return "";
        }
        let start = start_of(self.ends.as_slice(), at);
        &self.text[start..self.ends[at]]
    }
}

/// Where a line begins, which is where the one before it ends.
fn start_of(ends: &[usize], at: usize) -> usize
    requires { at < length ends.now }
    ensures { result ≡ prev 0 ends.now at }
{
    if at == 0 { 0 } else { ends[at - 1] }
}

/// Whether a line is longer than a row may be.
fn is_too_long(line: &str) -> bool
    ensures { IsTrue result ↔ (MAX_ROW_BYTES < length line.now) }
{
    line.len() > MAX_ROW_BYTES
}

/// Appends a line and the tab of its last cell, and the place where they end.
fn append(text: &mut String, ends: &mut Vec<usize>, line: &str) -> Result<(), TableError>
    ensures text { OnOk result (string_bytes text.new ≡ string_bytes text.old ++ (line.now ++ tab ∷ [])) }
    ensures ends { OnOk result (ends.new.items ≡ ends.old.items ++ length (string_bytes text.new) ∷ []) }
    ensures fits { OnOk result (length line.now ≤ MAX_ROW_BYTES) }
    ensures refused { IfErr result (IsLineTooLong (cells_of line.now)) }
{
    if is_too_long(line) {
        return Err(TableError::RowTooLong);
    }
    text.push_str(line)?;
    text.push('\t')?;
    if ends.push(text.len()).is_err() {
        return Err(TableError::NoMemory);
    }
    Ok(())
}
