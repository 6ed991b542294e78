//! A holdings table.

ghost use Rattle.std.specs.Prelude.{◌≡◌, ◌≤◌, ◌<◌, ◌+◌, ◌*◌, ◌↔◌, [], ◌∷◌, All, IfErr, IfOk, IfSome, OnOk, IsUtf8, Err};
ghost use Rattle.std.specs.Prelude.{ℕ, get_or, length};
ghost use Rattle.std.specs.List.{list_any};
ghost use Rattle.std.specs.Option.{option_copied};
ghost use Rattle.environment_model.specs.Environment.{byte_count, member_count};
ghost use Rattle.target_vars.specs.declared.env.TheConstants.{MAX_BYTES, MAX_MEMBERS};
ghost use Rattle.target_vars.specs.declared.error.VarsError.TheVariants as vars_error;
ghost use Rattle.kev_read.specs.declared.read.TheConstants.{MAX_PAIRS, MAX_QUERY_BYTES};
ghost use Rattle.kbart_rows.specs.Cells.{cell_bytes, cell_of, column_of, named_cells};
ghost use Rattle.kbart_rows.specs.Filling.{with_named_cells, StopsAtCell};
ghost use Rattle.kbart_rows.specs.Hashing.{hasher_at_start, keyed};
ghost use Rattle.kbart_rows.specs.Identifiers as spec;
ghost use Rattle.kbart_rows.specs.Identifiers.{identifier_in};
ghost use Rattle.kbart_rows.specs.Lines.{cells_in};
ghost use Rattle.kbart_rows.specs.Private.Kept.{is_id};
ghost use Rattle.kbart_rows.specs.Private.Runs.{AreReady, matches};
ghost use Rattle.kbart_rows.specs.Reading.{AllFit, IsFault, IsTable};
ghost use Rattle.kbart_rows.specs.Sharing.{SharesAtMost};
ghost use Rattle.kbart_rows.specs.declared.read.TheConstants.{MAX_ROW_BYTES, MAX_ROWS, MAX_TABLE_BYTES};
ghost use Rattle.kbart_rows.specs.declared.sharing.Sharing.{Sharing};

use crate::cells::cell_in;
use crate::columns::{columns_of, firsts_of};
use crate::error::TableError;
use crate::filling::fill;
use crate::ids::Ids;
use crate::index::Index;
use crate::keys::Keys;
use crate::matches::{Matches, next_row};
use crate::read::{check_bytes, read_lines};
use crate::records::Records;
use crate::runs::Runs;
use crate::sharing::{Sharing, sharing_of};
use crate::sums::sums_of;
use std::alloc::{AllocError, Global};
use std::collections::HashMap;
use std::marker::Model;
use target_vars::{Env, VarsError};

/// A holdings table; contracts see the cells of its header and of its rows.
///
/// Differences from NISO RP-9-2014, each with its test in `tests/commands/test_tables.py`:
/// - Columns may come in any order, and none is required; a column is found by its exact name
///   (`test_lines_and_cells`).
/// - Only `print_identifier` and `online_identifier` have a meaning here (`test_keys_and_columns` in `test_keys.py`).
///   Every other column, even one that the practice does not name, is just a variable (`test_lines_and_cells`).
/// - If several columns have the same name, the first one counts, even in a row in which its cell is empty
///   (`test_lines_and_cells`). A name may be empty (`reads_cells` in the crate `menu_tests`).
/// - Quotes are plain characters, cells are not trimmed, and `#` does not begin a comment (`test_lines_and_cells`).
/// - A line ends with LF, CR LF or CR. Blank lines are not rows; a line of tabs is a row (`test_lines_and_cells`), and
///   a line of one space is not blank (`test_faults`).
/// - One byte order mark at the beginning is dropped (`test_lines_and_cells`).
/// - An empty or missing cell is undefined. Cells beyond the columns of the header are ignored, but their bytes count
///   (`test_lines_and_cells`, `test_faults`).
/// - A table has at most 16,777,216 bytes (`test_limit_of_bytes` in `test_holdings.py`) and 200,000 rows, and a line at
///   most 65,536 bytes of cells and tabs (`test_faults`).
#[derive(Drop)]
pub struct Table {
    // The first line is the header.
    lines: Records,
    // From each name to the first column that has it.
    columns: HashMap<String, usize, Keys>,
    // The columns of identifiers.
    print: Option<usize>,
    online: Option<usize>,
    // The identifiers of the rows.
    index: Index,
    // Of each row, the bytes of its defined cells.
    bytes: Vec<u32>,
}

impl Model for Table {
    ghost use Rattle.std.specs.HashMap.{hasher_of};
    ghost use Rattle.kbart_rows.specs.Cells.{Holdings};
    ghost use Rattle.kbart_rows.specs.Private.Kept.{IsIndexed, holdings_of};

    ghost Value = { Holdings };

    ghost view = { λ table. holdings_of table.lines (hasher_of table.columns) };

    ghost invariant = { λ table. IsIndexed table.lines table.columns table.print table.online table.index
        table.bytes };
}

impl Table {
    /// Reads a holdings table. Its hashed look-ups have the keys 0 and 0, which anybody knows; for a table from a
    /// stranger use [`read_keyed`](Table::read_keyed).
    ///
    /// Bytes that are not a table are rejected by their first error: see [`TableError`].
    pub fn read(alloc: Global, bytes: &[u8]) -> Result<Table, TableError>
        ensures accepted { IfOk result (IsTable bytes.now) }
        ensures keyed { IfOk result (λ table. hasher_at_start table.keys ≡ keyed 0 0) }
        ensures refused { IfErr result (IsFault bytes.now) }

        // Even if memory has run out.
        ensures too_long { (result ≡ Err TableError.TooLong) ↔ (MAX_TABLE_BYTES < length bytes.now) }
        ensures not_utf8 { (result ≡ Err TableError.NotUtf8)
            ↔ ((length bytes.now ≤ MAX_TABLE_BYTES) × ¬ (IsUtf8 bytes.now)) }
        ensures limits { (MAX_TABLE_BYTES ≡ 16777216) × (MAX_ROWS ≡ 200000) × (MAX_ROW_BYTES ≡ 65536) }
    {
        Table::read_keyed(alloc, bytes, Keys::new(0, 0))
    }

    /// Reads a holdings table as [`read`](Table::read) does, with secret keys for its hashed look-ups.
    pub fn read_keyed(alloc: Global, bytes: &[u8], keys: Keys) -> Result<Table, TableError>
        ensures accepted { IfOk result (IsTable bytes.now) }
        ensures keyed { IfOk result (λ table. table.keys ≡ keys) }
        ensures refused { IfErr result (IsFault bytes.now) }

        // Even if memory has run out.
        ensures too_long { (result ≡ Err TableError.TooLong) ↔ (MAX_TABLE_BYTES < length bytes.now) }
        ensures not_utf8 { (result ≡ Err TableError.NotUtf8)
            ↔ ((length bytes.now ≤ MAX_TABLE_BYTES) × ¬ (IsUtf8 bytes.now)) }
        ensures limits { (MAX_TABLE_BYTES ≡ 16777216) × (MAX_ROWS ≡ 200000) × (MAX_ROW_BYTES ≡ 65536) }
    {
        check_bytes(bytes)?;
        let lines = read_lines(alloc, bytes)?;
        let columns = columns_of(alloc, lines.line(0), keys)?;
        let print = columns.get("print_identifier").copied();
        let online = columns.get("online_identifier").copied();
        let index = Index::of(alloc, &lines, print, online, &keys)?;
        let firsts = firsts_of(alloc, lines.line(0), &columns)?;
        let bytes = sums_of(alloc, &lines, firsts.as_slice())?;
        Ok(Table {
            lines,
            columns,
            print,
            online,
            index,
            bytes,
        })
    }

    /// How many rows there are, at most [`MAX_ROWS`](crate::MAX_ROWS); the header is not a row.
    pub fn rows(&self) -> usize
        ensures count { result ≡ length self.now.rows }
        ensures few { result ≤ MAX_ROWS }
        ensures fit { AllFit (self.now.header ∷ self.now.rows) }
    {
        self.lines.len() - 1
    }

    /// The keys of the hashed look-ups.
    pub fn keys(&self) -> Keys
        ensures { result ≡ self.now.keys }
    {
        *self.columns.hasher()
    }

    /// The cell of a row, counted from 0, in the first column with the name; `None` if it is empty or missing, if no
    /// column has the name, or past the last row.
    pub fn cell(&self, row: usize, name: &str) -> Option<&str>
        ensures { option_copied result ≡ cell_of self.now.header (get_or self.now.rows row []) name.now }
    {
        if row >= self.rows() {
            return None;
        }
        cell_in(self.lines.line(row + 1), self.columns.get(name).copied())
    }

    /// The cells of a row, counted from 0, as one text, in which a tab follows each cell.
    pub fn line(&self, row: usize) -> &str
        requires { row < length self.now.rows }
        ensures cells { cells_in result.now ≡ get_or self.now.rows row [] }
        ensures short { length result.now ≤ MAX_ROW_BYTES + 1 }
    {
        // The header is the line before.
        self.lines.line(1 + row)
    }

    /// The names of the columns as one text, in which a tab follows each name.
    pub fn header(&self) -> &str
        ensures cells { cells_in result.now ≡ self.now.header }
        ensures short { length result.now ≤ MAX_ROW_BYTES + 1 }
    {
        self.lines.line(0)
    }

    /// How many bytes the defined cells of a row have; rows are counted from 0. If several columns have the same name,
    /// only the first counts.
    pub fn cell_bytes(&self, row: usize) -> usize
        requires { row < length self.now.rows }
        ensures value { result ≡ cell_bytes (named_cells self.now.header (get_or self.now.rows row [])) }
        ensures small { result ≤ MAX_ROW_BYTES }
    {
        self.bytes[row] as usize
    }

    /// The first column with the name, counted from 0.
    pub fn column(&self, name: &str) -> Option<usize>
        ensures first { result ≡ column_of self.now.header name.now }
        ensures within { IfSome result (λ column. column < length self.now.header) }
    {
        self.columns.get(name).copied()
    }

    /// The first row at or after `from` whose `print_identifier` or `online_identifier` is one of the
    /// identifiers, compared without hyphens and spaces and in capital letters. A binary search; for one row after
    /// another use [`matches`](Table::matches).
    pub fn next_match(&self, ids: &Ids, from: usize) -> Option<usize>
        ensures first { result ≡ spec.first_from from (spec.matching_rows self.now ids.now) }
        ensures within { IfSome result (λ row. row < length self.now.rows) }
    {
        next_row(self, ids, &mut self.runs(ids, from), from)
    }

    /// The rows that match the identifiers, in rising order: those that [`next_match`](Table::next_match) finds.
    pub fn matches<'a>(&'a self, ids: &'a Ids) -> Matches<'a>
        ensures rows { result ≡ spec.matching_rows self.now ids.now }
        ensures within { All (λ row. row < length self.now.rows) result }
    {
        Matches::new(self, ids)
    }

    /// What each row's identifiers have in common with other rows at most. It takes one pass over the index, and no
    /// look-up. Identifiers whose hashes share their upper half may have less in common than it says.
    ///
    /// Fails if an allocation failed.
    pub fn sharing(&self, alloc: Global) -> Result<Vec<Sharing>, AllocError>
        ensures count { IfOk result (λ sharing. length sharing.items ≡ length self.now.rows) }
        ensures bounds { IfOk result (λ sharing. (row : ℕ) (d : Sharing) → row < length self.now.rows
            → SharesAtMost self.now row (get_or sharing.items row d).first (get_or sharing.items row d).rows) }
    {
        sharing_of(alloc, self.index.as_slice(), self.rows())
    }

    /// Runs through the index, one for each identifier, from this row on.
    pub(crate) fn runs(&self, ids: &Ids, from: usize) -> Runs<'_>
        ensures { AreReady self.now ids.now from result }
    {
        Runs::of(&self.index, self.columns.hasher(), ids, from)
    }

    /// Whether a row has one of the identifiers.
    pub(crate) fn is_match(&self, row: usize, ids: &Ids) -> bool
        requires { row < usize.MAX }
        ensures { result ≡ matches self.now ids.now row }
    {
        let line = self.lines.line(row + 1);
        has_one(line, self.print, ids) || has_one(line, self.online, ids)
    }

    /// Adds each defined cell of a row, counted from 0, to the environment under the name of its column, in the order
    /// of the columns. If several columns have the same name, only the first counts. A name that the environment
    /// already has stays as it is.
    ///
    /// `TooLarge` if a cell would exceed a limit of the environment, `NoMemory` if an allocation failed. The cells
    /// before the rejected one stay added.
    pub fn fill(&self, row: usize, env: &mut Env) -> Result<(), VarsError>
        requires { row < length self.now.rows }
        ensures ok { OnOk result
            (env.new.entries ≡ with_named_cells env.old.entries
            (named_cells self.now.header (get_or self.now.rows row []))) }
        ensures err { IfErr result
            (StopsAtCell env.old.entries (named_cells self.now.header (get_or self.now.rows row []))
            env.new.entries) }

        // How much the environment grows at most, whatever the result.
        ensures bytes { byte_count env.new.entries ≤ byte_count env.old.entries
            + cell_bytes (named_cells self.now.header (get_or self.now.rows row [])) }
        ensures small { cell_bytes (named_cells self.now.header (get_or self.now.rows row [])) ≤ MAX_ROW_BYTES }
        ensures members { member_count env.new.entries ≡ member_count env.old.entries }

        // If there is room for that, the only possible error is out of memory. An empty environment has room for a row
        // and a request.
        ensures room { byte_count env.old.entries + MAX_ROW_BYTES ≤ MAX_BYTES
            → IfErr result (λ e. e ≡ vars_error.NoMemory) }
        ensures empty { env.old.entries ≡ [] → IfErr result (λ e. e ≡ vars_error.NoMemory) }
        ensures request_fits { env.old.entries ≡ []
            → (byte_count env.new.entries + 3 * MAX_QUERY_BYTES ≤ MAX_BYTES)
            × (member_count env.new.entries + MAX_PAIRS ≤ MAX_MEMBERS) }
    {
        fill(self.header(), &self.columns, self.lines.line(row + 1), env)
    }
}

/// Whether the cell of a column in a line is defined, and has one of the identifiers.
fn has_one(line: &str, column: Option<usize>, ids: &Ids) -> bool
    ensures { result ≡ list_any (λ id. is_id id (identifier_in (cells_in line.now) column)) ids.now }
{
    match cell_in(line, column) {
        Some(cell) => ids.has(cell),
        None => false,
    }
}
