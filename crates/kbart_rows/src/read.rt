//! The limits of a table, and its lines.

ghost use Rattle.std.specs.Prelude.{◌≡◌, ◌≤◌, ◌<◌, ◌+◌, ◌++◌, ◌∷◌, [], IfOk, IfErr, IsUtf8, OnOk, length};
ghost use Rattle.csv.specs.Records.{fields_of};
ghost use Rattle.kbart_rows.specs.Cells.{row_bytes};
ghost use Rattle.kbart_rows.specs.Private.Line.{cells_of};
ghost use Rattle.kbart_rows.specs.Private.WholeLines.{IsReaderBy, no_byte};
ghost use Rattle.kbart_rows.specs.Private.Kept.{IsRead, IsRefusedLine};
ghost use Rattle.kbart_rows.specs.declared.error.TableError.TheVariants.{NoMemory};
ghost use Rattle.kbart_rows.specs.Reading.{AreLines, AllFit, IsFault, IsFreshReader, IsLineFault, IsText};

use crate::error::TableError;
use crate::records::Records;
use csv::{Reader, ReaderBuilder, StringRecord};
use std::alloc::Global;

/// The maximum size of a table, in bytes; a byte order mark counts.
pub const MAX_TABLE_BYTES: usize = 16_777_216;

/// The maximum number of rows in a table; the header is not a row.
pub const MAX_ROWS: usize = 200_000;

/// The maximum number of bytes of a line's cells and the tabs between them, in the header too. Cells beyond the columns
/// of the header count.
pub const MAX_ROW_BYTES: usize = 65_536;

/// Rejects bytes that are too many or not UTF-8.
pub(crate) fn check_bytes(bytes: &[u8]) -> Result<(), TableError>
    ensures text { OnOk result (IsText bytes.now) }
    ensures refused { IfErr result (IsFault bytes.now) }
{
    if bytes.len() > MAX_TABLE_BYTES {
        return Err(TableError::TooLong);
    }
    if str::from_utf8(bytes).is_err() {
        return Err(TableError::NotUtf8);
    }
    Ok(())
}

/// The lines of a table that are not blank; the first is the header.
pub(crate) fn read_lines(alloc: Global, bytes: &[u8]) -> Result<Records, TableError>
    requires { IsUtf8 bytes.now }
    ensures lines { IfOk result (λ lines. AreLines bytes.now lines) }
    ensures some { IfOk result (λ lines. 0 < length lines) }
    ensures few { IfOk result (λ lines. length lines ≤ MAX_ROWS + 1) }
    ensures fit { IfOk result AllFit }
    ensures refused { IfErr result (IsLineFault bytes.now) }
{
    // A kept line ends with a tab, and a line of the table with a line end, which only the last may lack.
    let mut lines = Records::with_capacity(alloc, bytes.len().saturating_add(1))?;
    let mut reader = whole_line_reader(alloc, bytes);
    let mut line = StringRecord::new(alloc);
    while read_line(&mut reader, &mut line)? {
        add_line(&mut lines, line.get(0).unwrap_or(""))?;
    }
    if lines.len() == 0 {
        return Err(TableError::NoHeader);
    }
    Ok(lines)
}

/// Reads the next line that is not blank, as a record of one field, and returns whether there is one.
fn read_line(reader: &mut Reader<&[u8]>, line: &mut StringRecord) -> Result<bool, TableError>
    ensures read { IfOk result (λ found. IsRead reader.old found (fields_of line.new) reader.new) }
    ensures refused { IfErr result (λ e. e ≡ NoMemory) }
{
    match reader.read_record(line) {
        Ok(found) => Ok(found),
        Err(_) => Err(TableError::NoMemory),
    }
}

/// A reader of the same lines as [`tab_separated_reader`]'s, but each is one field, with its tabs: no UTF-8 text has
/// the byte that would separate fields.
fn whole_line_reader(alloc: Global, bytes: &[u8]) -> Reader<&[u8]>
    ensures { IsReaderBy no_byte bytes.now result }
{
    reader_by(0xFF, alloc, bytes)
}

/// A reader of tab-separated records, as in a table: a line ends with LF, CR LF or CR; blank lines are not records;
/// there are no quotes; and one byte order mark at the beginning is dropped.
pub fn tab_separated_reader(alloc: Global, bytes: &[u8]) -> Reader<&[u8]>
    ensures { IsFreshReader bytes.now result }
{
    reader_by(b'\t', alloc, bytes)
}

fn reader_by(delimiter: u8, alloc: Global, bytes: &[u8]) -> Reader<&[u8]>
    ensures { IsReaderBy delimiter bytes.now result }
{
    ReaderBuilder::new()
        .delimiter(delimiter)
        .quoting(false)
        .flexible(true)
        .has_headers(false)
        .from_reader(alloc, bytes)
}

/// Adds a line after the others.
fn add_line(lines: &mut Records, line: &str) -> Result<(), TableError>
    ensures added { OnOk result (lines.new ≡ lines.old ++ cells_of line.now ∷ []) }
    ensures few { OnOk result (length lines.old ≤ MAX_ROWS) }
    ensures fits { OnOk result (row_bytes (cells_of line.now) ≤ MAX_ROW_BYTES) }
    ensures refused { IfErr result (IsRefusedLine (length lines.old) (cells_of line.now)) }
{
    if lines.len() > MAX_ROWS {
        return Err(TableError::TooManyRows);
    }
    lines.push(line)
}
