//! The lines of a registry file.

ghost use Rattle.std.specs.Prelude.{◌≡◌, ◌++◌, ◌∷◌, [], IfNone, IfOk, IfSome, IsUtf8, Ok, OnOk, Some, map};
ghost use Rattle.csv.specs.Records.{field_at, fields_of};
ghost use Rattle.csv.specs.declared.record.ByteRecord.{ByteRecord};
ghost use Rattle.kbart_rows.specs.Reading.{AreLines};
ghost use Rattle.registry_file.specs.Lines.{IsNoTargetLine, IsTargetLine};

use csv::ByteRecord;
use kbart_rows::tab_separated_reader;
use std::alloc::{AllocError, Global};

/// The maximum size of a registry file, in bytes; a byte order mark counts.
pub const MAX_REGISTRY_BYTES: usize = 65_536;

/// The records of a tab-separated text, without blank lines; one byte order mark is dropped.
pub(crate) fn read_lines(alloc: Global, bytes: &[u8]) -> Result<Vec<ByteRecord>, AllocError>
    ensures { IfOk result (λ lines. AreLines bytes.now (map fields_of lines.items)) }
{
    let mut lines = Vec::new(alloc);
    for record in tab_separated_reader(alloc, bytes).into_byte_records() {
        push_line(&mut lines, record)?;
    }
    Ok(lines)
}

/// Adds a line after the others, if it was read. Reading from bytes fails only if memory runs out.
fn push_line(lines: &mut Vec<ByteRecord>, read: csv::Result<ByteRecord>) -> Result<(), AllocError>
    ensures { OnOk result ((line : ByteRecord) × (read ≡ Ok line) × (lines.new.items ≡ lines.old.items ++ line ∷ [])) }
{
    match read {
        Ok(line) => Ok(lines.push(line)?),
        Err(_) => Err(AllocError),
    }
}

/// The cells of a target's line.
#[derive(Clone, Copy)]
pub(crate) struct TargetLine<'a> {
    pub(crate) name: &'a str,
    pub(crate) code: &'a str,
    pub(crate) table: &'a str,
}

/// The cells of a line, if there are exactly three and each is UTF-8.
pub(crate) fn target_line(line: &ByteRecord) -> Option<TargetLine<'_>>
    ensures line { IfSome result
        (λ cells. IsTargetLine (fields_of line.now) cells.name.now cells.code.now cells.table.now) }
    ensures none { IfNone result (IsNoTargetLine (fields_of line.now)) }
{
    if line.len() != 3 {
        return None;
    }
    Some(TargetLine {
        name: text(line, 0)?,
        code: text(line, 1)?,
        table: text(line, 2)?,
    })
}

/// The cell of a line, if it is present and is UTF-8.
fn text(line: &ByteRecord, at: usize) -> Option<&str>
    ensures there { IfSome result (λ cell. (field_at (fields_of line.now) at ≡ Some cell.now) × IsUtf8 cell.now) }
    ensures none { IfNone result ((cell : _) → field_at (fields_of line.now) at ≡ Some cell → ¬ (IsUtf8 cell)) }
{
    str::from_utf8(line.get(at)?).ok()
}
