//! The findings in the header.

ghost use Rattle.std.specs.Prelude.{◌≡◌, ◌∷◌, ◌&&◌, [], OnOk, get_or, length};
ghost use Rattle.std.specs.List.{find, flat_map, list_any, range_with_len};
ghost use Rattle.std.specs.Option.{option_copied};
ghost use Rattle.std.specs.Str.{bytes_eq};
ghost use Rattle.standard_names.specs.Columns.{known_columns};
ghost use Rattle.table_inspection.specs.Columns as spec;
ghost use Rattle.table_inspection.specs.Inspection.{findings_in_columns};
ghost use Rattle.table_inspection.specs.Private.AddedLines.{Adds};
ghost use Rattle.table_inspection.specs.Private.Headers.{findings_of};

use crate::lines::{add_missing, add_misspelled, add_text};
use crate::spelling::spelling;
use kbart_rows::{RowCursor, Table};
use printed_text::Findings;
use standard_names::known_columns;
use std::alloc::{AllocError, Global};

/// Columns that are told of.
#[derive(Clone, Copy)]
pub(crate) enum ColumnKind {
    /// Neither of the standard nor added when a table is prepared.
    Unknown,
    /// With the name of an earlier one.
    Ignored,
}

/// Adds the columns that are missing, unknown and ignored.
pub(crate) fn add_columns(
    alloc: Global,
    findings: &mut Findings,
    table: &Table,
) -> Result<(), AllocError>
    ensures { OnOk result (Adds findings.old findings.new (findings_in_columns table.now.header)) }
{
    add_missing_columns(findings, table)?;
    add_columns_of(alloc, findings, table, ColumnKind::Unknown)?;
    add_columns_of(alloc, findings, table, ColumnKind::Ignored)?;
    Ok(())
}

fn add_missing_columns(findings: &mut Findings, table: &Table) -> Result<(), AllocError>
    ensures { OnOk result (Adds findings.old findings.new (spec.missing_columns table.now.header)) }
{
    let are_both = is_missing(table, "print_identifier") && is_missing(table, "online_identifier");
    add_if_missing(findings, table, "print_identifier", are_both)?;
    add_if_missing(findings, table, "online_identifier", are_both)?;
    Ok(())
}

/// Adds a column of identifiers if it is missing.
fn add_if_missing(
    findings: &mut Findings,
    table: &Table,
    name: &str,
    are_both: bool,
) -> Result<(), AllocError>
    requires { are_both ≡ spec.are_both_missing table.now.header }
    ensures { OnOk result (Adds findings.old findings.new (spec.missing_column table.now.header name.now)) }
{
    if is_missing(table, name) {
        add_missing(findings, name, are_both)?;
        return Ok(());
    }
    Ok(())
}

fn is_missing(table: &Table, name: &str) -> bool
    ensures { result ≡ spec.is_missing table.now.header name.now }
{
    table.column(name).is_none()
}

/// Adds the columns of a kind, in order.
fn add_columns_of(
    alloc: Global,
    findings: &mut Findings,
    table: &Table,
    kind: ColumnKind,
) -> Result<(), AllocError>
    ensures { OnOk result (Adds findings.old findings.new
        (flat_map (findings_of kind table.now.header) (range_with_len 0 (length table.now.header)))) }
{
    let mut column: usize = 0;
    let mut names = RowCursor::new(table.header());
    while let Some(name) = names.next_cell() {
        add_column(alloc, findings, table, kind, name, column)?;
        column += 1;
    }
    Ok(())
}

/// Adds a column, if it is of the kind.
fn add_column(
    alloc: Global,
    findings: &mut Findings,
    table: &Table,
    kind: ColumnKind,
    name: &str,
    column: usize,
) -> Result<(), AllocError>
    requires { name.now ≡ get_or table.now.header column [] }
    ensures { OnOk result (Adds findings.old findings.new (findings_of kind table.now.header column)) }
{
    match kind {
        ColumnKind::Unknown => add_if_unknown(alloc, findings, table, name, column),
        ColumnKind::Ignored => add_if_ignored(findings, table, name, column),
    }
}

fn add_if_unknown(
    alloc: Global,
    findings: &mut Findings,
    table: &Table,
    name: &str,
    column: usize,
) -> Result<(), AllocError>
    requires { name.now ≡ get_or table.now.header column [] }
    ensures { OnOk result (Adds findings.old findings.new (spec.unknown_column table.now.header column)) }
{
    if is_unknown(table, name, column) {
        add_unknown(alloc, findings, table, name)?;
        return Ok(());
    }
    Ok(())
}

fn add_if_ignored(
    findings: &mut Findings,
    table: &Table,
    name: &str,
    column: usize,
) -> Result<(), AllocError>
    requires { name.now ≡ get_or table.now.header column [] }
    ensures { OnOk result (Adds findings.old findings.new (spec.ignored_column table.now.header column)) }
{
    if is_ignored(table, name, column) {
        add_text(findings, "ignored column", name, true)?;
        return Ok(());
    }
    Ok(())
}

fn is_unknown(table: &Table, name: &str, column: usize) -> bool
    requires { name.now ≡ get_or table.now.header column [] }
    ensures { result ≡ spec.is_unknown table.now.header column }
{
    !name.is_empty() && table.column(name) == Some(column) && !is_known(name)
}

fn is_ignored(table: &Table, name: &str, column: usize) -> bool
    requires { name.now ≡ get_or table.now.header column [] }
    ensures { result ≡ spec.is_ignored table.now.header column }
{
    !name.is_empty() && table.column(name) != Some(column)
}

fn is_known(name: &str) -> bool
    ensures { result ≡ list_any (bytes_eq name.now) known_columns }
{
    for other in known_columns() {
        if is_same(name, other) {
            return true;
        }
    }
    false
}

/// Adds a column that is unknown, with the known name that it resembles.
fn add_unknown(
    alloc: Global,
    findings: &mut Findings,
    table: &Table,
    text: &str,
) -> Result<(), AllocError>
    ensures { OnOk result
        (Adds findings.old findings.new (spec.column_finding text.now (spec.meant table.now.header text.now) ∷ [])) }
{
    let spelled = spelling(alloc, text)?;
    let found = meant(table, spelled.as_str());
    let Some(name) = found else {
        add_text(findings, "unknown column", text, false)?;
        return Ok(());
    };
    add_misspelled(findings, "unknown column", text, name)?;
    Ok(())
}

/// The first of the known names that has this spelling, and that no column has.
fn meant(table: &Table, spelling: &str) -> Option<&'static str>
    ensures { option_copied result
        ≡ find (λ name. spec.is_missing table.now.header name && bytes_eq spelling.now name) known_columns }
{
    for name in known_columns() {
        if is_meant(table, spelling, name) {
            return Some(name);
        }
    }
    None
}

fn is_meant(table: &Table, spelling: &str, name: &str) -> bool
    ensures { result ≡ (spec.is_missing table.now.header name.now && bytes_eq spelling.now name.now) }
{
    is_missing(table, name) && spelling == name
}

fn is_same(name: &str, other: &str) -> bool
    ensures { result ≡ bytes_eq name.now other.now }
{
    name == other
}
