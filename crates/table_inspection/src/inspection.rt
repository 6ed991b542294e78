//! The inspection of a holdings table.

ghost use Rattle.std.specs.Prelude.{◌≡◌, IfOk, OnOk, length, string_bytes};
ghost use Rattle.kbart_rows.specs.Identifiers.{identifier_columns};
ghost use Rattle.table_inspection.specs.Identifiers.{distinct, identifiers_of};
ghost use Rattle.table_inspection.specs.Inspection as spec;
ghost use Rattle.table_inspection.specs.Private.AddedLines.{Adds};
ghost use Rattle.table_inspection.specs.Private.Counting.{AreIdentified};

use crate::columns::add_columns;
use crate::identifiers::{Identified, identify};
use crate::lines::add_count;
use crate::most_rows::add_most;
use crate::values::add_values;
use kbart_rows::Table;
use printed_text::Findings;
use std::alloc::{AllocError, Global};

/// The quality of a table, a line for each finding: how many rows and identifiers it has, and which columns, cells and
/// rows are not as they should be. Rows are counted from 0.
pub fn inspect(alloc: Global, table: &Table) -> Result<Findings, AllocError>
    ensures text { IfOk result (λ findings. string_bytes findings.text ≡ spec.inspection_text table.now) }
    ensures warned { IfOk result (λ findings. findings.warned ≡ spec.has_table_warning table.now) }
{
    let found = identify(alloc, table)?;
    let text = String::new(alloc);
    let mut findings = Findings {
        text,
        warned: false,
    };
    add_counts(&mut findings, table, found.tally.identifiers)?;
    add_columns(alloc, &mut findings, table)?;
    add_identifiers(&mut findings, table, &found)?;
    add_values(&mut findings, table)?;
    Ok(findings)
}

/// Adds how many rows and identifiers there are.
fn add_counts(findings: &mut Findings, table: &Table, identifiers: usize) -> Result<(), AllocError>
    requires { identifiers
        ≡ length (distinct (identifiers_of (identifier_columns table.now.header) table.now.rows)) }
    ensures { OnOk result (Adds findings.old findings.new (spec.totals table.now)) }
{
    let rows = table.rows();
    add_count(findings, "rows", rows, rows == 0)?;
    add_count(findings, "identifiers", identifiers, identifiers == 0)?;
    Ok(())
}

/// Adds the findings in the columns of identifiers.
fn add_identifiers(
    findings: &mut Findings,
    table: &Table,
    found: &Identified<'_>,
) -> Result<(), AllocError>
    requires { AreIdentified table.now found.now }
    ensures { OnOk result (Adds findings.old findings.new (spec.findings_in_identifiers table.now)) }
{
    found
        .unidentified
        .tell(findings, "rows without an identifier", true)?;
    found.bad_numbers.tell(findings, "not an ISSN or ISBN")?;
    add_most(findings, &found.tally.most)?;
    Ok(())
}
