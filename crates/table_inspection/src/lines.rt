//! The lines of findings.

ghost use Rattle.std.specs.Prelude.{◌≡◌, ◌++◌, OnOk, false, true, codes, string_bytes};
ghost use Rattle.std.specs.Fmt.{decimal};
ghost use Rattle.printed_text.specs.Printed.{shortened};
ghost use Rattle.table_inspection.specs.Findings.{counted, counted_cells, counted_rows, newline, named_text};
ghost use Rattle.table_inspection.specs.Private.AddedLines.{AddsLine};

use printed_text::{Findings, push_shortened};
use std::alloc::AllocError;

/// Adds `LABEL COUNT`.
pub(crate) fn add_count(
    findings: &mut Findings,
    label: &str,
    count: usize,
    warns: bool,
) -> Result<(), AllocError>
    ensures { OnOk result (AddsLine findings.old findings.new (counted label.now count) warns) }
{
    let out = &mut findings.text;
    write!(out, "{label} {count}\n")?;
    findings.warned |= warns;
    Ok(())
}

/// Adds `LABEL COUNT, first FIRST`.
pub(crate) fn add_rows(
    findings: &mut Findings,
    label: &str,
    count: usize,
    first: usize,
    warns: bool,
) -> Result<(), AllocError>
    ensures { OnOk result (AddsLine findings.old findings.new (counted_rows label.now count first) warns) }
{
    let out = &mut findings.text;
    write!(out, "{label} {count}, first {first}\n")?;
    findings.warned |= warns;
    Ok(())
}

/// Adds `LABEL COUNT, first FIRST TEXT`, which is a warning.
pub(crate) fn add_cells(
    findings: &mut Findings,
    label: &str,
    count: usize,
    first: usize,
    text: &str,
) -> Result<(), AllocError>
    ensures { OnOk result
        (AddsLine findings.old findings.new (counted_cells label.now count first text.now) true) }
{
    let out = &mut findings.text;
    write!(out, "{label} {count}, first {first} ")?;
    push_shortened(out, text.as_bytes())?;
    out.push('\n')?;
    findings.warned = true;
    Ok(())
}

/// Adds `LABEL TEXT`.
pub(crate) fn add_text(
    findings: &mut Findings,
    label: &str,
    text: &str,
    warns: bool,
) -> Result<(), AllocError>
    ensures { OnOk result (AddsLine findings.old findings.new (named_text label.now text.now) warns) }
{
    let out = &mut findings.text;
    write!(out, "{label} ")?;
    push_shortened(out, text.as_bytes())?;
    out.push('\n')?;
    findings.warned |= warns;
    Ok(())
}

/// Adds `no column NAME`.
pub(crate) fn add_missing(
    findings: &mut Findings,
    name: &str,
    warns: bool,
) -> Result<(), AllocError>
    ensures { OnOk result (AddsLine findings.old findings.new (codes "no column " ++ name.now) warns) }
{
    let out = &mut findings.text;
    write!(out, "no column {name}\n")?;
    findings.warned |= warns;
    Ok(())
}

/// Adds `LABEL TEXT, did you mean NAME`, which is a warning.
pub(crate) fn add_misspelled(
    findings: &mut Findings,
    label: &str,
    text: &str,
    name: &str,
) -> Result<(), AllocError>
    ensures { OnOk result
        (AddsLine findings.old findings.new
        (named_text label.now text.now ++ (codes ", did you mean " ++ name.now)) true) }
{
    push_named(&mut findings.text, label, text)?;
    push_meant(&mut findings.text, name)?;
    findings.warned = true;
    Ok(())
}

fn push_named(out: &mut String, label: &str, text: &str) -> Result<(), AllocError>
    ensures { OnOk result (string_bytes out.new ≡ string_bytes out.old ++ named_text label.now text.now) }
{
    write!(out, "{label} ")?;
    push_shortened(out, text.as_bytes())?;
    Ok(())
}

fn push_meant(out: &mut String, name: &str) -> Result<(), AllocError>
    ensures { OnOk result
        (string_bytes out.new ≡ string_bytes out.old ++ (codes ", did you mean " ++ (name.now ++ newline))) }
{
    write!(out, ", did you mean {name}\n")
}

/// Adds `LABEL COUNT, TEXT`.
pub(crate) fn add_most_rows(
    findings: &mut Findings,
    label: &str,
    count: usize,
    id: &[u8],
) -> Result<(), AllocError>
    ensures { OnOk result
        (AddsLine findings.old findings.new
        (label.now ++ (codes " " ++ (decimal count ++ (codes ", " ++ shortened id.now)))) false) }
{
    let out = &mut findings.text;
    write!(out, "{label} {count}, ")?;
    push_shortened(out, id)?;
    out.push('\n')?;
    Ok(())
}
