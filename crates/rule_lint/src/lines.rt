//! The lines that are printed.

ghost use Rattle.std.specs.Prelude.{◌≡◌, ◌++◌, OnOk, string_bytes};
ghost use Rattle.rule_lint.specs.Findings.{finding_text, place_text, RuleCount, NeverReached, NoColumn, UnknownName};
ghost use Rattle.rule_lint.specs.Findings.{MisspeltName, NeverHolds, HostByRequest, Hostless, NeverWebLink};

use crate::place::Place;
use std::alloc::AllocError;

fn push_place(out: &mut String, at: Place) -> Result<(), AllocError>
    ensures { OnOk result (string_bytes out.new ≡ string_bytes out.old ++ place_text at) }
{
    match at {
        Place::Guard { rule, guard } => write!(out, "rule {rule}, guard {guard}"),
        Place::Link { rule } => write!(out, "rule {rule}, link"),
    }
}

pub(crate) fn push_rule_count(out: &mut String, n: usize) -> Result<(), AllocError>
    ensures { OnOk result (string_bytes out.new ≡ string_bytes out.old ++ finding_text (RuleCount n)) }
{
    write!(out, "rules {n}\n")
}

pub(crate) fn push_never_reached(out: &mut String, rule: usize) -> Result<(), AllocError>
    ensures { OnOk result (string_bytes out.new ≡ string_bytes out.old ++ finding_text (NeverReached rule)) }
{
    write!(out, "rule {rule} is never reached\n")
}

pub(crate) fn push_no_column(out: &mut String, at: Place, name: &str) -> Result<(), AllocError>
    ensures { OnOk result (string_bytes out.new ≡ string_bytes out.old ++ finding_text (NoColumn at name.now)) }
{
    push_place(out, at)?;
    write!(out, ": no column {name}\n")
}

pub(crate) fn push_unknown_name(out: &mut String, at: Place, name: &str) -> Result<(), AllocError>
    ensures { OnOk result (string_bytes out.new ≡ string_bytes out.old ++ finding_text (UnknownName at name.now)) }
{
    push_place(out, at)?;
    write!(out, ": unknown name {name}\n")
}

pub(crate) fn push_misspelt_name(
    out: &mut String,
    at: Place,
    name: &str,
    other: &str,
) -> Result<(), AllocError>
    ensures { OnOk result (string_bytes out.new
        ≡ string_bytes out.old ++ finding_text (MisspeltName at name.now other.now)) }
{
    push_place(out, at)?;
    write!(out, ": unknown name {name}, did you mean {other}\n")
}

pub(crate) fn push_never_holds(out: &mut String, at: Place) -> Result<(), AllocError>
    ensures { OnOk result (string_bytes out.new ≡ string_bytes out.old ++ finding_text (NeverHolds at)) }
{
    push_place(out, at)?;
    out.push_str(": never holds\n")
}

pub(crate) fn push_host_by_request(
    out: &mut String,
    at: Place,
    name: &str,
) -> Result<(), AllocError>
    ensures { OnOk result (string_bytes out.new ≡ string_bytes out.old ++ finding_text (HostByRequest at name.now)) }
{
    push_place(out, at)?;
    write!(out, ": a request can set the host by {name}\n")
}

pub(crate) fn push_hostless(out: &mut String, at: Place) -> Result<(), AllocError>
    ensures { OnOk result (string_bytes out.new ≡ string_bytes out.old ++ finding_text (Hostless at)) }
{
    push_place(out, at)?;
    write!(out, ": a row may give no host, or one with @\n")
}

pub(crate) fn push_never_web_link(out: &mut String, at: Place) -> Result<(), AllocError>
    ensures { OnOk result (string_bytes out.new ≡ string_bytes out.old ++ finding_text (NeverWebLink at)) }
{
    push_place(out, at)?;
    out.push_str(": never a web link\n")
}
