//! The findings, rule by rule.

ghost use Rattle.std.specs.Prelude.{◌≡◌, ◌<◌, ◌+◌, length, OnOk, map};
ghost use Rattle.text_model.specs.Texts.{texts_of};
ghost use Rattle.rule_lint.specs.Findings.{in_name, in_names, in_guard, in_guards, in_link, in_host, in_open_host};
ghost use Rattle.rule_lint.specs.Findings.{in_rule, in_rules};
ghost use Rattle.rule_lint.specs.Findings.{HostByRequest, Hostless, NeverHolds, found_if};
ghost use Rattle.rule_lint.specs.Reach.{never_holds as is_never_held};
ghost use Rattle.rule_lint.specs.Private.Adds.{Adds};

use crate::lines::{
    push_host_by_request, push_hostless, push_misspelt_name, push_never_holds, push_never_reached,
    push_never_web_link, push_no_column, push_unknown_name,
};
use crate::names::is_standard_column;
use crate::place::Place;
use crate::reach::{is_never_reached, never_holds};
use crate::target::Target;
use crate::template_names::names_in;
use crate::web_link::is_never_web_link;
use printed_text::Findings;
use rule_parser::{Guard, Rule};
use std::alloc::{AllocError, Global};
use uri_grammar::Part;

fn check_name(out: &mut Findings, target: &Target, at: Place, name: &str) -> Result<(), AllocError>
    ensures { OnOk result (Adds out.old out.new (in_name target.now.rules.now target.now.table.now at name.now)) }
{
    if target.is_known(name) {
        return Ok(());
    }
    out.warned = true;
    if is_standard_column(name) {
        return push_no_column(&mut out.text, at, name);
    }
    match target.resembled(name) {
        Some(other) => push_misspelt_name(&mut out.text, at, name, other),
        None => push_unknown_name(&mut out.text, at, name),
    }
}

fn check_names(
    out: &mut Findings,
    target: &Target,
    at: Place,
    names: &[&str],
) -> Result<(), AllocError>
    ensures { OnOk result (Adds out.old out.new
        (in_names target.now.rules.now target.now.table.now at (texts_of names.now))) }
{
    for name in names {
        check_name(out, target, at, name)?;
    }
    Ok(())
}

fn check_bounds(out: &mut Findings, at: Place, guard: &Guard) -> Result<(), AllocError>
    ensures { OnOk result (Adds out.old out.new (found_if (is_never_held guard.now) (NeverHolds at))) }
{
    if !never_holds(guard) {
        return Ok(());
    }
    out.warned = true;
    push_never_holds(&mut out.text, at)
}

fn check_guard(
    alloc: Global,
    out: &mut Findings,
    target: &Target,
    at: Place,
    guard: &Guard,
) -> Result<(), AllocError>
    ensures { OnOk result (Adds out.old out.new
        (in_guard target.now.rules.now target.now.table.now at guard.now)) }
{
    let names = guard.names(alloc)?;
    check_names(out, target, at, &names)?;
    check_bounds(out, at, guard)
}

fn check_guards(
    alloc: Global,
    out: &mut Findings,
    target: &Target,
    rule: usize,
    guards: &[Guard],
) -> Result<(), AllocError>
    ensures { OnOk result (Adds out.old out.new
        (in_guards target.now.rules.now target.now.table.now rule guards.now)) }
{
    for (i, guard) in guards.iter().enumerate() {
        check_guard(
            alloc,
            out,
            target,
            Place::Guard { rule, guard: i + 1 },
            guard,
        )?;
    }
    Ok(())
}

fn push_host_names(out: &mut Findings, at: Place, names: &[&str]) -> Result<(), AllocError>
    ensures { OnOk result (Adds out.old out.new (map (HostByRequest at) (texts_of names.now))) }
{
    for name in names {
        out.warned = true;
        push_host_by_request(&mut out.text, at, name)?;
    }
    Ok(())
}

fn push_if_hostless(out: &mut Findings, at: Place, hostless: bool) -> Result<(), AllocError>
    ensures { OnOk result (Adds out.old out.new (found_if hostless (Hostless at))) }
{
    if !hostless {
        return Ok(());
    }
    out.warned = true;
    push_hostless(&mut out.text, at)
}

fn push_open_host(
    out: &mut Findings,
    at: Place,
    names: &[&str],
    hostless: bool,
) -> Result<(), AllocError>
    ensures { OnOk result (Adds out.old out.new (in_open_host at (texts_of names.now) hostless)) }
{
    if names.is_empty() {
        return push_if_hostless(out, at, hostless);
    }
    push_host_names(out, at, names)
}

fn check_host(
    alloc: Global,
    out: &mut Findings,
    target: &Target,
    at: Place,
    parts: &[Part],
) -> Result<(), AllocError>
    ensures { OnOk result (Adds out.old out.new
        (in_host target.now.rules.now target.now.table.now at parts.now)) }
{
    if is_never_web_link(alloc, parts)? {
        return push_never_web_link(&mut out.text, at);
    }
    let host = target.host(alloc, parts)?;
    push_open_host(out, at, &host.names, host.may_be_missing)
}

fn check_link(
    alloc: Global,
    out: &mut Findings,
    target: &Target,
    at: Place,
    parts: &[Part],
) -> Result<(), AllocError>
    ensures { OnOk result (Adds out.old out.new
        (in_link target.now.rules.now target.now.table.now at parts.now)) }
{
    let names = names_in(alloc, target.table.keys(), parts)?;
    check_names(out, target, at, &names)?;
    check_host(alloc, out, target, at, parts)
}

/// Checks a rule: its index counts from 0, and its printed number from 1.
fn check_rule(
    alloc: Global,
    out: &mut Findings,
    target: &Target,
    k: usize,
    number: usize,
    rule: &Rule,
) -> Result<(), AllocError>
    requires within { k < length target.now.rules.now.rules }
    requires number { number ≡ k + 1 }
    ensures { OnOk result (Adds out.old out.new
        (in_rule target.now.rules.now target.now.table.now (k, rule.now))) }
{
    if is_never_reached(target.rules.rules(), k) {
        out.warned = true;
        return push_never_reached(&mut out.text, number);
    }
    check_guards(alloc, out, target, number, rule.guards.as_slice())?;
    check_link(
        alloc,
        out,
        target,
        Place::Link { rule: number },
        rule.template.parts(),
    )
}

pub(crate) fn check_rules(
    alloc: Global,
    out: &mut Findings,
    target: &Target,
    rules: &[Rule],
) -> Result<(), AllocError>
    requires { rules.now ≡ target.now.rules.now.rules }
    ensures { OnOk result (Adds out.old out.new (in_rules target.now.rules.now target.now.table.now)) }
{
    for (k, rule) in rules.iter().enumerate() {
        check_rule(alloc, out, target, k, k + 1, rule)?;
    }
    Ok(())
}
