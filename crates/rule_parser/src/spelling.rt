//! Guards as text.

ghost use Rattle.std.specs.Prelude.{◌≡◌, ◌++◌, OnOk, encode_utf8, string_bytes};
ghost use Rattle.rule_parser.specs.Statements.{bound_text, bounds_text, escaped, guard_text, quoted};

use crate::rule::{Bound, Guard};
use std::alloc::AllocError;

/// Appends a character of a text, after a backslash if it is a quote or a backslash.
#[tactic(auto, using(crate::proofs::SpellingLemmas::plain_character))]
fn push_escaped_char(out: &mut String, c: char) -> Result<(), AllocError>
    ensures { OnOk result (string_bytes out.new ≡ string_bytes out.old ++ escaped (encode_utf8 c)) }
{
    match c {
        '"' => out.push_str("\\\""),
        '\\' => out.push_str("\\\\"),
        _ => out.push(c),
    }
}

fn push_escaped(out: &mut String, text: &str) -> Result<(), AllocError>
    ensures { OnOk result (string_bytes out.new ≡ string_bytes out.old ++ escaped text.now) }
{
    for c in text.chars() {
        push_escaped_char(out, c)?;
    }
    Ok(())
}

fn push_quoted(out: &mut String, text: &str) -> Result<(), AllocError>
    ensures { OnOk result (string_bytes out.new ≡ string_bytes out.old ++ quoted text.now) }
{
    out.push('"')?;
    push_escaped(out, text)?;
    out.push('"')
}

fn push_bound(out: &mut String, bound: &Bound) -> Result<(), AllocError>
    ensures { OnOk result (string_bytes out.new ≡ string_bytes out.old ++ bound_text bound.now) }
{
    match bound {
        Bound::Open => out.push('*'),
        Bound::Digits(digits) => out.push_str(digits.as_str()),
        Bound::Name(name) => out.push_str(name.as_str()),
    }
}

fn push_bounds(out: &mut String, low: &Bound, high: &Bound) -> Result<(), AllocError>
    ensures { OnOk result (string_bytes out.new ≡ string_bytes out.old ++ bounds_text low.now high.now) }
{
    push_bound(out, low)?;
    out.push_str(" to ")?;
    push_bound(out, high)
}

/// Appends two pieces of a line.
fn push_two(out: &mut String, first: &str, second: &str) -> Result<(), AllocError>
    ensures { OnOk result (string_bytes out.new ≡ string_bytes out.old ++ (first.now ++ second.now)) }
{
    out.push_str(first)?;
    out.push_str(second)
}

/// Appends the line of the guard without `when `.
///
/// `AllocError` if an allocation failed; a part of the line may then be appended.
pub fn push_guard(out: &mut String, guard: &Guard) -> Result<(), AllocError>
    ensures { OnOk result (string_bytes out.new ≡ string_bytes out.old ++ guard_text guard.now) }
{
    match guard {
        Guard::Has(name) => push_two(out, "has ", name.as_str()),
        Guard::Lacks(name) => push_two(out, "lacks ", name.as_str()),
        Guard::Given(name) => push_two(out, "given ", name.as_str()),
        Guard::Same(name, text) => {
            push_two(out, name.as_str(), " is ")?;
            push_quoted(out, text.as_str())
        }
        Guard::Holds(name, text) => {
            push_two(out, name.as_str(), " holds ")?;
            push_quoted(out, text.as_str())
        }
        Guard::Between(name, low, high) => {
            push_two(out, name.as_str(), " from ")?;
            push_bounds(out, low, high)
        }
        Guard::Counts(name, low, high) => {
            push_two(out, name.as_str(), " counts ")?;
            push_bounds(out, low, high)
        }
    }
}
