//! How a guard is read from the tokens of its line.

ghost use Rattle.std.specs.Prelude.{◌≡◌, ◌∷◌, ◌++◌, codes, IfOk};
ghost use Rattle.std.specs.List.{list_all};
ghost use Rattle.std.specs.Char.{is_ascii_digit};
ghost use Rattle.uri_grammar.specs.Names.{IsName};
ghost use Rattle.rule_parser.specs.Statements.{is_special as is_quote_or_backslash};
ghost use Rattle.rule_parser.specs.Private.Reading.{ReadsEscaped, ReadsQuoted, ReadsBound, ReadsBounds, ReadsGuard};
ghost use Rattle.rule_parser.specs.Private.Reading.{IsToken};

use crate::names::copy;
use crate::rule::{Bound, Guard};
use std::alloc::{AllocError, Global};
use uri_grammar::{Text, is_name};

/// The maximum number of digits of a bound.
pub const MAX_DIGITS: usize = 9;

/// The guard that is written after `when `, if it is one.
pub(crate) fn guard(alloc: Global, tokens: &str) -> Result<Option<Guard>, AllocError>
    ensures { IfOk result (λ read. ReadsGuard tokens.now read) }
{
    let Some((first, rest)) = tokens.split_once(' ') else {
        return Ok(None);
    };
    match rest.split_once(' ') {
        None => defined(alloc, first, rest),
        Some((verb, value)) => compared(alloc, first, verb, value),
    }
}

fn defined(alloc: Global, verb: &str, name: &str) -> Result<Option<Guard>, AllocError>
    requires verb { IsToken verb.now }
    requires name { IsToken name.now }
    ensures { IfOk result (λ read. ReadsGuard (verb.now ++ 32 ∷ name.now) read) }
{
    if !is_name(name) {
        return Ok(None);
    }
    match verb {
        "has" => Ok(Some(Guard::Has(copy(alloc, name)?))),
        "lacks" => Ok(Some(Guard::Lacks(copy(alloc, name)?))),
        "given" => Ok(Some(Guard::Given(copy(alloc, name)?))),
        _ => Ok(None),
    }
}

fn compared(alloc: Global, name: &str, verb: &str, value: &str) -> Result<Option<Guard>, AllocError>
    requires name { IsToken name.now }
    requires verb { IsToken verb.now }
    ensures { IfOk result (λ read. ReadsGuard (name.now ++ 32 ∷ (verb.now ++ 32 ∷ value.now)) read) }
{
    if !is_name(name) {
        return Ok(None);
    }
    match verb {
        "is" => same(alloc, name, value),
        "holds" => holds(alloc, name, value),
        "from" => between(alloc, name, value),
        "counts" => counts(alloc, name, value),
        _ => Ok(None),
    }
}

fn same(alloc: Global, name: &str, value: &str) -> Result<Option<Guard>, AllocError>
    requires { IsName name.now }
    ensures { IfOk result (λ read. ReadsGuard (name.now ++ (codes " is " ++ value.now)) read) }
{
    let Some(text) = quoted(alloc, value)? else {
        return Ok(None);
    };
    Ok(Some(Guard::Same(copy(alloc, name)?, text)))
}

fn holds(alloc: Global, name: &str, value: &str) -> Result<Option<Guard>, AllocError>
    requires { IsName name.now }
    ensures { IfOk result (λ read. ReadsGuard (name.now ++ (codes " holds " ++ value.now)) read) }
{
    let Some(text) = quoted(alloc, value)? else {
        return Ok(None);
    };
    Ok(Some(Guard::Holds(copy(alloc, name)?, text)))
}

fn between(alloc: Global, name: &str, range: &str) -> Result<Option<Guard>, AllocError>
    requires { IsName name.now }
    ensures { IfOk result (λ read. ReadsGuard (name.now ++ (codes " from " ++ range.now)) read) }
{
    let Some((low, high)) = bounds(alloc, range)? else {
        return Ok(None);
    };
    Ok(Some(Guard::Between(copy(alloc, name)?, low, high)))
}

fn counts(alloc: Global, name: &str, range: &str) -> Result<Option<Guard>, AllocError>
    requires { IsName name.now }
    ensures { IfOk result (λ read. ReadsGuard (name.now ++ (codes " counts " ++ range.now)) read) }
{
    let Some((low, high)) = bounds(alloc, range)? else {
        return Ok(None);
    };
    Ok(Some(Guard::Counts(copy(alloc, name)?, low, high)))
}

/// The text between two quotes.
fn quoted(alloc: Global, value: &str) -> Result<Option<Text>, AllocError>
    ensures { IfOk result (λ read. ReadsQuoted value.now read) }
{
    let Some(rest) = value.strip_prefix('"') else {
        return Ok(None);
    };
    match rest.strip_suffix('"') {
        Some(escaped) => unescaped(alloc, escaped),
        None => Ok(None),
    }
}

/// The text without the backslashes before quotes and backslashes; `None` if a backslash is anywhere else.
fn unescaped(alloc: Global, escaped: &str) -> Result<Option<Text>, AllocError>
    ensures { IfOk result (λ read. ReadsEscaped escaped.now read) }
{
    let mut text = String::with_capacity(alloc, escaped.len())?;
    let mut is_escaped = false;
    for c in escaped.chars() {
        if is_special(c) == is_escaped {
            text.push(c)?;
            is_escaped = false;
        } else if c == '\\' {
            is_escaped = true;
        } else {
            return Ok(None);
        }
    }
    if is_escaped {
        return Ok(None);
    }
    Ok(Some(Text::new(text)))
}

/// The bounds of `LO to HI`.
fn bounds(alloc: Global, range: &str) -> Result<Option<(Bound, Bound)>, AllocError>
    ensures { IfOk result (λ read. ReadsBounds range.now read) }
{
    let Some((low, rest)) = range.split_once(' ') else {
        return Ok(None);
    };
    let Some(high) = rest.strip_prefix("to ") else {
        return Ok(None);
    };
    let Some(low) = bound(alloc, low)? else {
        return Ok(None);
    };
    let Some(high) = bound(alloc, high)? else {
        return Ok(None);
    };
    Ok(Some((low, high)))
}

fn is_special(c: char) -> bool
    ensures { result ≡ is_quote_or_backslash c }
{
    c == '"' || c == '\\'
}

fn bound(alloc: Global, token: &str) -> Result<Option<Bound>, AllocError>
    ensures { IfOk result (λ read. ReadsBound token.now read) }
{
    if token == "*" {
        return Ok(Some(Bound::Open));
    }
    if are_digits(token) {
        if !(1..=MAX_DIGITS).contains(&token.len()) {
            return Ok(None);
        }
        return Ok(Some(Bound::Digits(copy(alloc, token)?)));
    }
    if !is_name(token) {
        return Ok(None);
    }
    Ok(Some(Bound::Name(copy(alloc, token)?)))
}

fn are_digits(token: &str) -> bool
    ensures { result ≡ list_all is_ascii_digit token.now }
{
    token.bytes().all(|b| b.is_ascii_digit())
}
