//! Variables and their modifiers (RFC 6570, sections 2.3 and 2.4).

ghost use Rattle.std.specs.Prelude.{◌≡◌, true, ◌+◌, ◌-◌, ◌<◌, ◌≤◌, ℕ, List, IfOk, IfErr, IfSome, IfNone, length};
ghost use Rattle.std.specs.Prelude.{take, drop};
ghost use Rattle.std.specs.Char.{is_ascii_digit};
ghost use Rattle.uri_grammar.specs.Specs.{IsSpec};
ghost use Rattle.uri_grammar.specs.Faults.{begins_with_modifier, IsNamed, IsSpecFault};
ghost use Rattle.uri_grammar.specs.Private.Reading.{begins_above_zero, number_of, modifier_of, IsFault};

use crate::characters::text_of;
use crate::error::{TemplateError, TemplateErrorKind};
use crate::names::{MAX_NAME_BYTES, varname_len};
use crate::parts::Spec;
use crate::template::MAX_BYTES;
use std::alloc::Global;
use uri_text::Text;

/// The maximum length of a prefix, in items.
pub const MAX_PREFIX: u16 = 9_999;

fn begins_above_zero(digits: &[char]) -> bool
    ensures { result ≡ begins_above_zero digits.now }
{
    !matches!(digits, [] | ['0', ..])
}

fn digit(c: char) -> u32
    requires { is_ascii_digit c ≡ true }
    ensures value { result ≡ c - 48 }
    ensures small { result ≤ 9 }
{
    u32::from(c) - u32::from('0')
}

/// The number of a prefix.
fn number(digits: &[char]) -> Option<u16>
    ensures { result ≡ number_of digits.now }
{
    if !begins_above_zero(digits) {
        return None;
    }
    let mut number = 0;
    for c in digits {
        if !c.is_ascii_digit() {
            return None;
        }
        number = 10 * number + digit(*c);
        if number > u32::from(MAX_PREFIX) {
            return None;
        }
    }
    Some(number as u16)
}

/// The length of the prefix (0 for none), and whether the variable is exploded.
fn modifier(after: &[char]) -> Option<(u16, bool)>
    ensures { result ≡ modifier_of after.now }
{
    match after {
        [] => Some((0, false)),
        ['*'] => Some((0, true)),
        [':', digits @ ..] => Some((number(digits)?, false)),
        _ => None,
    }
}

fn begins_with_modifier(after: &[char]) -> bool
    ensures { result ≡ begins_with_modifier after.now }
{
    matches!(after, [':' | '*', ..])
}

/// How long the name at the beginning is, if the variable can continue or end after it.
fn named_len(text: &[char]) -> Option<usize>
    requires { length text.now ≤ MAX_BYTES }
    ensures some { IfSome result
        (λ len. (len ≤ length text.now) × IsNamed text.now (take len text.now) (drop len text.now)) }
    ensures none { IfNone result ((name after : List ℕ) → IsNamed text.now name after → ⊥) }
{
    let len = varname_len(text);
    if len == 0 {
        return None;
    }
    if len > MAX_NAME_BYTES {
        return None;
    }
    let after = text.split_at(len).1;
    if after.is_empty() {
        return Some(len);
    }
    if begins_with_modifier(after) {
        return Some(len);
    }
    None
}

pub(crate) fn spec(alloc: Global, text: &[char]) -> Result<Spec, TemplateError>
    requires { length text.now ≤ MAX_BYTES }
    ensures ok { IfOk result (IsSpec text.now) }
    ensures err { IfErr result (λ e. IsFault e (IsSpecFault text.now)) }
    ensures near { IfErr result (λ e. e.at ≤ MAX_BYTES) }
{
    let Some(len) = named_len(text) else {
        return Err(TemplateError::new(TemplateErrorKind::BadName, 0));
    };
    let (name, after) = text.split_at(len);
    let Some((cut, explode)) = modifier(after) else {
        return Err(TemplateError::new(TemplateErrorKind::BadModifier, len));
    };
    Ok(Spec {
        name: Text::new(text_of(alloc, name)?),
        cut,
        explode,
    })
}
