//! Rules that are never reached, and guards that never hold.

ghost use Rattle.std.specs.Prelude.{◌≡◌, ◌≤◌, length};
ghost use Rattle.rule_lint.specs.Reach.{always_holds as is_unguarded, is_never_reached as is_hidden};
ghost use Rattle.rule_lint.specs.Reach.{are_apart as bounds_are_apart, never_holds as is_never_held, is_above};

use rule_parser::{Bound, Guard, Rule};
use uri_text::leading_number;

fn always_holds(rule: &Rule) -> bool
    ensures { result ≡ is_unguarded rule.now }
{
    rule.guards.as_slice().is_empty()
}

/// Whether a rule before this one, which is counted from 0, always holds.
pub(crate) fn is_never_reached(rules: &[Rule], k: usize) -> bool
    requires { k ≤ length rules.now }
    ensures { result ≡ is_hidden rules.now k }
{
    rules.split_at(k).0.iter().any(|rule| always_holds(rule))
}

fn exceeds(low: Option<u32>, high: Option<u32>) -> bool
    ensures { result ≡ is_above low high }
{
    match (low, high) {
        (Some(low), Some(high)) => high < low,
        _ => false,
    }
}

fn are_apart(low: &Bound, high: &Bound) -> bool
    ensures { result ≡ bounds_are_apart low.now high.now }
{
    match (low, high) {
        (Bound::Digits(low), Bound::Digits(high)) => exceeds(
            leading_number(low.as_str().as_bytes()),
            leading_number(high.as_str().as_bytes()),
        ),
        _ => false,
    }
}

/// Whether no number is between the bounds of the guard.
pub(crate) fn never_holds(guard: &Guard) -> bool
    ensures { result ≡ is_never_held guard.now }
{
    match guard {
        Guard::Between(_, low, high) | Guard::Counts(_, low, high) => are_apart(low, high),
        _ => false,
    }
}
