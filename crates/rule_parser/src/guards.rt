//! Whether guards hold.

ghost use Rattle.std.specs.Prelude.{◌≡◌, ◌<◌, [], length, slice_index_or};
ghost use Rattle.std.specs.Str.{bytes_eq};
ghost use Rattle.std.specs.List.{list_all};
ghost use Rattle.std.specs.Option.{option_and_then};
ghost use Rattle.environment_model.specs.Environment.{text_in, is_among};
ghost use Rattle.text_model.specs.Number.{leading_number as number_of};
ghost use Rattle.target_vars.specs.Members.{members_left};
ghost use Rattle.rule_parser.specs.Meaning.{is_defined as denotes_something, is_given as is_not_empty, is_text};
ghost use Rattle.rule_parser.specs.Meaning.{bound_number as number_of_bound, is_at_least, is_at_most};
ghost use Rattle.rule_parser.specs.Meaning.{is_within as is_within_bounds, guard_holds as is_held};

use crate::rule::{Bound, Guard};
use target_vars::Members;
use uri_template::Variables;
use uri_text::leading_number;

/// Whether each guard holds.
pub(crate) fn all_hold<V: Variables>(variables: &V, guards: &[Guard]) -> bool
    ensures { result ≡ list_all (is_held (V.look variables.now)) guards.now }
{
    guards.iter().all(|guard| holds(variables, guard))
}

/// Whether the guard holds for the variables. For an environment as the rules see it, use
/// [`Rules::view`](crate::Rules::view).
pub fn holds<V: Variables>(variables: &V, guard: &Guard) -> bool
    ensures { result ≡ is_held (V.look variables.now) guard.now }
{
    match guard {
        Guard::Has(name) => is_defined(variables, name.as_str()),
        Guard::Lacks(name) => !is_defined(variables, name.as_str()),
        Guard::Given(name) => is_given(variables, name.as_str()),
        Guard::Same(name, text) => is_same(variables, name.as_str(), text.as_str()),
        Guard::Holds(name, text) => has_member(&variables.list(name.as_str()), text.as_str()),
        Guard::Between(name, low, high) => match number(variables, name.as_str()) {
            Some(n) => is_within(variables, low, high, n as usize),
            None => false,
        },
        Guard::Counts(name, low, high) => {
            is_within(variables, low, high, variables.list(name.as_str()).len())
        }
    }
}

/// A list without members is undefined.
fn is_defined<V: Variables>(variables: &V, name: &str) -> bool
    ensures { result ≡ denotes_something (V.look variables.now name.now) }
{
    variables.text(name).is_some() || !variables.list(name).is_empty()
}

fn is_given<V: Variables>(variables: &V, name: &str) -> bool
    ensures { result ≡ is_not_empty (text_in (V.look variables.now name.now)) }
{
    match variables.text(name) {
        Some(text) => !text.is_empty(),
        None => false,
    }
}

fn is_same<V: Variables>(variables: &V, name: &str, expected: &str) -> bool
    ensures { result ≡ is_text expected.now (text_in (V.look variables.now name.now)) }
{
    match variables.text(name) {
        Some(text) => text == expected,
        None => false,
    }
}

fn has_member(members: &Members, expected: &str) -> bool
    ensures { result ≡ is_among expected.now (members_left members.now) }
{
    for i in 0..members.len() {
        if is_member(members, i, expected) {
            return true;
        }
    }
    false
}

fn is_member(members: &Members, i: usize, expected: &str) -> bool
    requires { i < length (members_left members.now) }
    ensures { result ≡ bytes_eq (slice_index_or (members_left members.now) i []) expected.now }
{
    match members.get(i) {
        Some(member) => member == expected,
        None => false,
    }
}

fn number<V: Variables>(variables: &V, name: &str) -> Option<u32>
    ensures { result ≡ option_and_then number_of (text_in (V.look variables.now name.now)) }
{
    leading_number(variables.text(name)?.as_bytes())
}

/// The number of a bound; `None` if it is open.
fn bound_number<V: Variables>(variables: &V, bound: &Bound) -> Option<u32>
    ensures { result ≡ number_of_bound (V.look variables.now) bound.now }
{
    match bound {
        Bound::Open => None,
        Bound::Digits(digits) => leading_number(digits.as_str().as_bytes()),
        Bound::Name(name) => number(variables, name.as_str()),
    }
}

fn is_within<V: Variables>(variables: &V, low: &Bound, high: &Bound, n: usize) -> bool
    ensures { result ≡ is_within_bounds (number_of_bound (V.look variables.now) low.now)
        (number_of_bound (V.look variables.now) high.now) n }
{
    reaches(bound_number(variables, low), n) && stays_below(bound_number(variables, high), n)
}

fn reaches(low: Option<u32>, n: usize) -> bool
    ensures { result ≡ is_at_least low n }
{
    match low {
        Some(low) => low as usize <= n,
        None => true,
    }
}

fn stays_below(high: Option<u32>, n: usize) -> bool
    ensures { result ≡ is_at_most high n }
{
    match high {
        Some(high) => n <= high as usize,
        None => true,
    }
}
