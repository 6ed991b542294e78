//! Whether each name is used as it is declared: as a text or as a list.

ghost use Rattle.std.specs.Prelude.{◌≡◌};
ghost use Rattle.std.specs.List.{list_all};
ghost use Rattle.rule_parser.specs.Rules.{bound_fits as bound_is_fit, bounds_fit as bounds_are_fit};
ghost use Rattle.rule_parser.specs.Rules.{guard_fits as guard_is_fit, spec_fits as spec_is_fit};
ghost use Rattle.rule_parser.specs.Rules.{part_fits as part_is_fit, parts_fit as parts_are_fit};

use crate::names::is_list;
use crate::rule::{Bound, Guard};
use uri_grammar::{Part, Spec, Text};

fn bound_fits(lists: &[Text], bound: &Bound) -> bool
    ensures { result ≡ bound_is_fit lists.now bound.now }
{
    match bound {
        Bound::Name(name) => !is_list(lists, name.as_str()),
        Bound::Open | Bound::Digits(_) => true,
    }
}

fn bounds_fit(lists: &[Text], low: &Bound, high: &Bound) -> bool
    ensures { result ≡ bounds_are_fit lists.now low.now high.now }
{
    bound_fits(lists, low) && bound_fits(lists, high)
}

/// Whether the guard uses names of lists as lists, and other names as texts.
pub(crate) fn guard_fits(lists: &[Text], guard: &Guard) -> bool
    ensures { result ≡ guard_is_fit lists.now guard.now }
{
    match guard {
        Guard::Has(_) | Guard::Lacks(_) => true,
        Guard::Given(name) | Guard::Same(name, _) => !is_list(lists, name.as_str()),
        Guard::Holds(name, _) => is_list(lists, name.as_str()),
        Guard::Between(name, low, high) => {
            !is_list(lists, name.as_str()) && bounds_fit(lists, low, high)
        }
        Guard::Counts(name, low, high) => {
            is_list(lists, name.as_str()) && bounds_fit(lists, low, high)
        }
    }
}

fn spec_fits(lists: &[Text], spec: &Spec) -> bool
    ensures { result ≡ spec_is_fit lists.now spec.now }
{
    spec.cut == 0 || !is_list(lists, spec.name.as_str())
}

fn specs_fit(lists: &[Text], specs: &[Spec]) -> bool
    ensures { result ≡ list_all (spec_is_fit lists.now) specs.now }
{
    specs.iter().all(|spec| spec_fits(lists, spec))
}

fn part_fits(lists: &[Text], part: &Part) -> bool
    ensures { result ≡ part_is_fit lists.now part.now }
{
    match part {
        Part::Literal(_) => true,
        Part::Expression { specs, .. } => specs_fit(lists, specs.as_slice()),
    }
}

/// Whether only texts have prefixes.
pub(crate) fn parts_fit(lists: &[Text], parts: &[Part]) -> bool
    ensures { result ≡ parts_are_fit lists.now parts.now }
{
    parts.iter().all(|part| part_fits(lists, part))
}
