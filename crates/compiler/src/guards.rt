//! The lines of guards.

ghost use Rattle.std.specs.Prelude.{◌≡◌, ◌++◌, [], false, true, OnOk, codes};
ghost use Rattle.compiler_model.specs.declared.lines.Action.TheVariants as actions;
ghost use Rattle.compiler_model.specs.declared.lines.Test.TheVariants as tests;
ghost use Rattle.compiler_model.specs.Blocks.{Does, Then, Unless, ForEach, LeaveIf, Leave, lines};
ghost use Rattle.compiler_model.specs.Shapes.{loading, is_missing, bound_block, bounds_block, guard_block};
ghost use Rattle.compiler_model.specs.Shapes.{guards_block};
ghost use Rattle.rule_parser.specs.declared.rule.Guard.TheVariants as guards;

use crate::lines::{
    push_each, push_leave_if, push_load_const, push_load_list, push_load_text, push_unless,
};
use compiler_model::{Action, Line, Target, Test};
use rule_parser::{Bound, Guard, Rules};
use std::alloc::{AllocError, Global};

/// Loads a name into r0, as a list or a text, as it is declared.
pub(crate) fn push_loading(
    alloc: Global,
    out: &mut Vec<Line>,
    list: bool,
    name: &str,
) -> Result<(), AllocError>
    ensures { OnOk result (out.new.items ≡ out.old.items ++ lines (Does (loading list name.now))) }
{
    if list {
        push_load_list(alloc, out, 0, name)
    } else {
        push_load_text(alloc, out, 0, name)
    }
}

/// The test whether what was loaded is undefined.
pub(crate) fn missing(list: bool) -> Test
    ensures { result ≡ is_missing list }
{
    if list {
        Test::HasNoMember(0)
    } else {
        Test::IsUndefined(0)
    }
}

/// Loads the number of the text in r2 into r3 and tests it, if the text has one.
fn push_number(alloc: Global, out: &mut Vec<Line>, test: Test) -> Result<(), AllocError>
    ensures { OnOk result (out.new.items ≡ out.old.items ++ lines (Unless (tests.HasNoNumber 3 2) (LeaveIf test))) }
{
    let mut body = Vec::new(alloc);
    push_leave_if(&mut body, test)?;
    push_unless(out, Test::HasNoNumber(3, 2), body)
}

fn push_name_bound(
    alloc: Global,
    out: &mut Vec<Line>,
    test: Test,
    name: &str,
) -> Result<(), AllocError>
    ensures { OnOk result (out.new.items ≡ out.old.items
        ++ lines (Then (Does (actions.LoadText 2 name.now))
        (Unless (tests.IsUndefined 2) (Unless (tests.HasNoNumber 3 2) (LeaveIf test))))) }
{
    let mut body = Vec::new(alloc);
    push_number(alloc, &mut body, test)?;
    push_load_text(alloc, out, 2, name)?;
    push_unless(out, Test::IsUndefined(2), body)
}

fn push_bound(
    alloc: Global,
    out: &mut Vec<Line>,
    test: Test,
    bound: &Bound,
) -> Result<(), AllocError>
    ensures { OnOk result (out.new.items ≡ out.old.items ++ lines (bound_block test bound.now)) }
{
    match bound {
        Bound::Open => Ok(()),
        Bound::Digits(digits) => {
            push_load_const(alloc, out, 2, digits.as_str())?;
            push_number(alloc, out, test)
        }
        Bound::Name(name) => push_name_bound(alloc, out, test, name.as_str()),
    }
}

/// Leaves the rule if the number in r1 is out of bounds.
fn push_bounds(
    alloc: Global,
    out: &mut Vec<Line>,
    low: &Bound,
    high: &Bound,
) -> Result<(), AllocError>
    ensures { OnOk result (out.new.items ≡ out.old.items ++ lines (bounds_block low.now high.now)) }
{
    push_bound(alloc, out, Test::IsLess(1, 3), low)?;
    push_bound(alloc, out, Test::IsLess(3, 1), high)
}

fn push_has(alloc: Global, out: &mut Vec<Line>, list: bool, name: &str) -> Result<(), AllocError>
    ensures { OnOk result
        (out.new.items ≡ out.old.items ++ lines (Then (Does (loading list name.now)) (LeaveIf (is_missing list)))) }
{
    push_loading(alloc, out, list, name)?;
    push_leave_if(out, missing(list))
}

fn push_lacks(alloc: Global, out: &mut Vec<Line>, list: bool, name: &str) -> Result<(), AllocError>
    ensures { OnOk result
        (out.new.items ≡ out.old.items
        ++ lines (Then (Does (loading list name.now)) (Unless (is_missing list) Leave))) }
{
    let mut body = Vec::new(alloc);
    body.push(Line::Jumps(Target::Away))?;
    push_loading(alloc, out, list, name)?;
    push_unless(out, missing(list), body)
}

/// Loads a text into r0; leaves the rule if it is undefined.
fn push_text(alloc: Global, out: &mut Vec<Line>, name: &str) -> Result<(), AllocError>
    ensures { OnOk result
        (out.new.items ≡ out.old.items
        ++ lines (Then (Does (loading false name.now)) (LeaveIf (tests.IsUndefined 0)))) }
{
    push_load_text(alloc, out, 0, name)?;
    push_leave_if(out, Test::IsUndefined(0))
}

fn push_given(alloc: Global, out: &mut Vec<Line>, name: &str) -> Result<(), AllocError>
    ensures { OnOk result (out.new.items ≡ out.old.items ++ lines (guard_block [] (guards.Given name.now))) }
{
    push_text(alloc, out, name)?;
    push_leave_if(out, Test::IsEmpty(0))
}

fn push_same(alloc: Global, out: &mut Vec<Line>, name: &str, text: &str) -> Result<(), AllocError>
    ensures { OnOk result (out.new.items ≡ out.old.items ++ lines (guard_block [] (guards.Same name.now text.now))) }
{
    push_text(alloc, out, name)?;
    push_load_const(alloc, out, 1, text)?;
    push_leave_if(out, Test::Differs(0, 1))
}

/// The loop that looks for the text in r1 among the members of the list in r0.
fn push_search(alloc: Global, out: &mut Vec<Line>) -> Result<(), AllocError>
    ensures { OnOk result (out.new.items ≡ out.old.items
        ++ lines (ForEach 3 0 (Unless (tests.Differs 3 1) (Does (actions.LoadConst 2 (codes "1")))))) }
{
    let mut found = Vec::new(alloc);
    push_load_const(alloc, &mut found, 2, "1")?;
    let mut body = Vec::new(alloc);
    push_unless(&mut body, Test::Differs(3, 1), found)?;
    push_each(out, 3, 0, body)
}

fn push_holds(alloc: Global, out: &mut Vec<Line>, name: &str, text: &str) -> Result<(), AllocError>
    ensures { OnOk result (out.new.items ≡ out.old.items ++ lines (guard_block [] (guards.Holds name.now text.now))) }
{
    push_load_const(alloc, out, 1, text)?;
    push_load_const(alloc, out, 2, "")?;
    push_load_list(alloc, out, 0, name)?;
    push_search(alloc, out)?;
    push_leave_if(out, Test::IsEmpty(2))
}

/// Loads the number that a text begins with into r1; leaves the rule if there is none.
fn push_leading_number(alloc: Global, out: &mut Vec<Line>, name: &str) -> Result<(), AllocError>
    ensures { OnOk result (out.new.items ≡ out.old.items
        ++ lines (Then (Then (Does (loading false name.now)) (LeaveIf (tests.IsUndefined 0)))
        (LeaveIf (tests.HasNoNumber 1 0)))) }
{
    push_text(alloc, out, name)?;
    push_leave_if(out, Test::HasNoNumber(1, 0))
}

/// Loads the number of a list's members into r1.
fn push_count(alloc: Global, out: &mut Vec<Line>, name: &str) -> Result<(), AllocError>
    ensures { OnOk result
        (out.new.items ≡ out.old.items
        ++ lines (Then (Does (loading true name.now)) (Does (actions.CountMembers 1 0)))) }
{
    push_load_list(alloc, out, 0, name)?;
    out.push(Line::Acts(Action::CountMembers(1, 0)))?;
    Ok(())
}

fn push_guard(
    alloc: Global,
    out: &mut Vec<Line>,
    rules: &Rules,
    guard: &Guard,
) -> Result<(), AllocError>
    ensures { OnOk result (out.new.items ≡ out.old.items ++ lines (guard_block rules.now.lists guard.now)) }
{
    match guard {
        Guard::Has(name) => push_has(alloc, out, rules.is_list(name.as_str()), name.as_str()),
        Guard::Lacks(name) => push_lacks(alloc, out, rules.is_list(name.as_str()), name.as_str()),
        Guard::Given(name) => push_given(alloc, out, name.as_str()),
        Guard::Same(name, text) => push_same(alloc, out, name.as_str(), text.as_str()),
        Guard::Holds(name, text) => push_holds(alloc, out, name.as_str(), text.as_str()),
        Guard::Between(name, low, high) => {
            push_leading_number(alloc, out, name.as_str())?;
            push_bounds(alloc, out, low, high)
        }
        Guard::Counts(name, low, high) => {
            push_count(alloc, out, name.as_str())?;
            push_bounds(alloc, out, low, high)
        }
    }
}

/// Guards, one after another.
pub(crate) fn push_guards(
    alloc: Global,
    out: &mut Vec<Line>,
    rules: &Rules,
    guards: &[Guard],
) -> Result<(), AllocError>
    ensures { OnOk result (out.new.items ≡ out.old.items ++ lines (guards_block rules.now.lists guards.now)) }
{
    for guard in guards {
        push_guard(alloc, out, rules, guard)?;
    }
    Ok(())
}
