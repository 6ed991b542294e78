//! Budgets of any code, accepted or not, and the numbers that they give.

use super::tables::{LIST_CODE, RULE};
use super::{file, same_of};
use budget::{Budget, budget_of};
use code_file::Code;
use std::alloc::{AllocError, Global};
use std::process::Abort;
use std::test::Fail;

/// Steps and bytes of output, for a number of members of all lists and a number of bytes of all texts and members.
fn bounds(alloc: Global, budget: Budget, members: u16, bytes: u16) -> Result<String, AllocError> {
    let steps = budget.steps(members as u64);
    let out = budget.bytes(members as u64, bytes as u64);
    format!(in alloc; "{steps} steps, {out} bytes")
}

fn bounds_of(alloc: Global, text: &str, members: u16, bytes: u16) -> Result<String, Fail> {
    let code = Code::read(alloc, &file(alloc, b'1', text)?)?;
    Ok(bounds(alloc, budget_of(&code), members, bytes)?)
}

/// Instructions, how many members and bytes an environment has, and the bounds.
type Case = (&'static str, u16, u16, &'static str);

/// The longest text that is compared has 10 bytes, so up to 30 bytes may be written for it.
const BOUNDS: [Case; 7] = [
    (LIST_CODE, 3, 12, "12 steps, 39 bytes"),
    (LIST_CODE, 20, 20_000, "63 steps, 60020 bytes"),
    (RULE, 0, 9, "10 steps, 71 bytes"),
    // A list that is named as a text, so the code is not accepted.
    (UNTYPED, 0, 0, "4 steps, 30 bytes"),
    (UNTYPED, 5, 7, "4 steps, 51 bytes"),
    // An operation that version 1 does not have, so it writes no register, and the element is printed.
    (COUNTED, 0, 0, "3 steps, 0 bytes"),
    (COUNTED, 2, 7, "9 steps, 21 bytes"),
];

const UNTYPED: &str = "TEXT r2 n1, UNDEF r2 3, PUT r2 u, HALT";

const COUNTED: &str = "LIST r0 n1, EACH r1 r0 5, PUT r1 u, COUNT r1 r0, NEXT, HALT";

fn has_bounds<R: Abort + AllocGlobal>(rt: &R, case: &Case) -> Result<(), Fail> {
    let (text, members, bytes, expected) = *case;
    let result = bounds_of(rt.alloc(), text, members, bytes)?;
    same_of(rt, text, result.as_str(), expected);
    Ok(())
}

#[test]
fn bounds_steps_and_bytes(rt: HostRuntime) -> Result<(), Fail> {
    for case in &BOUNDS {
        has_bounds(&rt, case)?;
    }
    Ok(())
}
