//! The checked machine, on any code; and accepted code, which runs as it does.

use super::tables::{
    BRANCHES, EFFECTS, FIRST, LIST_CODE, LIST_FILE, OPTIONAL, RULE, SECOND, STUCK, TEXTS, VARIABLES,
};
use super::{Entry, checked, environment, file, outcome_text, same, same_of};
use interpreter::{Run, prepare};
use std::alloc::{AllocError, Global};
use std::process::Abort;
use std::test::Fail;
use target_vars::Env;
use verifier::{LoadError, Verified, load};

/// Carries a run out in turns of `n` steps.
fn take_turns(run: &mut Run<'_>, n: u64) {
    for _turn in 0..1_000_000 {
        if run.advance(n) {
            return;
        }
    }
}

/// How a run in turns of `n` steps ends, and its total number of steps.
fn ended(alloc: Global, code: &Verified, env: &Env, n: u64) -> Result<(String, u64), Fail> {
    let mut run = prepare(alloc, code, env)?;
    take_turns(&mut run, n);
    let steps = run.steps();
    Ok((outcome_text(alloc, run.finish())?, steps))
}

/// The number of steps of a run. All runs of the code have this number and this outcome, however long their turns are.
fn steps<R: Abort + AllocGlobal>(
    rt: &R,
    code: &Verified,
    env: &Env,
    expected: &str,
) -> Result<u64, Fail> {
    let most = ended(rt.alloc(), code, env, u64::MAX)?.1;
    for n in [u64::MAX, 1, 3, 64] {
        let (result, steps) = ended(rt.alloc(), code, env, n)?;
        same(rt, result.as_str(), expected);
        assert!(rt; steps == most);
    }
    Ok(most)
}

/// The same for the code of a file; 0 if it is not accepted.
fn steps_of_file<R: Abort + AllocGlobal>(
    rt: &R,
    file: &[u8],
    env: &Env,
    expected: &str,
) -> Result<u64, Fail> {
    match load(rt.alloc(), file) {
        Ok(code) => steps(rt, &code, env, expected),
        Err(LoadError::NoMemory) => Err(LoadError::NoMemory.into()),
        Err(_) => Ok(0),
    }
}

/// The outcome of the checked machine for the code of a file. If the code is accepted, its runs have the same outcome
/// and the same number of steps, however long their turns are. The second value is this number, and 0 for other code.
fn result<R: Abort + AllocGlobal>(rt: &R, file: &[u8], env: &Env) -> Result<(String, u64), Fail> {
    let outcome = checked(rt.alloc(), file, env)?;
    let steps = steps_of_file(rt, file, env, outcome.as_str())?;
    Ok((outcome, steps))
}

/// Versions, and codes with their outcomes.
const CASES: [(&[u8], &[(&str, &str)]); 5] = [
    (b"12", EFFECTS),
    (b"12", BRANCHES),
    (b"1", STUCK),
    (b"2", SECOND),
    (b"1", FIRST),
];

/// The code has this outcome in this environment; there and without variables, it runs as the checked machine does.
fn has_outcome<R: Abort + AllocGlobal>(
    rt: &R,
    version: u8,
    case: (&str, &str),
    env: &Env,
) -> Result<(), Fail> {
    let (text, expected) = case;
    let file = file(rt.alloc(), version, text)?;
    let outcome = result(rt, &file, env)?.0;
    same_of(rt, text, outcome.as_str(), expected);
    result(rt, &file, &Env::new(rt.alloc()))?;
    Ok(())
}

/// The codes of a version have their outcomes.
fn have_outcomes<R: Abort + AllocGlobal>(
    rt: &R,
    version: u8,
    cases: &[(&str, &str)],
    env: &Env,
) -> Result<(), Fail> {
    for &case in cases {
        has_outcome(rt, version, case, env)?;
    }
    Ok(())
}

#[test]
fn each_instruction_does_what_it_says(rt: HostRuntime) -> Result<(), Fail> {
    let env = environment(rt.alloc(), VARIABLES)?;
    for (versions, cases) in CASES {
        for &version in versions {
            have_outcomes(&rt, version, cases, &env)?;
        }
    }
    Ok(())
}

/// The version of a code, its instructions, an environment, the outcome, and after how many steps; 0 for code that is
/// not accepted.
type Other = (u8, &'static str, &'static [Entry], &'static str, u64);

const OTHERS: [Other; 13] = [
    (b'1', LIST_CODE, VARIABLES, "link red,green,blue", 12),
    (b'2', LIST_CODE, VARIABLES, "link red,green,blue", 12),
    (b'1', LIST_CODE, &[], "link ", 3),
    (b'1', LIST_CODE, TEXTS, "link ", 3),
    (b'1', OPTIONAL, &[], "link ", 3),
    (b'1', OPTIONAL, TEXTS, "link a", 4),
    (b'1', RULE, &[], "link http://e.org/", 5),
    (b'1', RULE, VARIABLES, "link http://e.org/1234-5678", 8),
    (b'1', "EMIT l0, FAIL", &[], "no link", 2),
    (b'1', LAST, &[], "stuck at 3", 0),
    (b'1', LAST, VARIABLES, "link blue", 0),
    (b'2', COUNTS, VARIABLES, "link ", 5),
    (b'2', COUNTED, TWO, "link http://e.org/A,B", 19),
];

/// The last element, after the loop.
const LAST: &str = "LIST r0 n1, EACH r1 r0 3, NEXT, PUT r1 u, HALT";

const TWO: &[Entry] = &[(true, "list", "A", 1), (true, "list", "B", 1)];

/// What a rule with a guard `counts` and a link of that list is compiled to (`COUNTS_LISTING` in
/// `tests/commands/test_compiled_rules.py`).
const COUNTED: &str =
    "LIST r0 n1, COUNT r1 r0, CONST r2 l7, NUMBER r3 r2 5, LESS r1 r3 17, EMIT l9, CONST r4 l2, \
    LIST r0 n1, NOLIST r0 16, EMPTY r4 11, EMIT l0, CONST r4 l7, EACH r5 r0 16, SEP l0, PUT r5 u, NEXT, HALT, FAIL";

/// Counts of one list, compared.
const COUNTS: &str = "LIST r0 n1, COUNT r1 r0, COUNT r63 r0, LESS r1 r63 5, HALT, FAIL";

fn has_result<R: Abort + AllocGlobal>(rt: &R, other: &Other) -> Result<(), Fail> {
    let (version, text, entries, expected, steps) = *other;
    let file = file(rt.alloc(), version, text)?;
    let env = environment(rt.alloc(), entries)?;
    let (result, taken) = result(rt, &file, &env)?;
    same_of(rt, text, result.as_str(), expected);
    assert!(rt; taken == steps, "{text}");
    Ok(())
}

#[test]
fn other_environments(rt: HostRuntime) -> Result<(), Fail> {
    for other in &OTHERS {
        has_result(&rt, other)?;
    }
    Ok(())
}

/// A file with one byte changed.
fn changed(alloc: Global, file: &[u8], place: usize, byte: u8) -> Result<Vec<u8>, AllocError> {
    let mut file = Vec::from_slice(alloc, file)?;
    if let Some(old) = file.get_mut(place) {
        *old = byte;
    }
    Ok(file)
}

/// The file is rejected, or its code runs as the checked machine does, in this environment and without variables.
fn agrees<R: Abort + AllocGlobal>(rt: &R, file: &[u8], env: &Env) -> Result<(), Fail> {
    match load(rt.alloc(), file) {
        Ok(code) => {
            runs_agree(rt, file, &code, env)?;
            runs_agree(rt, file, &code, &Env::new(rt.alloc()))
        }
        Err(LoadError::NoMemory) => Err(LoadError::NoMemory.into()),
        Err(_) => Ok(()),
    }
}

/// The runs of the file's code have the outcome of the checked machine.
fn runs_agree<R: Abort + AllocGlobal>(
    rt: &R,
    file: &[u8],
    code: &Verified,
    env: &Env,
) -> Result<(), Fail> {
    let outcome = checked(rt.alloc(), file, env)?;
    steps(rt, code, env, outcome.as_str())?;
    Ok(())
}

/// So does the file with each byte at the place.
fn each_byte_agrees<R: Abort + AllocGlobal>(rt: &R, place: usize, env: &Env) -> Result<(), Fail> {
    for byte in 0..=255 {
        let file = changed(rt.alloc(), LIST_FILE, place, byte)?;
        agrees(rt, &file, env)?;
    }
    Ok(())
}

#[test]
fn each_file_with_one_byte_changed(rt: HostRuntime) -> Result<(), Fail> {
    let env = environment(rt.alloc(), VARIABLES)?;
    for place in 0..68 {
        each_byte_agrees(&rt, place, &env)?;
    }
    Ok(())
}

/// Instructions, an environment, the length of the link of the checked machine, and what the link begins with: for more
/// members than a query can have, and for a value of more than 100,000 bytes once it is percent-encoded.
const LONG: [(&str, Entry, usize, &str); 2] = [
    (LIST_CODE, (true, "list", "m", 50_000), 99_999, "m,m"),
    (OPTIONAL, (false, "x", " ", 40_000), 120_000, "%20%20"),
];

/// Whether the outcome is a link that has this length and begins so.
fn is_link(outcome: &str, length: usize, start: &str) -> bool {
    match outcome.strip_prefix("link ") {
        Some(link) => (link.len() == length) & link.starts_with(start),
        None => false,
    }
}

fn result_of_one(alloc: Global, text: &str, entry: Entry) -> Result<String, Fail> {
    let file = file(alloc, b'1', text)?;
    let env = environment(alloc, &[entry])?;
    checked(alloc, &file, &env)
}

#[test]
fn long_links(rt: HostRuntime) -> Result<(), Fail> {
    for (text, entry, length, start) in LONG {
        let result = result_of_one(rt.alloc(), text, entry)?;
        assert!(rt; is_link(result.as_str(), length, start), "{start}");
    }
    Ok(())
}
