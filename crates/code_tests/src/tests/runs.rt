//! The state of a run of accepted code after its turns.

use super::tables::{LIST_CODE, OPTIONAL, TEXTS};
use super::{Entry, environment, file, outcome_text, same};
use interpreter::{Outcome, Run, Step, prepare, step};
use std::alloc::{AllocError, Global};
use std::process::Abort;
use std::test::Fail;
use target_vars::Env;
use verifier::{Verified, load};

/// Accepted code of these instructions, and an environment.
fn code_and_env(alloc: Global, text: &str, entries: &[Entry]) -> Result<(Verified, Env), Fail> {
    let code = load(alloc, &file(alloc, b'1', text)?)?;
    Ok((code, environment(alloc, entries)?))
}

/// Whether a run has ended after a turn, its steps, its place, the first two registers if it is in a loop, and its
/// output.
fn standing_text(alloc: Global, run: &Run<'_>, ended: bool) -> Result<String, AllocError> {
    let steps = run.steps();
    let output = str::from_utf8(run.output()).unwrap_or("?");
    match run.words() {
        None => format!(in alloc; "{ended} {steps}, {output}\n"),
        Some(words) if words.turn.is_none() => {
            format!(in alloc; "{ended} {steps}, place {}, {output}\n", words.place)
        }
        Some(words) => {
            let (list, element) = (words.regs[0], words.regs[1]);
            format!(in alloc;
                "{ended} {steps}, place {}, {list}, {element}, {output}\n",
                words.place
            )
        }
    }
}

/// The state of a run after each of its turns.
fn standings(alloc: Global, code: &Verified, env: &Env, turns: &[u64]) -> Result<String, Fail> {
    let mut run = prepare(alloc, code, env)?;
    let mut text = String::new(alloc);
    push_standings(alloc, &mut text, &mut run, turns)?;
    Ok(text)
}

fn push_standings(
    alloc: Global,
    text: &mut String,
    run: &mut Run<'_>,
    turns: &[u64],
) -> Result<(), AllocError> {
    for &n in turns {
        let ended = run.advance(n);
        let standing = standing_text(alloc, run, ended)?;
        text.push_str(&standing)?;
    }
    Ok(())
}

const COLOURS: &[Entry] = &[
    (true, "list", "red", 1),
    (true, "list", "green", 1),
    (true, "list", "blue", 1),
];

/// Instructions, an environment, how many steps each turn has, and where the run is after it.
type Case = (&'static str, &'static [Entry], &'static [u64], &'static str);

const TURNS: [Case; 4] = [
    (
        LIST_CODE,
        COLOURS,
        &[2, 2, 1, 100, 1],
        "false 2, place 2, 3, 3, \nfalse 4, place 4, 3, 3, red\nfalse 5, place 2, 3, 12884901893, red\n\
         true 12, red,green,blue\ntrue 12, red,green,blue\n",
    ),
    (LIST_CODE, COLOURS, &[1], "false 1, place 1, \n"),
    (OPTIONAL, TEXTS, &[5, 100], "true 4, a\ntrue 4, a\n"),
    (
        "EMIT l0, FAIL",
        &[],
        &[1, 1],
        "false 1, place 1, ,\ntrue 2, \n",
    ),
];

fn takes<R: Abort + AllocGlobal>(rt: &R, case: &Case) -> Result<(), Fail> {
    let (text, entries, turns, expected) = *case;
    let (code, env) = code_and_env(rt.alloc(), text, entries)?;
    let result = standings(rt.alloc(), &code, &env, turns)?;
    same(rt, result.as_str(), expected);
    Ok(())
}

#[test]
fn takes_turns(rt: HostRuntime) -> Result<(), Fail> {
    for case in &TURNS {
        takes(&rt, case)?;
    }
    Ok(())
}

/// What one more step returns after this number of steps, and the place after it.
fn stepped(
    alloc: Global,
    code: &Verified,
    env: &Env,
    n: u64,
) -> Result<(Step, Option<usize>), Fail> {
    let mut run = prepare(alloc, code, env)?;
    run.advance(n);
    let bytes = code
        .budget()
        .bytes(env.members() as u64, env.bytes() as u64);
    let mut out = String::with_capacity(alloc, bytes as usize)?;
    let Some(mut words) = run.words() else {
        return Ok((Step::NoLink, None));
    };
    let Ok(output) = str::from_utf8(run.output()) else {
        return Ok((Step::NoLink, None));
    };
    out.push_str(output)?;
    let answer = step(code, env, &mut words, &mut out);
    Ok((answer, Some(words.place)))
}

/// Numbers of steps, what one more step returns, and the place after it.
const STEPS: [(u64, Step, usize); 2] = [(5, Step::More, 3), (11, Step::Link, 5)];

/// Whether the list's code takes the steps so.
fn steps_so(alloc: Global, case: (u64, Step, usize)) -> Result<bool, Fail> {
    let (n, expected, place) = case;
    let (code, env) = code_and_env(alloc, LIST_CODE, COLOURS)?;
    Ok(stepped(alloc, &code, &env, n)? == (expected, Some(place)))
}

#[test]
fn steps_on_its_words(rt: HostRuntime) -> Result<(), Fail> {
    for case in STEPS {
        assert!(rt; steps_so(rt.alloc(), case)?);
    }
    Ok(())
}

/// Accepted code of each of these instructions.
fn codes(alloc: Global, texts: &[&str]) -> Result<Vec<Verified>, Fail> {
    let mut codes = Vec::new(alloc);
    for text in texts {
        codes.push(load(alloc, &file(alloc, b'1', text)?)?)?;
    }
    Ok(codes)
}

fn environments(alloc: Global, given: &[&[Entry]]) -> Result<Vec<Env>, Fail> {
    let mut envs = Vec::new(alloc);
    for entries in given {
        envs.push(environment(alloc, entries)?)?;
    }
    Ok(envs)
}

/// Appends whether the run has ended after a turn of `n` steps, and its steps.
fn push_turn(
    alloc: Global,
    text: &mut String,
    run: &mut Run<'_>,
    n: u64,
) -> Result<(), AllocError> {
    let ended = run.advance(n);
    let turn = format!(in alloc; "{ended} {}, ", run.steps())?;
    text.push_str(&turn)
}

/// Two runs side by side: after each turn of one of them, whether that has ended, and its steps.
fn turns_of_both(
    alloc: Global,
    first: &mut Run<'_>,
    second: &mut Run<'_>,
) -> Result<String, AllocError> {
    let mut text = String::new(alloc);
    push_turn(alloc, &mut text, first, 1)?;
    push_turn(alloc, &mut text, second, 5)?;
    push_turn(alloc, &mut text, first, 100)?;
    push_turn(alloc, &mut text, second, 100)?;
    Ok(text)
}

/// The same for runs of two codes on two environments, and how both end.
fn both(alloc: Global, codes: &[Verified], envs: &[Env]) -> Result<String, Fail> {
    let ([code, other_code], [env, other_env]) = (codes, envs) else {
        return Ok(String::new(alloc));
    };
    let mut first = prepare(alloc, code, env)?;
    let mut second = prepare(alloc, other_code, other_env)?;
    let mut text = turns_of_both(alloc, &mut first, &mut second)?;
    push_outcome(alloc, &mut text, first.finish(), ", ")?;
    push_outcome(alloc, &mut text, second.finish(), "")?;
    Ok(text)
}

fn push_outcome(
    alloc: Global,
    text: &mut String,
    outcome: Outcome,
    after: &str,
) -> Result<(), AllocError> {
    let outcome = outcome_text(alloc, outcome)?;
    text.push_str(&outcome)?;
    text.push_str(after)
}

#[test]
fn takes_turns_side_by_side(rt: HostRuntime) -> Result<(), Fail> {
    let codes = codes(rt.alloc(), &[LIST_CODE, OPTIONAL])?;
    let envs = environments(rt.alloc(), &[COLOURS, &[(false, "x", "a", 1)]])?;
    let result = both(rt.alloc(), &codes, &envs)?;
    same(
        &rt,
        result.as_str(),
        "false 1, true 4, true 12, true 4, link red,green,blue, link a",
    );
    Ok(())
}
