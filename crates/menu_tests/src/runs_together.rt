//! Interleaved runs.

use crate::codes::{LIST_CODE, TEXT_CODE};
use crate::shared::has_lists;
use link_menu::{Blind, Fate, Run, Shown, Watch, play, round, turn_all};
use std::alloc::{AllocError, Global};
use std::test::Fail;
use target_vars::Env;
use verified_runs::prepare;
use verifier::{Verified, load};

/// A code, the members of `list`, and how many letters the text `x` has.
type Given = (&'static [u8], &'static [&'static str], usize);

const COLOURS: &[&str] = &["red", "green", "blue"];

/// The loop over three members, and a text.
const TWO: &[Given] = &[(LIST_CODE, COLOURS, 0), (TEXT_CODE, &[], 1)];

/// The same, with a text between them whose percent-encoded form might exceed the limit.
const THREE: &[Given] = &[
    (LIST_CODE, COLOURS, 0),
    (TEXT_CODE, &[], 400_000),
    (TEXT_CODE, &[], 1),
];

/// The loop over forty members, and a text.
const LONG_AND_SHORT: &[Given] = &[(LIST_CODE, &["a"; 40], 0), (TEXT_CODE, &[], 1)];

fn codes(alloc: Global, given: &[Given]) -> Result<Vec<Verified>, Fail> {
    let mut codes = Vec::new(alloc);
    for (code, _, _) in given {
        codes.push(load(alloc, code)?)?;
    }
    Ok(codes)
}

fn environment(alloc: Global, members: &[&str], letters: usize) -> Result<Env, Fail> {
    let mut env = Env::new(alloc);
    for member in members {
        env.add_member("list", member)?;
    }
    let text = "a".repeat(alloc, letters)?;
    env.put_text("x", text.as_str())?;
    Ok(env)
}

fn environments(alloc: Global, given: &[Given]) -> Result<Vec<Env>, Fail> {
    let mut envs = Vec::new(alloc);
    for (_, members, letters) in given {
        envs.push(environment(alloc, members, *letters)?)?;
    }
    Ok(envs)
}

fn runs<'a>(alloc: Global, codes: &'a [Verified], envs: &'a [Env]) -> Result<Vec<Run<'a>>, Fail> {
    let mut runs = Vec::new(alloc);
    for (code, env) in codes.iter().zip(envs.iter()) {
        runs.push(prepare(alloc, code, env)?)?;
    }
    Ok(runs)
}

/// How many runs continue after turns of two, two and 64 steps of all. The watch observes the runs.
fn turn(
    alloc: Global,
    runs: &mut [Run<'_>],
    recorder: &mut Shown,
) -> Result<Vec<usize>, AllocError> {
    let mut live = Vec::new(alloc);
    for n in [2, 2, 64] {
        live.push(turn_all(runs, n))?;
        recorder.seen(runs)?;
    }
    Ok(live)
}

/// Whether these numbers of runs continue.
fn turned(alloc: Global, recorder: &mut Shown, expected: &[usize]) -> Result<bool, Fail> {
    let codes = codes(alloc, TWO)?;
    let envs = environments(alloc, TWO)?;
    let mut runs = runs(alloc, &codes, &envs)?;
    let live = turn(alloc, runs.as_mut_slice(), recorder)?;
    Ok(live.as_slice() == expected)
}

#[test]
fn turns_of_all(rt: HostRuntime) -> Result<(), Fail> {
    let mut recorder = Shown::new(rt.alloc());
    let is_turned = turned(rt.alloc(), &mut recorder, &[2, 1, 0])?;
    let is_observed = has_lists(rt.alloc(), &recorder, "[[2, 2], [4, 4], [12, 4]]")?;
    assert_eq!(rt; (is_turned, is_observed), (true, true));
    Ok(())
}

/// Three steps of the second run, and four of the first.
fn play_both(runs: &mut [Run<'_>]) {
    if runs.len() == 2 {
        play(runs, &[(1, 3), (0, 4)]);
    }
}

/// What the runs have printed, with a `;` after each.
fn printed(alloc: Global, runs: &[Run<'_>]) -> Result<Vec<u8>, AllocError> {
    let mut printed = Vec::new(alloc);
    for run in runs {
        printed.extend_from_slice(run.output())?;
        printed.push(b';')?;
    }
    Ok(printed)
}

/// Whether both have printed this by then. The watch observes the runs.
fn played(alloc: Global, recorder: &mut Shown, expected: &[u8]) -> Result<bool, Fail> {
    let codes = codes(alloc, TWO)?;
    let envs = environments(alloc, TWO)?;
    let mut runs = runs(alloc, &codes, &envs)?;
    play_both(runs.as_mut_slice());
    recorder.seen(&runs)?;
    let printed = printed(alloc, &runs)?;
    Ok(printed.as_slice() == expected)
}

#[test]
fn schedule(rt: HostRuntime) -> Result<(), Fail> {
    let mut recorder = Shown::new(rt.alloc());
    let is_played = played(rt.alloc(), &mut recorder, b"red;a;")?;
    let is_observed = has_lists(rt.alloc(), &recorder, "[[4, 3]]")?;
    assert_eq!(rt; (is_played, is_observed), (true, true));
    Ok(())
}

fn push_fate(alloc: Global, text: &mut String, fate: &Fate) -> Result<(), AllocError> {
    let fate = match fate {
        Fate::OverBudget(bytes) => format!(in alloc; "over budget {bytes};")?,
        Fate::Link(link) => format!(in alloc; "link {link};")?,
        Fate::NoLink => String::from_str(alloc, "no link;")?,
    };
    text.push_str(fate.as_str())
}

fn fates_text(alloc: Global, fates: &[Fate]) -> Result<String, AllocError> {
    let mut text = String::new(alloc);
    for fate in fates {
        push_fate(alloc, &mut text, fate)?;
    }
    Ok(text)
}

/// Whether the text of the fates of these runs begins so; the watch observes the runs.
fn end(
    alloc: Global,
    codes: &[Verified],
    envs: &[Env],
    recorder: &mut Shown,
    expected: &str,
) -> Result<bool, Fail> {
    let codes = codes.iter().collect::<Vec<&Verified>>(alloc)?;
    if codes.len() != envs.len() {
        return Ok(false);
    }
    let fates = round(alloc, &codes, envs, recorder)?;
    Ok(fates_text(alloc, &fates)?.as_str().starts_with(expected))
}

/// The same of what is given.
fn given_end(
    alloc: Global,
    given: &[Given],
    recorder: &mut Shown,
    expected: &str,
) -> Result<bool, Fail> {
    let codes = codes(alloc, given)?;
    let envs = environments(alloc, given)?;
    end(alloc, &codes, &envs, recorder, expected)
}

/// The codes, how the text of their fates begins, and what the watch observes. A run that has ended waits for the
/// others; a code that is over budget is not run.
const ROUNDS: [(&[Given], &str, &str); 3] = [
    (&[], "", "[]"),
    (
        THREE,
        "link red,green,blue;over budget 1200000;link a;",
        "[[12, 4]]",
    ),
    (LONG_AND_SHORT, "link a,a,", "[[64, 4], [123, 4]]"),
];

#[test]
fn rounds(rt: HostRuntime) -> Result<(), Fail> {
    for (given, fates, observed) in ROUNDS {
        let mut recorder = Shown::new(rt.alloc());
        let is_expected = given_end(rt.alloc(), given, &mut recorder, fates)?;
        let is_observed = has_lists(rt.alloc(), &recorder, observed)?;
        assert_eq!(rt; (is_expected, is_observed), (true, true), "{fates}");
    }
    Blind.seen::<Env>(&[])?;
    Ok(())
}
