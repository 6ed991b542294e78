//! Code files, rules and rule files, run by one call.

use super::tables::{LIST_FILE, OPTIONAL, VARIABLES};
use super::{Entry, environment, file, result_text, same};
use end_to_end::{run_file, run_rule_file, run_rules};
use rule_parser::Rules;
use std::alloc::{AllocError, Global};
use std::process::Abort;
use std::test::Fail;

/// `x` is a text that is longer than a query may be.
const LONG: &[Entry] = &[(false, "x", "a", 400_000)];

fn result_of_file(alloc: Global, file: &[u8], entries: &[Entry]) -> Result<String, Fail> {
    let env = environment(alloc, entries)?;
    Ok(result_text(alloc, run_file(alloc, file, &env))?)
}

/// The file, run on the entries, has this result.
fn file_gives<R: Abort + AllocGlobal>(
    rt: &R,
    file: &[u8],
    entries: &[Entry],
    expected: &str,
) -> Result<(), Fail> {
    let result = result_of_file(rt.alloc(), file, entries)?;
    same(rt, result.as_str(), expected);
    Ok(())
}

#[test]
fn runs_files(rt: HostRuntime) -> Result<(), Fail> {
    file_gives(&rt, LIST_FILE, VARIABLES, "link red,green,blue")?;
    file_gives(&rt, &LIST_FILE[..67], VARIABLES, "Truncated at 67")?;
    // Three bytes for each byte of the environment and of the longest comparison text, which has 10 bytes.
    let optional = file(rt.alloc(), b'2', OPTIONAL)?;
    file_gives(&rt, &optional, LONG, "over budget: 1200030")
}

/// Rules, an environment, and the outcome.
type Case<'a> = (&'a str, &'a [Entry], &'a str);

fn result_of_rules(alloc: Global, rules: &str, entries: &[Entry]) -> Result<String, Fail> {
    let rules = Rules::parse(alloc, rules.as_bytes())?;
    let env = environment(alloc, entries)?;
    Ok(result_text(alloc, run_rules(alloc, &rules, &env))?)
}

fn rules_give<R: Abort + AllocGlobal>(rt: &R, case: &Case<'_>) -> Result<(), Fail> {
    let (rules, entries, expected) = *case;
    let result = result_of_rules(rt.alloc(), rules, entries)?;
    same(rt, result.as_str(), expected);
    Ok(())
}

const RULES: [Case<'static>; 3] = [
    (
        "rule\nlink http://e.org/{x}\n",
        VARIABLES,
        "link http://e.org/a%2F%C3%A9",
    ),
    ("rule\nwhen has y\nlink {x}\n", VARIABLES, "no link"),
    // Three bytes for each byte of the environment and of the longest comparison text, `1`; and the comma that would be
    // before another variable.
    ("rule\nlink {x}\n", LONG, "over budget: 1200004"),
];

#[test]
fn runs_rules(rt: HostRuntime) -> Result<(), Fail> {
    for case in &RULES {
        rules_give(&rt, case)?;
    }
    Ok(())
}

fn result_of_rule_file(alloc: Global, file: &str, entries: &[Entry]) -> Result<String, Fail> {
    let env = environment(alloc, entries)?;
    let result = run_rule_file(alloc, file.as_bytes(), &env);
    Ok(result_text(alloc, result)?)
}

fn rule_file_gives<R: Abort + AllocGlobal>(rt: &R, case: &Case<'_>) -> Result<(), Fail> {
    let (file, entries, expected) = *case;
    let result = result_of_rule_file(rt.alloc(), file, entries)?;
    same(rt, result.as_str(), expected);
    Ok(())
}

/// Rule files with an error, and the first error of each.
const FAULTS: [Case<'static>; 3] = [
    ("rule\nwhen has x\n", VARIABLES, "line 1: NoLink"),
    (
        "# a comment\nrule\nwhen x\nlink {x}\n",
        VARIABLES,
        "line 3: BadLine",
    ),
    (
        "list x\nrule\nwhen given x\nlink {x}\n",
        VARIABLES,
        "line 3: KindMismatch",
    ),
];

#[test]
fn runs_rule_files(rt: HostRuntime) -> Result<(), Fail> {
    for case in &RULES {
        rule_file_gives(&rt, case)?;
    }
    for case in &FAULTS {
        rule_file_gives(&rt, case)?;
    }
    Ok(())
}

/// Appends that many guards, each with a different name.
fn push_guards(alloc: Global, rules: &mut String, names: usize) -> Result<(), AllocError> {
    for name in 0..names {
        let line = format!(in alloc; "when lacks v{name}\n")?;
        rules.push_str(&line)?;
    }
    Ok(())
}

/// A rule with that many guards.
fn rules_with_names(alloc: Global, names: usize) -> Result<String, AllocError> {
    let mut rules = String::from_str(alloc, "rule\n")?;
    push_guards(alloc, &mut rules, names)?;
    rules.push_str("link http://e.org/\n")?;
    Ok(rules)
}

/// The rules with that many names have this result, as a file too.
fn names_give<R: Abort + AllocGlobal>(rt: &R, names: usize, expected: &str) -> Result<(), Fail> {
    let rules = rules_with_names(rt.alloc(), names)?;
    let case = (rules.as_str(), VARIABLES, expected);
    rule_file_gives(rt, &case)?;
    rules_give(rt, &case)
}

/// Code has at most 256 names, so these rules have no code. Their meaning is a link all the same.
#[test]
fn refuses_rules_over_a_limit(rt: HostRuntime) -> Result<(), Fail> {
    names_give(&rt, 256, "link http://e.org/")?;
    names_give(&rt, 257, "TooManyNames")
}
