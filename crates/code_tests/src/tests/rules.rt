//! The lists of rules, and a text under the name of a list, which no query makes.

use super::environment;
use rule_parser::{Rules, meaning};
use std::alloc::{AllocError, Global};
use std::test::Fail;

const TEXT: &[u8] =
    b"list x\nlist rft.au\nlist x\nrule\nwhen lacks x\nwhen lacks y\nlink http://e.org/";

fn has_lists(alloc: Global, rules: &Rules, expected: &[&str]) -> Result<bool, AllocError> {
    let lists = rules.lists(alloc)?;
    Ok((lists.as_slice() == expected) & rules.is_list("x") & !rules.is_list("y"))
}

/// Whether there is one rule, with two guards and this link.
fn has_one_rule(rules: &Rules, link: &str) -> bool {
    match rules.rules() {
        [rule] => (rule.guards.as_slice().len() == 2) & (rule.template.text() == link),
        _ => false,
    }
}

/// Whether the rules mean this link if `x` is a text.
fn means(alloc: Global, rules: &Rules, expected: &str) -> Result<bool, Fail> {
    let env = environment(alloc, &[(false, "x", "a", 1)])?;
    let link = meaning(alloc, rules, &env)?;
    Ok(link.as_deref() == Some(expected))
}

#[test]
fn rules_are_what_their_lines_say(rt: HostRuntime) -> Result<(), Fail> {
    let rules = Rules::parse(rt.alloc(), TEXT)?;
    assert!(rt; has_lists(rt.alloc(), &rules, &["rft.au", "rft_id", "x"])?);
    assert!(rt; has_one_rule(&rules, "http://e.org/"));
    assert!(rt; means(rt.alloc(), &rules, "http://e.org/")?);
    Ok(())
}
