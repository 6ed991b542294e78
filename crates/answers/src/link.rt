//! The link that rules give for a query.

ghost use Rattle.answers.specs.Link.{IsLinkFor, IsLinkOf};
ghost use Rattle.answers.specs.Results.{text_result};

use crate::line::ended;
use crate::reading::rules_of;
use crate::refusal::Refusal;
use crate::request::{environment, request_of};
use rule_parser::{Rules, meaning};
use std::alloc::Global;

/// The line of the link that the rules of a rule text give for the query: that of the first rule whose guards all hold.
pub fn link_of(alloc: Global, bytes: &[u8], query: &str) -> Result<String, Refusal>
    ensures { IsLinkOf bytes.now query.now (text_result result) }
{
    let rules = rules_of(alloc, bytes)?;
    link_for(alloc, &rules, query)
}

/// The line of the link that the rules give for the query.
fn link_for(alloc: Global, rules: &Rules, query: &str) -> Result<String, Refusal>
    ensures { IsLinkFor rules.now query.now (text_result result) }
{
    let request = request_of(alloc, query)?;
    let lists = rules.lists(alloc)?;
    let link = meaning(alloc, rules, &environment(alloc, &lists, &request)?);
    match link? {
        Some(link) => Ok(ended(link)?),
        None => Err(Refusal::NoLink),
    }
}
