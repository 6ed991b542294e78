//! The link that code gives for a query.

ghost use Rattle.answers.specs.Results.{text_result};
ghost use Rattle.answers.specs.Run.{IsLinkFor, IsRunLinkOf};

use crate::line::ended;
use crate::reading::accepted_code;
use crate::refusal::Refusal;
use crate::request::{environment, request_of};
use safe_runs::run_verified;
use std::alloc::Global;
use verified_runs::{Outcome, PrepareError};
use verifier::Verified;

/// The line of the link that the code of a code file gives for the query, if the verifier accepts it. A link has at
/// most 1,048,576 bytes: code that might print more for the request is not run.
pub fn run_link_of(alloc: Global, bytes: &[u8], query: &str) -> Result<String, Refusal>
    ensures { IsRunLinkOf bytes.now query.now (text_result result) }
{
    let code = accepted_code(alloc, bytes)?;
    link_for(alloc, &code, query)
}

/// The line of the link that the code gives for the query.
fn link_for(alloc: Global, code: &Verified, query: &str) -> Result<String, Refusal>
    ensures { IsLinkFor code.now query.now (text_result result) }
{
    let request = request_of(alloc, query)?;
    let lists = code.code().lists(alloc)?;
    let outcome = run_verified(alloc, code, &environment(alloc, &lists, &request)?);
    match outcome {
        Ok(Outcome::Link(link)) => Ok(ended(link)?),
        Ok(Outcome::NoLink) => Err(Refusal::NoLink),
        Err(PrepareError::OverBudget(most)) => Err(Refusal::OverBudget(most)),
        Err(PrepareError::NoMemory) => Err(Refusal::Memory),
    }
}
