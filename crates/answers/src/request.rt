//! The request of a query, and its environment.

ghost use Rattle.std.specs.Prelude.{◌≡◌, ◌≤◌, [], None, IfOk, IfErr, length};
ghost use Rattle.text_model.specs.Texts.{texts_of};
ghost use Rattle.kev_read.specs.Pairs.{pairs_of};
ghost use Rattle.kev_read.specs.Refusal.{refusal};
ghost use Rattle.kev_read.specs.Filling.{filled};
ghost use Rattle.answers.specs.Reading.{IsNoRequest};

use crate::refusal::Refusal;
use kev_read::{KevError, Request, read_kev};
use std::alloc::{AllocError, Global};
use target_vars::{Env, VarsError};

/// The request of a query, which has at most 65,536 bytes and 4,096 pairs.
pub fn request_of(alloc: Global, query: &str) -> Result<Request, Refusal>
    ensures accepted { IfOk result (λ _. refusal query.now ≡ None) }
    ensures short { IfOk result (λ _. length query.now ≤ 65536) }
    ensures pairs { IfOk result (λ request. request.pairs ≡ pairs_of query.now) }
    ensures err { IfErr result (IsNoRequest query.now) }
{
    match read_kev(alloc, query.as_bytes()) {
        Ok(request) => Ok(request),
        Err(e) if e == KevError::NoMemory => Err(Refusal::Memory),
        Err(e) => Err(Refusal::Query(e)),
    }
}

/// The environment of the request's pairs, in which `rft.au`, `rft_id` and the names of `lists` are lists.
pub(crate) fn environment(
    alloc: Global,
    lists: &[&str],
    request: &Request,
) -> Result<Env, AllocError>
    ensures { IfOk result (λ env. env.entries ≡ filled (texts_of lists.now) [] request.now.pairs) }
{
    let mut env = Env::new(alloc);
    match request.fill(lists, &mut env) {
        Ok(()) => Ok(env),
        Err(VarsError::NoMemory) => Err(AllocError),
        // A request fits into an empty environment.
        Err(VarsError::TooLarge) => unreachable!(),
    }
}
