//! Runs of accepted code, from the start to the end.

ghost use Rattle.std.specs.Prelude.{◌≡◌, ℕ, ◌<◌, ◌≤◌, ◌↔◌, Err, IfOk, IfErr};
ghost use Rattle.verifier.specs.Accepted.{IsAccepted};
ghost use Rattle.verified_runs.specs.RunValue.{most_bytes, outcome_value};
ghost use Rattle.verified_runs.specs.declared.error.PrepareError.TheVariants.{OverBudget, NoMemory};
ghost use Rattle.safe_runs.specs.Ending.{EndsSafely, FileEndsSafely};
ghost use Rattle.safe_runs.specs.Causes.{IsCause};

use crate::error::RunError;
use machine_laws::run_ends_once;
use std::alloc::Global;
use target_vars::Env;
use verified_runs::{MAX_LINK_BYTES, Outcome, PrepareError, prepare};
use verifier::{Verified, load};

/// Runs accepted code on an environment. Neither the writer of the code nor the content of the environment has to be
/// trusted: the run ends as the machine does, within the steps and bytes of its budget, with a link that is URI text or
/// without one.
///
/// Both errors come before the first step. `OverBudget` has the bound on output bytes, and is returned exactly if
/// that is more than [`MAX_LINK_BYTES`], 1,048,576 bytes. `NoMemory` is returned if memory runs out, and never for
/// code over that limit.
pub fn run_verified(alloc: Global, code: &Verified, env: &Env) -> Result<Outcome, PrepareError>
    ensures accepted { IsAccepted code.now }
    ensures ends { IfOk result (λ outcome. EndsSafely code.now env.now (outcome_value outcome)) }
    ensures within { IfOk result (λ _. most_bytes code.now env.now ≤ MAX_LINK_BYTES) }
    ensures over { (n : ℕ) →
        (result ≡ Err (OverBudget n)) ↔ ((n ≡ most_bytes code.now env.now) × (MAX_LINK_BYTES < n)) }
    ensures no_memory { result ≡ Err NoMemory → most_bytes code.now env.now ≤ MAX_LINK_BYTES }
{
    run_ends_once();
    let _known = code.code();
    match prepare(alloc, code, env) {
        Ok(run) => Ok(run.finish()),
        Err(error) => Err(error),
    }
}

/// Runs the code of a file on an environment, as [`run_verified`] does, if the verifier accepts it. Code that the
/// verifier rejects is never run: an outcome is returned only for bytes in which it finds no error.
///
/// `Load` has the error for which the verifier rejects the bytes, or says that memory ran out while a code file was
/// loaded. `Prepare` is returned only for accepted code: `OverBudget` if its bound on output bytes is over
/// [`MAX_LINK_BYTES`], 1,048,576 bytes, and `NoMemory`, only for code within that limit, if memory runs out.
pub fn run_file(alloc: Global, bytes: &[u8], env: &Env) -> Result<Outcome, RunError>
    ensures ends { IfOk result (λ outcome. FileEndsSafely bytes.now env.now (outcome_value outcome)) }
    ensures refused { IfErr result (IsCause bytes.now env.now) }
{
    let code = load(alloc, bytes)?;
    match run_verified(alloc, &code, env) {
        Ok(outcome) => Ok(outcome),
        Err(error) => Err(RunError::Prepare(error)),
    }
}
