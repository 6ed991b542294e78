//! Bounds on the steps and on the output of a run, by the budget of its code.

ghost use Rattle.std.specs.Prelude.{◌≡◌, ◌^◌, ◌<◌, ◌≤◌};
ghost use Rattle.verified_runs.specs.RunValue.{most_steps, most_bytes};
ghost use Rattle.verified_runs.specs.Private.Progress.{IsReserved};

use crate::run::MAX_LINK_BYTES;
use target_vars::Scope;
use verifier::Verified;

/// A number of steps within which each run ends.
pub(crate) fn most_steps<E: Scope>(code: &Verified, env: &E) -> u64
    ensures enough { most_steps code.now (E.environment env.now) ≤ result }
    ensures below { result < 2 ^ 52 }
{
    let (_, members) = env.most();
    code.budget().steps(members as u64)
}

/// A number of bytes within which each run prints: by the bounds on E and M, or by E and M themselves if the bounds
/// give more than [`MAX_LINK_BYTES`].
pub(crate) fn most_bytes<E: Scope>(code: &Verified, env: &E) -> u64
    ensures reserved { IsReserved code.now (E.environment env.now) result }
    ensures enough { most_bytes code.now (E.environment env.now) ≤ result }
    ensures exact { MAX_LINK_BYTES < result → result ≡ most_bytes code.now (E.environment env.now) }
{
    let budget = code.budget();
    let (bytes, members) = env.most();
    let most = budget.bytes(members as u64, bytes as u64);
    if most <= MAX_LINK_BYTES {
        return most;
    }
    let (bytes, members) = env.sums();
    budget.bytes(members as u64, bytes as u64)
}
