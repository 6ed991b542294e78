//! Rounds: many codes, run side by side until each has ended.

ghost use Rattle.std.specs.Prelude.{◌≡◌, All, IfOk, OnErr, OnOk, length, map};
ghost use Rattle.std.specs.List.{zip};
ghost use Rattle.verified_runs.specs.declared.run.TheConstants.{MAX_LINK_BYTES};
ghost use Rattle.verified_runs.specs.Names.{AreNumbered};
ghost use Rattle.interleaved_runs.specs.Fates.{fate_of, fate_value};
ghost use Rattle.interleaved_runs.specs.Private.Rounds.{AreFresh, AreOfTheSame};
ghost use Rattle.interleaved_runs.specs.StepLists.{HasSeenAll, HasSeenSome, ends_of, step_lists_of, step_lists_to_end};

use crate::fate::Fate;
use crate::run_set::RunSet;
use crate::turns::turn_all;
use crate::watch::Watch;
use machine_laws::{run_ends_once, states_after_steps_are_decided};
use std::alloc::{AllocError, Global};
use target_vars::{Env, Scope};
use verified_runs::Run;
use verifier::Verified;

/// In one turn, each run carries out at most this number of steps.
pub(crate) const TURN: u64 = 64;

/// Runs each code on its environment, all side by side, until each has ended, and returns their fates in order. A code
/// that is over budget is not run. The watch observes the runs after each turn, in which each run carries out up to 64
/// steps; if there is no run, it observes nothing.
///
/// `AllocError` if an allocation failed; the watch has then observed everything up to that point.
pub fn round<W: Watch>(
    alloc: Global,
    codes: &[&Verified],
    envs: &[Env],
    watch: &mut W,
) -> Result<Vec<Fate>, AllocError>
    requires { length codes.now ≡ length envs.now }
    ensures fates { IfOk result
        (λ fates. map fate_value fates.items ≡ map fate_of (zip (map (λ code. code.now) codes.now) envs.now)) }
    ensures observed { OnOk result
        (HasSeenAll (step_lists_of (zip (map (λ code. code.now) codes.now) envs.now)) (W.lists watch.old)
        (W.lists watch.new)) }
    ensures err { OnErr result
        (HasSeenSome (step_lists_of (zip (map (λ code. code.now) codes.now) envs.now)) (W.lists watch.old)
        (W.lists watch.new)) }
    ensures turn { TURN ≡ 64 }
    ensures limit { MAX_LINK_BYTES ≡ 1048576 }
{
    round_over(alloc, codes, envs, watch)
}

/// [`round`], over any environments in which each name of a code can be looked up by its index in the code's table of
/// names.
///
/// `AllocError` if an allocation failed; the watch has then observed everything up to that point.
pub fn round_over<E: Scope, W: Watch>(
    alloc: Global,
    codes: &[&Verified],
    envs: &[E],
    watch: &mut W,
) -> Result<Vec<Fate>, AllocError>
    requires equal { length codes.now ≡ length envs.now }
    requires names { All (λ p. AreNumbered (E.is_number p.1) p.0) (zip (map (λ code. code.now) codes.now) envs.now) }
    ensures fates { IfOk result
        (λ fates. map fate_value fates.items
        ≡ map fate_of (zip (map (λ code. code.now) codes.now) (map E.environment envs.now))) }
    ensures observed { OnOk result
        (HasSeenAll (step_lists_of (zip (map (λ code. code.now) codes.now) (map E.environment envs.now)))
        (W.lists watch.old) (W.lists watch.new)) }
    ensures err { OnErr result
        (HasSeenSome (step_lists_of (zip (map (λ code. code.now) codes.now) (map E.environment envs.now)))
        (W.lists watch.old) (W.lists watch.new)) }
{
    let mut run_set = RunSet::begin_all(alloc, codes, envs)?;
    turn_until_ended(run_set.runs.as_mut_slice(), watch)?;
    run_set.finish_all(alloc)
}

/// Continues all runs, turn by turn, until each has ended; the watch observes them after each turn. Only the watch may
/// allocate. If there is no run, it observes nothing.
///
/// `AllocError` if the watch ran out of memory; the runs then stay where they last were.
pub(crate) fn turn_until_ended<E: Scope, W: Watch>(
    runs: &mut [Run<'_, E>],
    watch: &mut W,
) -> Result<(), AllocError>
    requires { AreFresh runs.old }
    ensures same { AreOfTheSame runs.old runs.new }
    ensures ok { OnOk result
        (HasSeenAll (step_lists_to_end (ends_of runs.old)) (W.lists watch.old) (W.lists watch.new)) }
    ensures err { OnErr result
        (HasSeenSome (step_lists_to_end (ends_of runs.old)) (W.lists watch.old) (W.lists watch.new)) }
{
    states_after_steps_are_decided();
    run_ends_once();
    let mut live = runs.len();
    while live > 0 {
        live = turn_all(runs, TURN);
        watch.seen(runs)?;
    }
    Ok(())
}
