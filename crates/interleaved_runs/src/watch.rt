//! An observer of interleaved runs.

ghost use Rattle.std.specs.Prelude.{◌≡◌, ℕ, List, OnErr, OnOk, Option};
ghost use Rattle.interleaved_runs.specs.StepLists.{with_list, steps_of};

use std::alloc::AllocError;
use target_vars::Scope;
use verified_runs::Run;

/// An observer of interleaved runs.
pub trait Watch {
    /// What it has observed, if it reveals it: a list for each observation, of the steps of all runs.
    ghost lists: { Self → Option (List (List ℕ)) };

    /// Observes the runs after a turn.
    ///
    /// `AllocError` if an allocation failed; earlier observations are kept.
    fn seen<E: Scope>(&mut self, runs: &[Run<'_, E>]) -> Result<(), AllocError>
        ensures ok { OnOk result (lists self.new ≡ with_list (lists self.old) (steps_of runs.now)) }
        ensures err { OnErr result (lists self.new ≡ lists self.old) };
}
