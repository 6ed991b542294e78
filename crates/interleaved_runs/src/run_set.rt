//! Runs that are begun together, and the codes among them that are over budget.

ghost use Rattle.std.specs.Prelude.{◌≡◌, All, ◌++◌, [], ◌∷◌, IfOk, OnOk, length, map, count_by, is_none};
ghost use Rattle.std.specs.List.{zip};
ghost use Rattle.verified_runs.specs.Names.{AreNumbered};
ghost use Rattle.interleaved_runs.specs.Fates.{runs_of, fate_value};
ghost use Rattle.interleaved_runs.specs.Private.Rounds.{AreFresh};
ghost use Rattle.interleaved_runs.specs.Private.RunSets.{IsRunSetOf, excess_of, fates_in, outcome_in_the_end};

use crate::fate::Fate;
use machine_laws::course_is_decided;
use std::alloc::{AllocError, Global};
use target_vars::Scope;
use verified_runs::{PrepareError, Run, prepare};
use verifier::Verified;

/// Codes on environments whose runs are begun together.
#[derive(Drop)]
pub(crate) struct RunSet<'a, E: Scope> {
    /// For each code, in order, the bound on its bytes if that is over budget. All other codes have a run.
    pub(crate) over_budget: Vec<Option<u64>>,
    pub(crate) runs: Vec<Run<'a, E>>,
}

impl<'a, E: Scope> RunSet<'a, E> {
    /// Begins the run of each code on its environment, except for those that are over budget.
    ///
    /// `AllocError` if an allocation failed.
    pub(crate) fn begin_all(
        alloc: Global,
        codes: &[&'a Verified],
        envs: &'a [E],
    ) -> Result<RunSet<'a, E>, AllocError>
        requires equal { length codes.now ≡ length envs.now }
        requires names { All (λ p. AreNumbered (E.is_number p.1) p.0) (zip (map (λ c. c.now) codes.now) envs.now) }
        ensures { IfOk result (λ run_set. IsRunSetOf (zip (map (λ c. c.now) codes.now) (map E.environment envs.now))
            run_set.over_budget.items run_set.runs.items) }
    {
        let mut run_set = RunSet {
            over_budget: Vec::with_capacity(alloc, codes.len())?,
            runs: Vec::with_capacity(alloc, codes.len())?,
        };
        for (code, env) in codes.iter().zip(envs.iter()) {
            run_set.begin(alloc, code, env)?;
        }
        Ok(run_set)
    }

    fn begin(&mut self, alloc: Global, code: &'a Verified, env: &'a E) -> Result<(), AllocError>
        requires { AreNumbered (E.is_number env.now) code.now }
        ensures over_budget { OnOk result (self.new.over_budget.items ≡ self.old.over_budget.items
            ++ excess_of (code.now, E.environment env.now) ∷ []) }
        ensures runs { OnOk result
            (self.new.runs.items ≡ self.old.runs.items ++ runs_of ((code.now, E.environment env.now) ∷ [])) }
        ensures fresh { OnOk result (AreFresh (runs_of ((code.now, E.environment env.now) ∷ []))) }
    {
        course_is_decided();
        let _known = code.code();
        match prepare(alloc, code, env) {
            Ok(run) => {
                self.runs.push(run)?;
                self.over_budget.push(None)?;
            }
            Err(PrepareError::OverBudget(bytes)) => self.over_budget.push(Some(bytes))?,
            Err(PrepareError::NoMemory) => return Err(AllocError),
        }
        Ok(())
    }

    /// Finishes each run, and returns the fates in the order of the codes.
    ///
    /// `AllocError` if an allocation failed.
    pub(crate) fn finish_all(self, alloc: Global) -> Result<Vec<Fate>, AllocError>
        requires { count_by is_none self.over_budget.items ≡ length self.runs.items }
        ensures { IfOk result
            (λ fates. map fate_value fates.items ≡ fates_in self.entry.over_budget.items
            (map outcome_in_the_end self.entry.runs.items)) }
    {
        course_is_decided();
        let RunSet { over_budget, runs } = self;
        let mut fates = Vec::with_capacity(alloc, over_budget.len())?;
        let mut runs = runs.into_iter();
        for excess in &over_budget {
            fates.push(match excess {
                Some(bytes) => Fate::OverBudget(*bytes),
                None => Fate::of(runs.next().unwrap().finish()),
            })?;
        }
        Ok(fates)
    }
}
