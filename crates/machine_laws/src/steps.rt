//! One step, and the states after many.

ghost use Rattle.std.specs.Prelude.{◌≡◌, ◌↔◌, ℕ, Some};
ghost use Rattle.code_model.specs.Code.{Code};
ghost use Rattle.environment_model.specs.Environment.{Environment};
ghost use Rattle.machine_model.specs.States.{State};
ghost use Rattle.machine_model.specs.Step.{StepsTo};
ghost use Rattle.machine_model.specs.Runs.{After};
ghost use Rattle.machine_model.specs.Next.{next_state, state_after};

/// A state has at most one next state.
pub fn no_state_has_two_next_states()
    ensures { (c : Code) (v : Environment) (s new other : State) →
        StepsTo c v s new → StepsTo c v s other → new ≡ other }
{}

/// A step is possible exactly if the function that computes the next state returns one, and it leads to that state.
pub fn step_is_decided()
    ensures { (c : Code) (v : Environment) (s new : State) →
        StepsTo c v s new ↔ (next_state c v s ≡ Some new) }
{}

/// The state after k steps is the result of computing the next state k times, from the start.
pub fn states_after_steps_are_decided()
    ensures { (c : Code) (v : Environment) (k : ℕ) (s : State) → After c v k s ↔ (state_after c v k ≡ Some s) }
{}
