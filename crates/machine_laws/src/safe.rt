//! The laws on which the verifier and the runs of accepted code rely.

ghost use Rattle.std.specs.Prelude.{ℕ, length, ◌<◌};
ghost use Rattle.environment_model.specs.Environment.{Environment};
ghost use Rattle.code_model.specs.Code.{Code};
ghost use Rattle.machine_model.specs.States.{Frame, State, Running};
ghost use Rattle.machine_model.specs.Step.{StepsTo};
ghost use Rattle.machine_model.specs.Runs.{After};
ghost use Rattle.machine_model.specs.Form.{HasGoodForm};
ghost use Rattle.machine_model.specs.Typable.{Table, IsClosed, MeetsNeeds, IsTypable};
ghost use Rattle.machine_model.specs.Fitting.{Conforms};
ghost use Rattle.machine_model.specs.Safe.{IsFileCode, IsSafe};

/// The code of a file that has good form and is typable is safe: on every environment it never gets stuck, ends within
/// the steps of its budget, and prints URI text within the bytes of its budget. Code of a file has at least one
/// instruction, and its link texts are URI text.
pub fn typable_code_is_safe()
    ensures { (c : Code) → IsFileCode c → HasGoodForm c → IsTypable c → IsSafe c }
{}

/// Every table of kinds for such a code describes each running state that the code reaches: the place has kinds, the
/// registers hold values of these kinds, and a loop runs exactly in its body. A step is possible from the state.
pub fn reached_states_conform()
    ensures conforms { (c : Code) (t : Table) (v : Environment) (k : ℕ) (s : Frame) →
        HasGoodForm c → 0 < length c.instrs → IsClosed c t → MeetsNeeds c t → After c v k (Running s) → Conforms c t s }
    ensures continues { (c : Code) (v : Environment) (k : ℕ) (s : Frame) →
        HasGoodForm c → 0 < length c.instrs → IsTypable c → After c v k (Running s) →
        (new : State) × StepsTo c v (Running s) new }
{}
