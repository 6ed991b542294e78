//! Runs of any code on any environment.

ghost use Rattle.std.specs.Prelude.{◌≡◌, ◌↔◌, ℕ, ◌+◌, ◌*◌, ◌<◌, ◌≤◌, length};
ghost use Rattle.code_model.specs.Code.{Code};
ghost use Rattle.environment_model.specs.Environment.{Environment, member_count};
ghost use Rattle.machine_model.specs.States.{Frame, State, Running};
ghost use Rattle.machine_model.specs.Runs.{After, EndsAfter, EndsWith, HasOutcome, Outcome};
ghost use Rattle.machine_model.specs.Next.{course, course_of, outcome_of};

/// Each run ends with a link, without a link, or at a place where no step is possible. A run takes at most `I * (1 +
/// M)` steps, where I is the number of instructions of the code, and M that of members of the environment.
pub fn every_run_ends()
    ensures ends_with { (c : Code) (v : Environment) →
        EndsWith c v (course_of c v).steps (course_of c v).outcome }
    ensures in_time { (c : Code) (v : Environment) (k : ℕ) (s : State) →
        After c v k s → k ≤ length c.instrs * (member_count v + 1) }
{}

/// A run has exactly the outcome and the number of steps that the function `course` computes.
pub fn course_is_decided()
    ensures course { (c : Code) (v : Environment) (k : ℕ) (o : Outcome) →
        EndsWith c v k o ↔ (course_of c v ≡ course k o) }
    ensures outcome { (c : Code) (v : Environment) (o : Outcome) →
        HasOutcome c v o ↔ (outcome_of c v ≡ o) }
{}

/// A run ends after exactly one number of steps.
pub fn run_ends_once()
    ensures { (c : Code) (v : Environment) (k m : ℕ) → EndsAfter c v k → EndsAfter c v m → k ≡ m }
{}

/// A running state comes before the end of the run.
pub fn running_precedes_the_end()
    ensures { (c : Code) (v : Environment) (k m : ℕ) (s : Frame) →
        After c v k (Running s) → EndsAfter c v m → k < m }
{}
