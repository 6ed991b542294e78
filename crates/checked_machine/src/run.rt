//! A run, from the start to its outcome.

ghost use Rattle.std.specs.Prelude.{◌≡◌, IfOk};
ghost use Rattle.machine_model.specs.Next.{step_limit};
ghost use Rattle.checked_machine.specs.Outcomes.{checked_outcome, IsOutcome};

use crate::frame::Frame;
use crate::step::Stepped;
use code_file::Code;
use machine_laws::{course_is_decided, every_run_ends, step_is_decided};
use std::alloc::{AllocError, Global};
use target_vars::Env;

/// What a run ends with.
#[derive(Debug, Drop)]
pub enum Checked {
    /// It ends with this link.
    Link(String),
    /// It ends without a link.
    NoLink,
    /// No step is possible from this place.
    Stuck(usize),
}

/// A number of steps that no run exceeds.
fn step_limit(code: &Code, env: &Env) -> usize
    ensures { result ≡ step_limit code.now env.now.entries }
{
    code.len() * (env.members() + 1)
}

/// Runs a code on an environment, with every test that the definitions of the machine make, and returns what the run
/// ends with. Any code may be run, and every run ends.
///
/// A step takes constant time, except for the bytes that it appends or compares, and for looking a name up, which
/// compares it with the names of the environment. The only error is that memory for the output runs out.
pub fn run_checked<'a>(alloc: Global, code: &'a Code, env: &'a Env) -> Result<Checked, AllocError>
    ensures { IfOk result (λ answer. IsOutcome code.now env.now.entries (checked_outcome answer)) }
{
    // The result relies on these laws of the machine.
    step_is_decided();
    every_run_ends();
    course_is_decided();
    let mut frame = Frame::start(alloc);
    for _steps in 0..step_limit(code, env) {
        match frame.step(code, env)? {
            Stepped::Onward => {}
            Stepped::Link => return Ok(Checked::Link(frame.output)),
            Stepped::NoLink => return Ok(Checked::NoLink),
            Stepped::Stuck(place) => return Ok(Checked::Stuck(place)),
        }
    }
    // After the maximum number of steps of a run, no step is possible.
    Ok(Checked::Stuck(frame.place))
}
