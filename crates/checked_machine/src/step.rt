//! One step.

ghost use Rattle.std.specs.Prelude.{◌≡◌, ℕ, ◌<◌, Ok, IfOk};
ghost use Rattle.machine_model.specs.States.{Running, at};
ghost use Rattle.machine_model.specs.Next.{is_inside, is_onward, judged, next_state};
ghost use Rattle.checked_machine.specs.Private.Frames.{frame_of, move_in, stepped};
ghost use Rattle.checked_machine.specs.declared.step.Stepped.TheVariants.{Stuck};

use crate::frame::{Frame, Move};
use crate::reading::instruction_at;
use code_file::Code;
use std::alloc::AllocError;
use target_vars::Env;

/// The outcome of a step. `Stuck` has the place from which no step is possible.
#[derive(Clone, Copy)]
pub(crate) enum Stepped {
    Onward,
    Link,
    NoLink,
    Stuck(usize),
}

impl<'a> Frame<'a> {
    /// Whether the place is in the running loop's body, or no loop is running.
    fn is_inside(&self, place: usize) -> bool
        ensures { result ≡ is_inside (frame_of self.now).loop place }
    {
        match self.running {
            None => true,
            Some(running) => running.start <= place && place < running.end,
        }
    }

    /// Whether a step may go from one place to the other.
    fn is_onward(&self, code: &Code, from: usize, to: usize) -> bool
        ensures { result ≡ is_onward code.now from (at to (frame_of self.now)) }
    {
        from < to && to < code.len() && self.is_inside(to)
    }

    fn go(&mut self, code: &Code, from: usize, to: Move) -> Stepped
        ensures next { stepped self.new result ≡ judged code.now from (move_in (frame_of self.old) to) }
        ensures stuck { (place : ℕ) → result ≡ Stuck place → place ≡ from }
    {
        match to {
            Move::Link => Stepped::Link,
            Move::NoLink => Stepped::NoLink,
            Move::MovesTo(place) if !self.is_onward(code, from, place) => Stepped::Stuck(from),
            Move::MovesTo(place) | Move::Returns(place) => {
                self.place = place;
                Stepped::Onward
            }
        }
    }

    /// Carries out the instruction at the place.
    pub(crate) fn step(&mut self, code: &'a Code, env: &'a Env) -> Result<Stepped, AllocError>
        ensures next { IfOk result
            (λ answer. stepped self.new answer ≡ next_state code.now env.now.entries (Running (frame_of self.old))) }
        ensures stuck { (place : ℕ) → result ≡ Ok (Stuck place) → place ≡ self.old.place }
    {
        let place = self.place;
        let Some(instruction) = instruction_at(code, place) else {
            return Ok(Stepped::Stuck(place));
        };
        match self.act(code, env, instruction)? {
            None => Ok(Stepped::Stuck(place)),
            Some(to) => Ok(self.go(code, place, to)),
        }
    }
}
