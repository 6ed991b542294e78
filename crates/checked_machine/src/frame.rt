//! A running machine.

use crate::register::Register;
use crate::registers::Registers;
use crate::value::Value;
use std::alloc::Global;
use target_vars::Members;

/// A running loop: its body is from `start` to before `end`.
#[derive(Clone, Copy)]
pub(crate) struct Loop<'a> {
    pub(crate) start: usize,
    pub(crate) end: usize,
    pub(crate) element: Register,
    pub(crate) left: Members<'a>,
    pub(crate) first: bool,
}

/// A running machine: its place, its registers, its loop, and its output.
#[derive(Drop)]
pub(crate) struct Frame<'a> {
    pub(crate) place: usize,
    pub(crate) registers: Registers<'a>,
    pub(crate) running: Option<Loop<'a>>,
    pub(crate) output: String,
}

/// Where an instruction leads: to an end, to a place (which [`Frame::step`] then tests), or back to a loop's start.
#[derive(Clone, Copy)]
pub(crate) enum Move {
    Link,
    NoLink,
    MovesTo(usize),
    Returns(usize),
}

impl<'a> Frame<'a> {
    ghost use Rattle.std.specs.Prelude.{◌≡◌, ◌<◌, if◌then◌else◌};
    ghost use Rattle.machine_model.specs.States.{start, at, on, holding};
    ghost use Rattle.machine_model.specs.Step.{MovesTo};
    ghost use Rattle.checked_machine.specs.Private.Values.{value_of};
    ghost use Rattle.checked_machine.specs.Private.Frames.{frame_of, move_in};

    pub(crate) fn start(alloc: Global) -> Frame<'a>
        ensures { frame_of result ≡ start }
    {
        Frame {
            place: 0,
            registers: Registers::new(),
            running: None,
            output: String::new(alloc),
        }
    }

    pub(crate) fn value(&self, register: Register) -> Value<'a>
        ensures { value_of result ≡ (frame_of self.now).registers register.number }
    {
        self.registers.get(register)
    }

    pub(crate) fn hold(&mut self, register: Register, value: Value<'a>)
        ensures { frame_of self.new ≡ holding register.number (value_of value.entry) (frame_of self.old) }
    {
        self.registers.set(register, value);
    }

    /// To the next place.
    pub(crate) fn on(&self) -> Move
        requires { self.now.place < usize.MAX }
        ensures { move_in (frame_of self.now) result ≡ MovesTo (on (frame_of self.now)) }
    {
        Move::MovesTo(self.place + 1)
    }

    /// To a place if a test holds, and otherwise to the next place.
    pub(crate) fn jump_if(&self, test: bool, to: u16) -> Move
        requires { self.now.place < usize.MAX }
        ensures { move_in (frame_of self.now) result
            ≡ MovesTo (if test then at to (frame_of self.now) else on (frame_of self.now)) }
    {
        if test {
            Move::MovesTo(to as usize)
        } else {
            self.on()
        }
    }
}
