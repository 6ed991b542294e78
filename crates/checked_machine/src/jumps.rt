//! Instructions that jump if a test of registers holds.

ghost use Rattle.std.specs.Prelude.{◌≡◌, ◌<◌, Some, nat_lt, bytes_eq, if◌then◌else◌};
ghost use Rattle.machine_model.specs.States.{on, at};
ghost use Rattle.machine_model.specs.Step.{MovesTo};
ghost use Rattle.machine_model.specs.Next.{for_text, for_list, for_number, undef_move, jump_if_none};
ghost use Rattle.checked_machine.specs.Private.Frames.{frame_of, moves};

use crate::frame::{Frame, Move};
use crate::register::Register;
use crate::value::Value;

impl<'a> Frame<'a> {
    /// Jumps if the register is Undefined.
    pub(crate) fn jump_if_undefined(&self, register: Register, to: u16) -> Option<Move>
        requires { self.now.place < usize.MAX }
        ensures { moves (frame_of self.now) result ≡ undef_move (frame_of self.now) to
            ((frame_of self.now).registers register.number) }
    {
        match self.value(register) {
            Value::Undefined => Some(Move::MovesTo(to as usize)),
            Value::Text(_) => Some(self.on()),
            _ => None,
        }
    }

    /// Jumps if the register's text is empty.
    pub(crate) fn jump_if_empty(&self, register: Register, to: u16) -> Option<Move>
        requires { self.now.place < usize.MAX }
        ensures { moves (frame_of self.now) result ≡ for_text ((frame_of self.now).registers register.number)
            (jump_if_none (frame_of self.now) to) }
    {
        match self.value(register) {
            Value::Text(text) => Some(self.jump_if(text.is_empty(), to)),
            _ => None,
        }
    }

    /// Jumps if the register's list has no member.
    pub(crate) fn jump_if_no_member(&self, register: Register, to: u16) -> Option<Move>
        requires { self.now.place < usize.MAX }
        ensures { moves (frame_of self.now) result ≡ for_list ((frame_of self.now).registers register.number)
            (jump_if_none (frame_of self.now) to) }
    {
        match self.value(register) {
            Value::List(members) => Some(self.jump_if(members.is_empty(), to)),
            _ => None,
        }
    }

    /// Jumps if the texts of two registers are not equal.
    pub(crate) fn jump_if_different(
        &self,
        first: Register,
        second: Register,
        to: u16,
    ) -> Option<Move>
        requires { self.now.place < usize.MAX }
        ensures { moves (frame_of self.now) result ≡ for_text ((frame_of self.now).registers first.number)
            (λ t. for_text ((frame_of self.now).registers second.number)
            (λ u. Some (MovesTo (if bytes_eq t u then on (frame_of self.now) else at to (frame_of self.now))))) }
    {
        match (self.value(first), self.value(second)) {
            (Value::Text(first), Value::Text(second)) => Some(self.jump_if(first != second, to)),
            _ => None,
        }
    }

    /// Jumps if the first register's number is below the second's.
    pub(crate) fn jump_if_less(&self, first: Register, second: Register, to: u16) -> Option<Move>
        requires { self.now.place < usize.MAX }
        ensures { moves (frame_of self.now) result ≡ for_number ((frame_of self.now).registers first.number)
            (λ m. for_number ((frame_of self.now).registers second.number)
            (λ n. Some (MovesTo (if nat_lt m n then at to (frame_of self.now) else on (frame_of self.now))))) }
    {
        match (self.value(first), self.value(second)) {
            (Value::Number(first), Value::Number(second)) => Some(self.jump_if(first < second, to)),
            _ => None,
        }
    }
}
