//! Instructions that load a value into a register.

ghost use Rattle.std.specs.Prelude.{◌≡◌, ◌<◌, Some, length};
ghost use Rattle.text_model.specs.Number.{leading_number};
ghost use Rattle.environment_model.specs.Environment.{text_of, members_of};
ghost use Rattle.machine_model.specs.Operands.{name_at, literal_at};
ghost use Rattle.machine_model.specs.Values as value;
ghost use Rattle.machine_model.specs.Values.{text_or_undefined};
ghost use Rattle.machine_model.specs.States.{on, holding};
ghost use Rattle.machine_model.specs.Step.{MovesTo};
ghost use Rattle.machine_model.specs.Next.{for_text, for_list, number_move};
ghost use Rattle.checked_machine.specs.Private.Values.{value_of};
ghost use Rattle.checked_machine.specs.Private.Frames.{frame_of, move_in, moves};

use crate::frame::{Frame, Move};
use crate::register::Register;
use crate::value::Value;
use code_file::Code;
use target_vars::Env;
use uri_text::leading_number;

/// The bytes of a literal.
pub(crate) fn literal(code: &Code, index: u16) -> &[u8]
    requires { index < length code.now.literals }
    ensures { result.now ≡ literal_at code.now index }
{
    &code.literal(index as usize).bytes
}

fn name(code: &Code, index: u16) -> &str
    requires { index < length code.now.names }
    ensures { result.now ≡ name_at code.now index }
{
    code.name(index as usize).text.as_str()
}

/// The text of a name, or Undefined.
pub(crate) fn text_of<'a>(code: &Code, env: &'a Env, index: u16) -> Value<'a>
    requires { index < length code.now.names }
    ensures { value_of result ≡ text_or_undefined (text_of env.now.entries (name_at code.now index)) }
{
    match env.text(name(code, index)) {
        None => Value::Undefined,
        Some(text) => Value::Text(text.as_bytes()),
    }
}

/// The list of a name.
pub(crate) fn members_of<'a>(code: &Code, env: &'a Env, index: u16) -> Value<'a>
    requires { index < length code.now.names }
    ensures { value_of result ≡ value.List (members_of env.now.entries (name_at code.now index)) }
{
    Value::List(env.list(name(code, index)))
}

impl<'a> Frame<'a> {
    /// Puts a value into a register, and continues.
    pub(crate) fn load(&mut self, register: Register, value: Value<'a>) -> Move
        requires { self.old.place < usize.MAX }
        ensures { move_in (frame_of self.new) result
            ≡ MovesTo (on (holding register.number (value_of value.entry) (frame_of self.old))) }
    {
        self.hold(register, value);
        self.on()
    }

    /// Puts the leading number of a text into a register and continues, or jumps.
    pub(crate) fn load_number(
        &mut self,
        register: Register,
        text: Register,
        to: u16,
    ) -> Option<Move>
        requires { self.old.place < usize.MAX }
        ensures { moves (frame_of self.new) result ≡ for_text ((frame_of self.old).registers text.number)
            (λ t. number_move (frame_of self.old) register.number to (leading_number t)) }
    {
        let Value::Text(text) = self.value(text) else {
            return None;
        };
        match leading_number(text) {
            None => Some(Move::MovesTo(to as usize)),
            Some(number) => Some(self.load(register, Value::Number(number))),
        }
    }

    /// Puts the number of a list's members into a register, and continues.
    pub(crate) fn load_count(&mut self, register: Register, list: Register) -> Option<Move>
        requires { self.old.place < usize.MAX }
        ensures { moves (frame_of self.new) result ≡ for_list ((frame_of self.old).registers list.number)
            (λ ts. Some (MovesTo (on (holding register.number (value.Number (length ts)) (frame_of self.old))))) }
    {
        let Value::List(members) = self.value(list) else {
            return None;
        };
        // A list has at most 65,535 members.
        Some(self.load(register, Value::Number(members.len() as u32)))
    }
}
