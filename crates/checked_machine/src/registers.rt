//! The registers: 64, of which a code of version 1 may name the first 16.

ghost use Rattle.std.specs.Prelude.{◌≡◌};
ghost use Rattle.machine_model.specs.States.{start, put};
ghost use Rattle.checked_machine.specs.Private.Values.{value_of};
ghost use Rattle.checked_machine.specs.Private.Frames.{registers_of};

use crate::register::Register;
use crate::value::Value;

#[derive(Clone, Copy)]
pub(crate) struct Registers<'a> {
    values: [Value<'a>; 64],
}

impl<'a> Registers<'a> {
    pub(crate) fn new() -> Registers<'a>
        ensures { registers_of result ≡ start.registers }
    {
        Registers {
            values: [Value::Nothing; 64],
        }
    }

    pub(crate) fn get(&self, register: Register) -> Value<'a>
        ensures { value_of result ≡ registers_of self.now register.number }
    {
        let values = &self.values[..];
        values[register.number as usize]
    }

    pub(crate) fn set(&mut self, register: Register, value: Value<'a>)
        ensures { registers_of self.new ≡ put (registers_of self.old) register.number (value_of value.entry) }
    {
        let values = &mut self.values[..];
        values[register.number as usize] = value;
    }
}
