//! One register.

ghost use Rattle.std.specs.Prelude.{◌≡◌, ◌<◌};

/// A register that exists. Whether the code's version may name it is tested when an instruction is read.
#[derive(Clone, Copy)]
pub(crate) struct Register {
    pub(crate) number: u16,
    ghost below: { number < 64 },
}

impl Register {
    pub(crate) fn new(number: u16) -> Register
        requires { number < 64 }
        ensures { result.number ≡ number }
    {
        Register { number }
    }
}
