//! What one instruction adds to the sums of output bytes.

ghost use Rattle.std.specs.Prelude.{◌≡◌, ◌*◌, ◌<◌, length, All};
ghost use Rattle.machine_model.specs.Operands.{literal_at};
ghost use Rattle.machine_model.specs.Budget as budget;
ghost use Rattle.code_file.specs.Grammar.{IsLiteral};
ghost use Rattle.budget.specs.Private.Shares.{IsShareOf};

use code_file::{Code, Literal};
use code_model::Instruction;

/// The maximum number of bytes that an instruction prints, in parts.
#[derive(Clone, Copy, Debug)]
pub(crate) struct Share {
    /// Bytes that do not depend on the environment.
    pub fixed: u64,
    /// The bytes of the text of a SEP.
    pub separator: u64,
    /// Bytes for each byte of the text that a PUT or CUT writes.
    pub written: u64,
}

const NOTHING: Share = Share {
    fixed: 0,
    separator: 0,
    written: 0,
};

/// The share of an instruction of code whose longest comparison text has `longest` bytes.
pub(crate) fn share_of(code: &Code, longest: u16, instruction: Option<Instruction>) -> Share
    requires { longest ≡ budget.longest_compared code.now.literals }
    ensures { IsShareOf code.now instruction result }
{
    match instruction {
        Some(Instruction::Emit(index)) => Share {
            fixed: literal_len(code, index),
            ..NOTHING
        },
        Some(Instruction::Sep(index)) => Share {
            separator: literal_len(code, index),
            ..NOTHING
        },
        Some(Instruction::Put(..) | Instruction::Cut(..)) => Share {
            fixed: 3 * u64::from(longest),
            written: 3,
            ..NOTHING
        },
        _ => NOTHING,
    }
}

/// The length of an entry of the table, 0 if there is none.
fn literal_len(code: &Code, index: u16) -> u64
    ensures { result ≡ length (literal_at code.now index) }
{
    match code.literals().get(usize::from(index)) {
        Some(literal) => literal.bytes.len() as u64,
        None => 0,
    }
}

/// The length of the longest comparison text, 0 if there is none.
pub(crate) fn longest_compared(literals: &[Literal]) -> u16
    requires { All IsLiteral literals.now }
    ensures { result ≡ budget.longest_compared literals.now }
{
    let mut longest = 0;
    for literal in literals {
        if literal.compared {
            longest = longest.max(literal.bytes.len() as u16);
        }
    }
    longest
}
