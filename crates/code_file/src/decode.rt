//! Instructions and the fields that encode them.

ghost use Rattle.std.specs.Prelude.{◌≡◌};
ghost use Rattle.std.specs.List.{list_all};
ghost use Rattle.code_model.specs.Code as code;
ghost use Rattle.code_model.specs.Operands as operands;

use code_model::{Instr, Instruction};

/// The instruction that the fields encode in a version of code files. Fields that its operation does not use are
/// ignored. `Count` is an operation of version 2 only.
#[tactic(auto, unfolding(code_model::specs::Code::reading))]
pub fn instruction(version: u8, instr: Instr) -> Option<Instruction>
    ensures { result ≡ code.reading version instr }
{
    let Instr { op, a, b, c, d } = instr;
    match op {
        0 => None,
        1 => Some(Instruction::Halt),
        2 => Some(Instruction::Fail),
        3 => Some(Instruction::Jump(d)),
        4 => Some(Instruction::Text(a, b)),
        5 => Some(Instruction::List(a, b)),
        6 => Some(Instruction::Const(a, b)),
        7 => Some(Instruction::Number(a, b, d)),
        8 => Some(Instruction::Undef(a, d)),
        9 => Some(Instruction::Empty(a, d)),
        10 => Some(Instruction::NoList(a, d)),
        11 => Some(Instruction::Differ(a, b, d)),
        12 => Some(Instruction::Less(a, b, d)),
        13 => Some(Instruction::Emit(b)),
        14 => Some(Instruction::Put(a, c)),
        15 => Some(Instruction::Cut(a, b, c)),
        16 => Some(Instruction::Each(a, b, d)),
        17 => Some(Instruction::Sep(b)),
        18 => Some(Instruction::Next),
        19 if version == 2 => Some(Instruction::Count(a, b)),
        19..=255 => None,
    }
}

fn row(op: u8, a: u8, b: u16, c: u16, d: u16) -> Instr
    ensures { result ≡ code.row op a b c d }
{
    Instr { op, a, b, c, d }
}

/// The fields that encode an instruction; those that it does not use are 0.
pub fn spelling(instruction: Instruction) -> Instr
    ensures { result ≡ code.spelling instruction }
{
    match instruction {
        Instruction::Halt => row(1, 0, 0, 0, 0),
        Instruction::Fail => row(2, 0, 0, 0, 0),
        Instruction::Jump(d) => row(3, 0, 0, 0, d),
        Instruction::Text(a, b) => row(4, a, b, 0, 0),
        Instruction::List(a, b) => row(5, a, b, 0, 0),
        Instruction::Const(a, b) => row(6, a, b, 0, 0),
        Instruction::Number(a, b, d) => row(7, a, b, 0, d),
        Instruction::Undef(a, d) => row(8, a, 0, 0, d),
        Instruction::Empty(a, d) => row(9, a, 0, 0, d),
        Instruction::NoList(a, d) => row(10, a, 0, 0, d),
        Instruction::Differ(a, b, d) => row(11, a, b, 0, d),
        Instruction::Less(a, b, d) => row(12, a, b, 0, d),
        Instruction::Emit(b) => row(13, 0, b, 0, 0),
        Instruction::Put(a, c) => row(14, a, 0, c, 0),
        Instruction::Cut(a, b, c) => row(15, a, b, c, 0),
        Instruction::Each(a, b, d) => row(16, a, b, 0, d),
        Instruction::Sep(b) => row(17, 0, b, 0, 0),
        Instruction::Next => row(18, 0, 0, 0, 0),
        Instruction::Count(a, b) => row(19, a, b, 0, 0),
    }
}

/// Whether a mode is 0 or 1, and the count of a cut 1 to 9,999.
pub(crate) fn is_in_range(instruction: Instruction) -> bool
    ensures { result ≡ list_all operands.is_in_range (operands.operands instruction) }
{
    match instruction {
        Instruction::Put(_, c) => c <= 1,
        Instruction::Cut(_, b, c) => 1 <= b && b <= 9999 && c <= 1,
        _ => true,
    }
}
