//! The instruction at a place, if it can be read.

ghost use Rattle.std.specs.Prelude.{◌≡◌, ◌<◌, IfSome, OnSome};
ghost use Rattle.code_model.specs.Operands.{Register, TextName, ListName, LinkText, Compared};
ghost use Rattle.machine_model.specs.Operands.{is_right, has_right_operands};
ghost use Rattle.machine_model.specs.Next.{instruction_at};
ghost use Rattle.checked_machine.specs.Private.Given.{AreGiven};

use code_file::{Code, instruction, spelling};
use code_model::Instruction;

fn is_text_name(code: &Code, index: u16) -> bool
    ensures { result ≡ is_right code.now (TextName index) }
{
    let index = index as usize;
    index < code.names().len() && !code.name(index).list
}

fn is_list_name(code: &Code, index: u16) -> bool
    ensures { result ≡ is_right code.now (ListName index) }
{
    let index = index as usize;
    index < code.names().len() && code.name(index).list
}

fn is_link_text(code: &Code, index: u16) -> bool
    ensures { result ≡ is_right code.now (LinkText index) }
{
    let index = index as usize;
    index < code.literals().len() && !code.literal(index).compared
}

fn is_compared(code: &Code, index: u16) -> bool
    ensures { result ≡ is_right code.now (Compared index) }
{
    let index = index as usize;
    index < code.literals().len() && code.literal(index).compared
}

/// Whether a register exists: code of version 1 has 16 registers, and code of version 2 has 64.
fn is_register(code: &Code, number: u16) -> bool
    ensures { result ≡ is_right code.now (Register number) }
{
    number < if code.version() == 2 { 64 } else { 16 }
}

/// Whether each register, table entry, count and mode that the instruction names exists and is of the kind that it
/// needs.
#[tactic(auto, unfolding(machine_model::specs::Operands::has_right_operands))]
fn has_right_operands(code: &Code, instruction: Instruction) -> bool
    ensures { result ≡ has_right_operands code.now instruction }
{
    match instruction {
        Instruction::Halt | Instruction::Fail | Instruction::Jump(_) | Instruction::Next => true,
        Instruction::Text(a, b) => is_register(code, a.into()) && is_text_name(code, b),
        Instruction::List(a, b) => is_register(code, a.into()) && is_list_name(code, b),
        Instruction::Const(a, b) => is_register(code, a.into()) && is_compared(code, b),
        Instruction::Undef(a, _) | Instruction::Empty(a, _) | Instruction::NoList(a, _) => {
            is_register(code, a.into())
        }
        Instruction::Number(a, b, _)
        | Instruction::Differ(a, b, _)
        | Instruction::Less(a, b, _)
        | Instruction::Each(a, b, _)
        | Instruction::Count(a, b) => is_register(code, a.into()) && is_register(code, b),
        Instruction::Emit(b) | Instruction::Sep(b) => is_link_text(code, b),
        Instruction::Put(a, c) => is_register(code, a.into()) && c <= 1,
        Instruction::Cut(a, b, c) => {
            is_register(code, a.into()) && (1..=9999).contains(&b) && c <= 1
        }
    }
}

/// The instruction at a place; `None` if the place is past the last one, if no operation of the code's version has the
/// number, if an unused field is not 0, or if an operand is wrong.
pub(crate) fn instruction_at(code: &Code, place: usize) -> Option<Instruction>
    ensures value { result ≡ instruction_at code.now place }
    ensures given { IfSome result (AreGiven code.now) }
    ensures within { OnSome result (place < usize.MAX) }
{
    if place >= code.len() {
        return None;
    }
    let fields = code.instr(place);
    let read = instruction(code.version(), fields)?;
    if fields == spelling(read) && has_right_operands(code, read) {
        Some(read)
    } else {
        None
    }
}
