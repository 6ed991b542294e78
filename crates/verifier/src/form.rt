//! The checks of form, one place at a time.

ghost use Rattle.std.specs.Prelude.{◌≡◌, ◌<◌, ◌||◌, ◌&&◌, ◌-◌, length, true};
ghost use Rattle.std.specs.List.{list_all};
ghost use Rattle.code_model.specs.Operands.{operands, is_in_range};
ghost use Rattle.machine_model.specs.Operands as operand;
ghost use Rattle.machine_model.specs.Form as form;
ghost use Rattle.machine_model.specs.Form.{is_same_body, ends_body};
ghost use Rattle.machine_model.specs.Form.{first_failing, fault_at, first_form_fault};
ghost use Rattle.verifier.specs.Private.Checks.{operand_checks, jump_checks, each_checks, order_checks, located_of};

use crate::layout::Layout;
use code_file::{Code, spelling};
use code_model::{Instr, Instruction};
use machine_model::{Body, FormFault};

/// Whether the mode is 0 or 1, and the count of a cut 1 to 9,999.
fn is_in_range(instruction: Instruction) -> bool
    ensures { result ≡ list_all is_in_range (operands instruction) }
{
    match instruction {
        Instruction::Put(_, c) => c <= 1,
        Instruction::Cut(_, b, c) => 1 <= b && b <= 9999 && c <= 1,
        _ => true,
    }
}

/// How many registers a code may name.
fn register_count(code: &Code) -> u16
    ensures { result ≡ operand.register_count code.now }
{
    if code.version() == 2 { 64 } else { 16 }
}

/// Whether the code's version has the registers.
fn are_registers(code: &Code, instruction: Instruction) -> bool
    ensures { result ≡ list_all (operand.is_register code.now) (operands instruction) }
{
    let count = register_count(code);
    match instruction {
        Instruction::Text(a, _)
        | Instruction::List(a, _)
        | Instruction::Const(a, _)
        | Instruction::Undef(a, _)
        | Instruction::Empty(a, _)
        | Instruction::NoList(a, _)
        | Instruction::Put(a, _)
        | Instruction::Cut(a, _, _) => (a as u16) < count,
        Instruction::Number(a, b, _)
        | Instruction::Differ(a, b, _)
        | Instruction::Less(a, b, _)
        | Instruction::Each(a, b, _)
        | Instruction::Count(a, b) => (a as u16) < count && b < count,
        Instruction::Halt
        | Instruction::Fail
        | Instruction::Jump(_)
        | Instruction::Emit(_)
        | Instruction::Sep(_)
        | Instruction::Next => true,
    }
}

/// Whether the tables have the entries.
fn are_in_tables(code: &Code, instruction: Instruction) -> bool
    ensures { result ≡ list_all (operand.is_in_table code.now) (operands instruction) }
{
    match instruction {
        Instruction::Text(_, b) | Instruction::List(_, b) => (b as usize) < code.names().len(),
        Instruction::Const(_, b) | Instruction::Emit(b) | Instruction::Sep(b) => {
            (b as usize) < code.literals().len()
        }
        _ => true,
    }
}

/// Whether the entries are of the kinds that the instruction needs.
fn have_table_kinds(code: &Code, instruction: Instruction) -> bool
    requires { list_all (operand.is_in_table code.now) (operands instruction) ≡ true }
    ensures { result ≡ list_all (operand.has_table_kind code.now) (operands instruction) }
{
    match instruction {
        Instruction::Text(_, b) => !code.name(b as usize).list,
        Instruction::List(_, b) => code.name(b as usize).list,
        Instruction::Const(_, b) => code.literal(b as usize).compared,
        Instruction::Emit(b) | Instruction::Sep(b) => !code.literal(b as usize).compared,
        _ => true,
    }
}

/// The place that an instruction can jump to, if it is a jump.
fn target(instruction: Instruction) -> Option<usize>
    ensures { result ≡ form.target instruction }
{
    match instruction {
        Instruction::Jump(d)
        | Instruction::Number(_, _, d)
        | Instruction::Undef(_, d)
        | Instruction::Empty(_, d)
        | Instruction::NoList(_, d)
        | Instruction::Differ(_, _, d)
        | Instruction::Less(_, _, d)
        | Instruction::Each(_, _, d) => Some(d as usize),
        _ => None,
    }
}

fn is_each(instruction: Instruction) -> bool
    ensures { result ≡ form.is_each instruction }
{
    matches!(instruction, Instruction::Each(..))
}

/// Whether the run ends at the instruction.
fn ends_run(instruction: Instruction) -> bool
    ensures { result ≡ form.ends_run instruction }
{
    matches!(instruction, Instruction::Halt | Instruction::Fail)
}

/// Whether two places are in the same body, or both in none.
fn is_same_body(a: Option<Body>, b: Option<Body>) -> bool
    ensures { result ≡ is_same_body a b }
{
    match (a, b) {
        (None, None) => true,
        (Some(a), Some(b)) => a.start == b.start,
        _ => false,
    }
}

/// Whether the place is the last of its body.
fn ends_body(place: usize, body: Option<Body>) -> bool
    requires { place < usize.MAX }
    ensures { result ≡ ends_body place body }
{
    match body {
        None => false,
        Some(body) => place + 1 == body.end,
    }
}

impl<'a> Layout<'a> {
    /// What is wrong with the fields of an instruction.
    fn operand_fault(&self, fields: Instr, instruction: Instruction) -> Option<FormFault>
        ensures { result ≡ first_failing (operand_checks self.now.code.now fields instruction) }
    {
        if fields != spelling(instruction) || !is_in_range(instruction) {
            Some(FormFault::BadField)
        } else if !are_registers(self.code, instruction) {
            Some(FormFault::BadRegister)
        } else if !are_in_tables(self.code, instruction) {
            Some(FormFault::BadIndex)
        } else if !have_table_kinds(self.code, instruction) {
            Some(FormFault::WrongTableKind)
        } else {
            None
        }
    }

    /// What is wrong with the target of a jump at a place.
    fn jump_fault(&self, place: usize, instruction: Instruction) -> Option<FormFault>
        ensures { result ≡ first_failing (jump_checks self.now.code.now place instruction) }
    {
        let to = target(instruction)?;
        if to <= place {
            Some(FormFault::JumpNotForward)
        } else if to >= self.code.len() {
            Some(FormFault::JumpOut)
        } else if !is_each(instruction) && !is_same_body(self.body(place), self.body(to)) {
            Some(FormFault::CrossesLoop)
        } else {
            None
        }
    }

    /// What is wrong with an EACH at a place.
    fn each_fault(&self, place: usize, instruction: Instruction) -> Option<FormFault>
        ensures { result ≡ first_failing (each_checks self.now.code.now place instruction) }
    {
        let Instruction::Each(_, _, end) = instruction else {
            return None;
        };
        if self.body(place).is_some() {
            return Some(FormFault::NestedLoop);
        }
        match self.reading((end as usize).saturating_sub(1)) {
            Some(Instruction::Next) => None,
            _ => Some(FormFault::BadLoop),
        }
    }

    /// What is wrong with the position of the instruction at a place.
    fn order_fault(&self, place: usize, instruction: Instruction) -> Option<FormFault>
        requires { place < length self.now.code.now.instrs }
        ensures { result ≡ first_failing (order_checks self.now.code.now place instruction) }
    {
        let body = self.body(place);
        if instruction == Instruction::Next && !ends_body(place, body) {
            Some(FormFault::StrayNext)
        } else if matches!(instruction, Instruction::Sep(_)) && body.is_none() {
            Some(FormFault::StraySep)
        } else if place + 1 >= self.code.len() && !ends_run(instruction) {
            Some(FormFault::FallsOff)
        } else {
            None
        }
    }

    /// The first check that fails at a place.
    fn fault(&self, place: usize) -> Option<FormFault>
        requires { place < length self.now.code.now.instrs }
        ensures { result ≡ fault_at self.now.code.now place }
    {
        let Some(instruction) = self.reading(place) else {
            return Some(FormFault::UnknownOp);
        };
        if let Some(fault) = self.operand_fault(self.code.instr(place), instruction) {
            return Some(fault);
        }
        if let Some(fault) = self.jump_fault(place, instruction) {
            return Some(fault);
        }
        if let Some(fault) = self.each_fault(place, instruction) {
            return Some(fault);
        }
        self.order_fault(place, instruction)
    }

    /// The first error of form in the order of the places, with its place.
    pub(crate) fn first_fault(&self) -> Option<(FormFault, usize)>
        ensures { located_of result ≡ first_form_fault self.now.code.now }
    {
        for place in 0..self.code.len() {
            if let Some(fault) = self.fault(place) {
                return Some((fault, place));
            }
        }
        None
    }
}
