//! Lines as instructions.

ghost use Rattle.std.specs.Prelude.{◌≡◌, ◌+◌, ◌≤◌, ◌++◌, ◌∷◌, [], All, length, map, OnOk};
ghost use Rattle.code_model.specs.Code.{spelling as spelled};
ghost use Rattle.code_file.specs.Grammar.{IsInstr};
ghost use Rattle.code_file.specs.declared.limits.TheConstants.{MAX_INSTRS, MAX_LITERALS, MAX_NAMES};
ghost use Rattle.compiler_model.specs.Compiled.{mode_of, place_of, action_instruction, test_instruction};
ghost use Rattle.compiler_model.specs.Compiled.{line_instruction, instructions_from};
ghost use Rattle.compiler.specs.Private.Reach.{distance, reach, StayWithin};

use crate::tables::{literal_index, name_index};
use code_file::{Instr, Literal, Name, spelling};
use code_model::Instruction;
use compiler_model::{Action, Line, Target, Test};
use std::alloc::AllocError;
use text_model::Writing;

fn mode(writing: Writing) -> u16
    ensures { result ≡ mode_of writing }
{
    match writing {
        Writing::U => 0,
        Writing::UR => 1,
    }
}

fn of_action(names: &[Name], literals: &[Literal], action: &Action) -> Instruction
    requires names { length names.now ≤ MAX_NAMES }
    requires literals { length literals.now ≤ MAX_LITERALS }
    ensures { result ≡ action_instruction names.now literals.now action.now }
{
    match action {
        Action::LoadText(register, name) => {
            Instruction::Text(*register, name_index(names, false, name.as_str()) as u16)
        }
        Action::LoadList(register, name) => {
            Instruction::List(*register, name_index(names, true, name.as_str()) as u16)
        }
        Action::LoadConst(register, text) => {
            let index = literal_index(literals, true, text.as_str().as_bytes());
            Instruction::Const(*register, index as u16)
        }
        Action::CountMembers(register, list) => Instruction::Count(*register, *list as u16),
        Action::Emits(text) => {
            Instruction::Emit(literal_index(literals, false, text.as_str().as_bytes()) as u16)
        }
        Action::Separates(text) => {
            Instruction::Sep(literal_index(literals, false, text.as_str().as_bytes()) as u16)
        }
        Action::Puts(register, writing) => Instruction::Put(*register, mode(*writing)),
        Action::Cuts(register, items, writing) => {
            Instruction::Cut(*register, *items, mode(*writing))
        }
    }
}

fn of_test(test: Test, place: u16) -> Instruction
    ensures { result ≡ test_instruction test place }
{
    match test {
        Test::IsUndefined(register) => Instruction::Undef(register, place),
        Test::IsEmpty(register) => Instruction::Empty(register, place),
        Test::HasNoMember(register) => Instruction::NoList(register, place),
        Test::HasNoNumber(register, text) => Instruction::Number(register, text as u16, place),
        Test::Differs(register, other) => Instruction::Differ(register, other as u16, place),
        Test::IsLess(register, other) => Instruction::Less(register, other as u16, place),
    }
}

/// The place that a jump at a place leads to.
fn place_from(away: usize, place: usize, target: Target) -> u16
    requires away { away ≤ MAX_INSTRS }
    requires ahead { place + distance target ≤ MAX_INSTRS }
    ensures { result ≡ place_of away place target }
{
    match target {
        Target::Ahead(places) => (place + places) as u16,
        Target::Away => away as u16,
    }
}

fn of_line(
    names: &[Name],
    literals: &[Literal],
    away: usize,
    place: usize,
    line: &Line,
) -> Instruction
    requires names { length names.now ≤ MAX_NAMES }
    requires literals { length literals.now ≤ MAX_LITERALS }
    requires away { away ≤ MAX_INSTRS }
    requires ahead { place + reach line.now ≤ MAX_INSTRS }
    ensures { result ≡ line_instruction names.now literals.now away place line.now }
{
    match line {
        Line::Acts(action) => of_action(names, literals, action),
        Line::Tests(test, target) => of_test(*test, place_from(away, place, *target)),
        Line::Jumps(target) => Instruction::Jump(place_from(away, place, *target)),
        Line::Begins(element, list, places) => {
            Instruction::Each(*element, *list as u16, (place + *places) as u16)
        }
        Line::Turns => Instruction::Next,
        Line::Halts => Instruction::Halt,
        Line::Fails => Instruction::Fail,
    }
}

/// Appends an instruction. Its fields fit their widths, as those of all instructions do.
pub(crate) fn push_instr(instrs: &mut Vec<Instr>, instr: Instr) -> Result<(), AllocError>
    requires { All IsInstr instrs.old.items }
    ensures pushed { OnOk result (instrs.new.items ≡ instrs.old.items ++ instr ∷ []) }
    ensures fields { OnOk result (All IsInstr instrs.new.items) }
{
    instrs.push(instr)?;
    Ok(())
}

/// The instructions of a rule's lines, after the existing ones.
pub(crate) fn push_rule(
    names: &[Name],
    literals: &[Literal],
    instrs: &mut Vec<Instr>,
    lines: &[Line],
) -> Result<(), AllocError>
    requires names { length names.now ≤ MAX_NAMES }
    requires literals { length literals.now ≤ MAX_LITERALS }
    requires room { length instrs.old.items + length lines.now ≤ MAX_INSTRS }
    requires within { StayWithin 0 lines.now }
    requires fields { All IsInstr instrs.old.items }
    ensures pushed { OnOk result (instrs.new.items ≡ instrs.old.items
        ++ map spelled (instructions_from names.now literals.now (length instrs.old.items + length lines.now)
        (length instrs.old.items) lines.now)) }
    ensures fields { OnOk result (All IsInstr instrs.new.items) }
{
    let away = instrs.len() + lines.len();
    for line in lines {
        let place = instrs.len();
        push_instr(
            instrs,
            spelling(of_line(names, literals, away, place, line)),
        )?;
    }
    Ok(())
}
