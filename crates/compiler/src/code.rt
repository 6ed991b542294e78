//! The code of rules.

ghost use Rattle.std.specs.Prelude.{◌≡◌, ◌⊎◌, ◌↔◌, ◌≤◌, ◌<◌, ℕ, None, Some, All, length, map, IfOk, IfErr};
ghost use Rattle.std.specs.Prelude.{if◌then◌else◌};
ghost use Rattle.std.specs.List.{list_any};
ghost use Rattle.environment_model.specs.Environment.{Environment};
ghost use Rattle.code_model.specs.Code.{spelling as spelled_as};
ghost use Rattle.code_file.specs.Grammar.{IsCode, IsInstr, spelled, code_with};
ghost use Rattle.code_file.specs.Fault.{fault, IsFirstFault};
ghost use Rattle.code_file.specs.declared.limits.TheConstants.{MAX_BYTES, MAX_INSTRS, MAX_LITERALS, MAX_NAMES};
ghost use Rattle.machine_model.specs.Form.{HasGoodForm};
ghost use Rattle.machine_model.specs.Typable.{IsTypable};
ghost use Rattle.machine_model.specs.Runs.{Outcome, HasOutcome};
ghost use Rattle.rule_parser.specs.Rules.{IsSound};
ghost use Rattle.rule_parser.specs.Meaning.{meaning};
ghost use Rattle.compiler_model.specs.Answer.{answer};
ghost use Rattle.compiler_model.specs.Compiled.{is_counts};
ghost use Rattle.compiler_model.specs.Compiled.{has_counts as has_guard_counts, code_of};
ghost use Rattle.compiler_model.specs.Size.{file_size};
ghost use Rattle.compiler.specs.Private.Growth.{IsUtf8Literal};
ghost use Rattle.compiler.specs.Private.Reach.{StayWithin};
ghost use Rattle.compiler.specs.Private.RuleLines.{instructions_of, lines_in, with_fail};
ghost use Rattle.compiler.specs.Limits.{limit_passed};
ghost use Rattle.compiler.specs.declared.error.CompileError.TheVariants.{NoMemory, FileTooLong};

use crate::code_tables::Tables;
use crate::error::CompileError;
use crate::instructions::{push_instr, push_rule};
use crate::rule_lines::lines_of_rules;
use code_file::laws::file_has_no_fault;
use code_file::{Code, CodeErrorKind, Instr, Literal, Name, spelling};
use code_model::Instruction;
use compiler_model::Line;
use compiler_model::laws::{code_gives_what_rules_mean, compiled_code_is_accepted};
use rule_parser::{Guard, Rule, Rules};
use std::alloc::{AllocError, Global};

fn counts(guard: &Guard) -> bool
    ensures { result ≡ is_counts guard.now }
{
    matches!(guard, Guard::Counts(_, _, _))
}

fn rule_counts(rule: &Rule) -> bool
    ensures { result ≡ list_any is_counts rule.now.guards }
{
    rule.guards.as_slice().iter().any(|guard| counts(guard))
}

/// Whether a rule has a guard `counts`.
fn has_counts(rules: &Rules) -> bool
    ensures { result ≡ has_guard_counts rules.now }
{
    rules.rules().iter().any(|rule| rule_counts(rule))
}

/// The instructions of the lines of all rules, and FAIL after them.
fn instructions(
    alloc: Global,
    rules: &[Vec<Line>],
    tables: &Tables,
) -> Result<Vec<Instr>, AllocError>
    requires names { length tables.now.names.items ≤ MAX_NAMES }
    requires literals { length tables.now.literals.items ≤ MAX_LITERALS }
    requires room { length (with_fail (lines_in rules.now)) ≤ MAX_INSTRS }
    requires within { All (StayWithin 0) (lines_in rules.now) }
    ensures pushed { IfOk result (λ instrs. instrs.items
        ≡ map spelled_as (instructions_of tables.now.names.items tables.now.literals.items 0 (lines_in rules.now))) }
    ensures fields { IfOk result (λ instrs. All IsInstr instrs.items) }
{
    let mut instrs = Vec::new(alloc);
    for lines in rules {
        push_rule(&tables.names, &tables.literals, &mut instrs, lines)?;
    }
    push_instr(&mut instrs, spelling(Instruction::Fail))?;
    Ok(instrs)
}

fn of_parts(
    counts: bool,
    names: Vec<Name>,
    literals: Vec<Literal>,
    instrs: Vec<Instr>,
) -> Result<Code, CodeErrorKind>
    ensures code { IfOk result
        (λ c. (c ≡ code_with (if counts then 2 else 1) names.items literals.items instrs.items) × IsCode c) }
    ensures refused { IfErr result (λ kind. (at : ℕ)
        × IsFirstFault (spelled (code_with (if counts then 2 else 1) names.items literals.items instrs.items))
        (fault kind at)) }
{
    if counts {
        Code::from_parts2(names, literals, instrs)
    } else {
        Code::from_parts(names, literals, instrs)
    }
}

/// The code of the parts that the rules' code has. The other limits hold, so it can only be rejected for the length of
/// its file.
fn finish(rules: &Rules, tables: Tables, instrs: Vec<Instr>) -> Result<Code, CompileError>
    requires names { tables.names.items ≡ (code_of rules.now).names }
    requires literals { tables.literals.items ≡ (code_of rules.now).literals }
    requires instrs { instrs.items ≡ (code_of rules.now).instrs }
    requires utf8 { All IsUtf8Literal tables.literals.items }
    requires fields { All IsInstr instrs.items }
    requires few_names { length tables.names.items ≤ MAX_NAMES }
    requires few_literals { length tables.literals.items ≤ MAX_LITERALS }
    requires few_instrs { length instrs.items ≤ MAX_INSTRS }
    ensures ok { IfOk result (λ code. (code ≡ code_of rules.now) × (file_size (code_of rules.now) ≤ MAX_BYTES)) }
    ensures err { IfErr result (λ e. (e ≡ FileTooLong) × (MAX_BYTES < file_size (code_of rules.now))) }
    ensures sound { IsSound rules.now }
{
    compiled_code_is_accepted();
    file_has_no_fault();
    let _known = rules.rules();
    let counts = has_counts(rules);
    match of_parts(counts, tables.names, tables.literals, instrs) {
        Ok(code) => Ok(code),
        Err(_) => Err(CompileError::FileTooLong),
    }
}

/// The code of the rules, of version 2 if a rule has a guard `counts` and of version 1 otherwise. The verifier accepts
/// it. On every environment it ends with the link of the first rule whose guards all hold, or without a link if there
/// is no such rule.
///
/// Code has at most 256 names, 1,024 literals, 4,096 instructions and 65,536 bytes of file; the error is the first
/// limit that would be exceeded. `NoMemory` if an allocation failed.
pub fn compile(alloc: Global, rules: &Rules) -> Result<Code, CompileError>
    ensures ok { IfOk result (λ code. (code ≡ code_of rules.now) × (limit_passed rules.now ≡ None)) }
    ensures err { IfErr result (λ e. (e ≡ NoMemory) ⊎ (limit_passed rules.now ≡ Some e)) }
    ensures accepted { IfOk result (λ code. HasGoodForm code × IsTypable code) }
    ensures version { IfOk result (λ code. code.version ≡ (if has_guard_counts rules.now then 2 else 1)) }
    ensures means { IfOk result (λ code. (v : Environment) (o : Outcome) →
        HasOutcome code v o ↔ (answer (meaning rules.now v) ≡ o)) }
{
    compiled_code_is_accepted();
    code_gives_what_rules_mean();
    let lines = lines_of_rules(alloc, rules)?;
    let tables = Tables::of_lines(alloc, &lines)?;
    tables.check()?;
    let instrs = instructions(alloc, &lines, &tables)?;
    finish(rules, tables, instrs)
}
