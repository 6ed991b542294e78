//! The listing of a code.

ghost use Rattle.std.specs.Prelude.{◌≡◌, ◌++◌, OnOk, codes, string_bytes};
ghost use Rattle.std.specs.Fmt.{decimal};
ghost use Rattle.code_model.specs.declared.code.Instruction.TheVariants as variant;
ghost use Rattle.code_file.specs.Grammar.{IsVersion};
ghost use Rattle.code_file.specs.Listing.{mode_word, instruction_text, name_line, literal_line};
ghost use Rattle.code_file.specs.Listing.{instr_line, instr_text, fields_text, lines_from, first_line};

use crate::decode::{instruction, is_in_range, spelling};
use crate::entry::{Literal, Name};
use crate::header::magic;
use code_model::{Instr, Instruction};
use printed_text::push_quoted;
use std::alloc::AllocError;

fn mode(c: u16) -> &'static str
    ensures { result.now ≡ mode_word c }
{
    if c == 0 { "u" } else { "ur" }
}

fn push_known(out: &mut String, known: Instruction) -> Result<(), AllocError>
    ensures { OnOk result (string_bytes out.new ≡ string_bytes out.old ++ instruction_text known) }
{
    match known {
        Instruction::Halt => out.push_str("HALT"),
        Instruction::Fail => out.push_str("FAIL"),
        Instruction::Jump(d) => push_one(out, "JUMP ", d),
        Instruction::Text(a, b) => push_two(out, "TEXT r", a, " n", b),
        Instruction::List(a, b) => push_two(out, "LIST r", a, " n", b),
        Instruction::Const(a, b) => push_two(out, "CONST r", a, " l", b),
        Instruction::Number(a, b, d) => push_three(out, "NUMBER r", a, b, d),
        Instruction::Undef(a, d) => push_two(out, "UNDEF r", a, " ", d),
        Instruction::Empty(a, d) => push_two(out, "EMPTY r", a, " ", d),
        Instruction::NoList(a, d) => push_two(out, "NOLIST r", a, " ", d),
        Instruction::Differ(a, b, d) => push_three(out, "DIFFER r", a, b, d),
        Instruction::Less(a, b, d) => push_three(out, "LESS r", a, b, d),
        Instruction::Emit(b) => push_one(out, "EMIT l", b),
        Instruction::Put(a, c) => push_put(out, a, c),
        Instruction::Cut(a, b, c) => push_cut(out, a, b, c),
        Instruction::Each(a, b, d) => push_three(out, "EACH r", a, b, d),
        Instruction::Sep(b) => push_one(out, "SEP l", b),
        Instruction::Next => out.push_str("NEXT"),
        Instruction::Count(a, b) => push_two(out, "COUNT r", a, " r", b),
    }
}

/// A number after a text.
fn push_one(out: &mut String, before: &str, number: u16) -> Result<(), AllocError>
    ensures { OnOk result (string_bytes out.new ≡ string_bytes out.old ++ (before.now ++ decimal number)) }
{
    write!(out, "{before}{number}")
}

/// Two numbers, each after a text.
fn push_two(
    out: &mut String,
    before: &str,
    first: u8,
    between: &str,
    second: u16,
) -> Result<(), AllocError>
    ensures { OnOk result
        (string_bytes out.new ≡ string_bytes out.old
        ++ (before.now ++ (decimal first ++ (between.now ++ decimal second)))) }
{
    write!(out, "{before}{first}{between}{second}")
}

/// A register after a text, another one, and a place.
fn push_three(out: &mut String, before: &str, a: u8, b: u16, d: u16) -> Result<(), AllocError>
    ensures { OnOk result (string_bytes out.new ≡ string_bytes out.old
        ++ (before.now ++ (decimal a ++ (codes " r" ++ (decimal b ++ (codes " " ++ decimal d)))))) }
{
    write!(out, "{before}{a} r{b} {d}")
}

fn push_put(out: &mut String, a: u8, c: u16) -> Result<(), AllocError>
    ensures { OnOk result (string_bytes out.new ≡ string_bytes out.old ++ instruction_text (variant.Put a c)) }
{
    let mode = mode(c);
    write!(out, "PUT r{a} {mode}")
}

fn push_cut(out: &mut String, a: u8, b: u16, c: u16) -> Result<(), AllocError>
    ensures { OnOk result (string_bytes out.new ≡ string_bytes out.old ++ instruction_text (variant.Cut a b c)) }
{
    let mode = mode(c);
    write!(out, "CUT r{a} {b} {mode}")
}

fn push_fields(out: &mut String, instr: Instr) -> Result<(), AllocError>
    ensures { OnOk result (string_bytes out.new ≡ string_bytes out.old ++ fields_text instr) }
{
    let Instr { op, a, b, c, d } = instr;
    write!(out, "? {op} {a} {b} {c} {d}")
}

fn push_instr(out: &mut String, version: u8, instr: Instr) -> Result<(), AllocError>
    ensures { OnOk result (string_bytes out.new ≡ string_bytes out.old ++ instr_text version instr) }
{
    match instruction(version, instr) {
        Some(known) if spelling(known) == instr && is_in_range(known) => push_known(out, known),
        _ => push_fields(out, instr),
    }
}

fn push_name_line(out: &mut String, place: usize, name: &Name) -> Result<(), AllocError>
    ensures { OnOk result (string_bytes out.new ≡ string_bytes out.old ++ name_line place name.now) }
{
    let kind = if name.list { "list" } else { "text" };
    let text = name.text.as_str();
    write!(out, "name {place} {kind} {text}\n")
}

pub(crate) fn push_name_lines(out: &mut String, names: &[Name]) -> Result<(), AllocError>
    ensures { OnOk result (string_bytes out.new ≡ string_bytes out.old ++ lines_from name_line 0 names.now) }
{
    for (place, name) in names.iter().enumerate() {
        push_name_line(out, place, name)?;
    }
    Ok(())
}

fn push_literal_line(out: &mut String, place: usize, literal: &Literal) -> Result<(), AllocError>
    ensures { OnOk result (string_bytes out.new ≡ string_bytes out.old ++ literal_line place literal.now) }
{
    let kind = if literal.compared { "compare" } else { "link" };
    write!(out, "literal {place} {kind} ")?;
    push_quoted(out, &literal.bytes)?;
    out.push('\n')
}

pub(crate) fn push_literal_lines(out: &mut String, literals: &[Literal]) -> Result<(), AllocError>
    ensures { OnOk result (string_bytes out.new ≡ string_bytes out.old ++ lines_from literal_line 0 literals.now) }
{
    for (place, literal) in literals.iter().enumerate() {
        push_literal_line(out, place, literal)?;
    }
    Ok(())
}

fn push_instr_line(
    out: &mut String,
    version: u8,
    place: usize,
    instr: Instr,
) -> Result<(), AllocError>
    ensures { OnOk result (string_bytes out.new ≡ string_bytes out.old ++ instr_line version place instr) }
{
    write!(out, "{place} ")?;
    push_instr(out, version, instr)?;
    out.push('\n')
}

pub(crate) fn push_instr_lines(
    out: &mut String,
    version: u8,
    instrs: &[Instr],
) -> Result<(), AllocError>
    ensures { OnOk result
        (string_bytes out.new ≡ string_bytes out.old ++ lines_from (instr_line version) 0 instrs.now) }
{
    for (place, instr) in instrs.iter().enumerate() {
        push_instr_line(out, version, place, *instr)?;
    }
    Ok(())
}

pub(crate) fn push_first_line(
    out: &mut String,
    version: u8,
    names: usize,
    literals: usize,
    instrs: usize,
) -> Result<(), AllocError>
    requires { IsVersion version }
    ensures { OnOk result (string_bytes out.new ≡ string_bytes out.old ++ first_line version names literals instrs) }
{
    let magic = magic(version);
    write!(
        out,
        "{magic} names {names} literals {literals} instructions {instrs}\n"
    )
}
