//! The bytes of a code's parts, appended to a file.

ghost use Rattle.std.specs.Prelude.{◌≡◌, ◌++◌, OnOk, All};
ghost use Rattle.std.specs.List.{flat_map};
ghost use Rattle.code_file.specs.Grammar.{number, name_field, literal_field, instr_field, IsCodeName, IsLiteral};
ghost use Rattle.code_file.specs.Grammar.{IsInstr};

use crate::entry::{Literal, Name};
use code_model::Instr;
use std::alloc::AllocError;

pub(crate) fn push_number(out: &mut Vec<u8>, n: u16) -> Result<(), AllocError>
    ensures { OnOk result (out.new.items ≡ out.old.items ++ number n) }
{
    out.extend_from_slice(&n.to_be_bytes())
}

fn push_name(out: &mut Vec<u8>, name: &Name) -> Result<(), AllocError>
    requires { IsCodeName name.now }
    ensures { OnOk result (out.new.items ≡ out.old.items ++ name_field name.now) }
{
    out.push(u8::from(name.list))?;
    out.push(name.text.len() as u8)?;
    out.extend_from_slice(name.text.as_bytes())
}

pub(crate) fn push_names(out: &mut Vec<u8>, names: &[Name]) -> Result<(), AllocError>
    requires { All IsCodeName names.now }
    ensures { OnOk result (out.new.items ≡ out.old.items ++ flat_map name_field names.now) }
{
    for name in names {
        push_name(out, name)?;
    }
    Ok(())
}

fn push_literal(out: &mut Vec<u8>, literal: &Literal) -> Result<(), AllocError>
    requires { IsLiteral literal.now }
    ensures { OnOk result (out.new.items ≡ out.old.items ++ literal_field literal.now) }
{
    out.push(u8::from(literal.compared))?;
    push_number(out, literal.bytes.len() as u16)?;
    out.extend_from_slice(&literal.bytes)
}

pub(crate) fn push_literals(out: &mut Vec<u8>, literals: &[Literal]) -> Result<(), AllocError>
    requires { All IsLiteral literals.now }
    ensures { OnOk result (out.new.items ≡ out.old.items ++ flat_map literal_field literals.now) }
{
    for literal in literals {
        push_literal(out, literal)?;
    }
    Ok(())
}

fn push_instr(out: &mut Vec<u8>, instr: Instr) -> Result<(), AllocError>
    ensures spells { OnOk result (out.new.items ≡ out.old.items ++ instr_field instr) }
    ensures fields { IsInstr instr }
{
    let [b, b_low] = instr.b.to_be_bytes();
    let [c, c_low] = instr.c.to_be_bytes();
    let [d, d_low] = instr.d.to_be_bytes();
    out.extend_from_slice(&[instr.op, instr.a, b, b_low, c, c_low, d, d_low])
}

pub(crate) fn push_instrs(out: &mut Vec<u8>, instrs: &[Instr]) -> Result<(), AllocError>
    ensures spells { OnOk result (out.new.items ≡ out.old.items ++ flat_map instr_field instrs.now) }
    ensures fields { OnOk result (All IsInstr instrs.now) }
{
    for instr in instrs {
        push_instr(out, *instr)?;
    }
    Ok(())
}
