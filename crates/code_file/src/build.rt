//! The parts of a code, built from tables without an error.

ghost use Rattle.std.specs.Prelude.{◌≡◌, ◌<◌, ◌+◌, ◌*◌, ◌++◌, ℕ, List, length, IfOk};
ghost use Rattle.code_model.specs.Code as code;
ghost use Rattle.code_file.specs.Grammar.{name_field, literal_field, instr_field, IsCodeName, IsLiteral, IsInstr};
ghost use Rattle.code_file.specs.Fault.{AreNames, AreLiterals, IsTableOf};
ghost use Rattle.code_file.specs.Private.Tables.{BeginsWith};

use crate::entry::{Literal, Name};
use crate::fields::{split_instr, split_number};
use code_model::Instr;
use std::alloc::{AllocError, Global};

/// The name with which the bytes begin, and what follows it.
fn read_name(alloc: Global, bytes: &[u8]) -> Result<(Name, &[u8]), AllocError>
    requires { BeginsWith IsCodeName name_field bytes.now }
    ensures { IfOk result
        (λ r. (name : code.Name) (rest : List ℕ) → IsCodeName name → bytes.now ≡ name_field name ++ rest
        → (r.0 ≡ name) × (r.1.now ≡ rest)) }
{
    let list = bytes[0] == 1;
    let len = bytes[1] as usize;
    let (text, rest) = bytes[2..].split_at(len);
    let text = str::from_utf8(text).unwrap();
    let text = String::from_str(alloc, text)?;
    Ok((Name { list, text }, rest))
}

/// The names of a table without an error.
pub(crate) fn read_names(alloc: Global, bytes: &[u8], count: u16) -> Result<Vec<Name>, AllocError>
    requires { AreNames count bytes.now }
    ensures { IfOk result (λ v. IsTableOf IsCodeName name_field count bytes.now v.items) }
{
    let mut names = Vec::new(alloc);
    let mut rest = bytes;
    for _ in 0..count {
        let (name, after) = read_name(alloc, rest)?;
        names.push(name)?;
        rest = after;
    }
    Ok(names)
}

/// The literal with which the bytes begin, and what follows it.
fn read_literal(alloc: Global, bytes: &[u8]) -> Result<(Literal, &[u8]), AllocError>
    requires { BeginsWith IsLiteral literal_field bytes.now }
    ensures { IfOk result (λ r. (literal : code.Literal) (rest : List ℕ) → IsLiteral literal
        → bytes.now ≡ literal_field literal ++ rest → (r.0 ≡ literal) × (r.1.now ≡ rest)) }
{
    let compared = bytes[0] == 1;
    let (len, rest) = split_number(&bytes[1..]);
    let (text, rest) = rest.split_at(len as usize);
    let bytes = Vec::from_slice(alloc, text)?;
    Ok((Literal { compared, bytes }, rest))
}

/// The literals of a table without an error.
pub(crate) fn read_literals(
    alloc: Global,
    bytes: &[u8],
    count: u16,
) -> Result<Vec<Literal>, AllocError>
    requires { AreLiterals count bytes.now }
    ensures { IfOk result (λ v. IsTableOf IsLiteral literal_field count bytes.now v.items) }
{
    let mut literals = Vec::new(alloc);
    let mut rest = bytes;
    for _ in 0..count {
        let (literal, after) = read_literal(alloc, rest)?;
        literals.push(literal)?;
        rest = after;
    }
    Ok(literals)
}

/// The instructions of a table that has eight bytes for each.
pub(crate) fn read_instrs(alloc: Global, bytes: &[u8], count: u16) -> Result<Vec<Instr>, AllocError>
    requires { length bytes.now ≡ 8 * count }
    ensures { IfOk result (λ v. IsTableOf IsInstr instr_field count bytes.now v.items) }
{
    let mut instrs = Vec::new(alloc);
    let mut rest = bytes;
    for _ in 0..count {
        let (instr, after) = split_instr(rest);
        instrs.push(instr)?;
        rest = after;
    }
    Ok(instrs)
}
