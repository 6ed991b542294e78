//! The first error of a code's parts that are given as values.

ghost use Rattle.std.specs.Prelude.{◌≡◌, ◌<◌, ℕ, length, min, IfNone, IfSome, All, IsTrue, ◌↔◌};
ghost use Rattle.std.specs.List.{flat_map};
ghost use Rattle.code_file.specs.Grammar.{IsCode, spelled, code_with, name_field, literal_field, IsVersion};
ghost use Rattle.code_file.specs.Grammar.{IsCodeName, IsLiteral};
ghost use Rattle.code_file.specs.Fault.{fault, IsFirstFault};
ghost use Rattle.code_file.specs.Private.Tables.{IsFirstBad};

use crate::entry::{Literal, Name};
use crate::error::CodeErrorKind;
use crate::fields::{first_wrong, is_name_length, is_text_of};
use crate::header::Header;
use crate::limits::MAX_BYTES;
use code_model::Instr;

/// How many bytes the names have in a file, at most `usize::MAX`.
fn names_len(names: &[Name]) -> usize
    ensures { result ≡ min (length (flat_map name_field names.now)) usize.MAX }
{
    let mut total: usize = 0;
    for name in names {
        total = total.saturating_add(2).saturating_add(name.text.len());
    }
    total
}

/// How many bytes the literals have in a file, at most `usize::MAX`.
fn literals_len(literals: &[Literal]) -> usize
    ensures { result ≡ min (length (flat_map literal_field literals.now)) usize.MAX }
{
    let mut total: usize = 0;
    for literal in literals {
        total = total.saturating_add(3).saturating_add(literal.bytes.len());
    }
    total
}

/// How many bytes the file of the parts has in either version, at most `usize::MAX`.
fn file_len(names: &[Name], literals: &[Literal], instrs: &[Instr]) -> usize
    ensures { (version : ℕ) → result ≡ min (length (spelled (code_with version names.now literals.now instrs.now)))
        usize.MAX }
{
    let instrs_len = instrs.len().saturating_mul(8);
    names_len(names)
        .saturating_add(literals_len(literals))
        .saturating_add(instrs_len)
        .saturating_add(10)
}

fn is_name(name: &Name) -> bool
    ensures { IsTrue result ↔ IsCodeName name.now }
{
    is_name_length(name.text.len()) && first_wrong(name.text.as_bytes()).is_none()
}

fn is_literal(literal: &Literal) -> bool
    ensures { IsTrue result ↔ IsLiteral literal.now }
{
    literal.bytes.len() < 65_536 && is_text_of(literal.compared, &literal.bytes)
}

/// The place of the first name that no file may have.
fn first_bad_name(names: &[Name]) -> Option<usize>
    ensures none { IfNone result (All IsCodeName names.now) }
    ensures some { IfSome result (IsFirstBad IsCodeName names.now) }
{
    names.iter().position(|name| !is_name(name))
}

/// The place of the first literal that no file may have.
fn first_bad_literal(literals: &[Literal]) -> Option<usize>
    ensures none { IfNone result (All IsLiteral literals.now) }
    ensures some { IfSome result (IsFirstBad IsLiteral literals.now) }
{
    literals.iter().position(|literal| !is_literal(literal))
}

/// The kind of the first error in the file that the parts would make.
pub(crate) fn parts_fault(
    version: u8,
    names: &[Name],
    literals: &[Literal],
    instrs: &[Instr],
) -> Option<CodeErrorKind>
    requires { IsVersion version }
    ensures none { IfNone result (IsCode (code_with version names.now literals.now instrs.now)) }
    ensures some { IfSome result (λ kind. (at : ℕ)
        × IsFirstFault (spelled (code_with version names.now literals.now instrs.now)) (fault kind at)) }
{
    if file_len(names, literals, instrs) > MAX_BYTES {
        return Some(CodeErrorKind::TooLong);
    }
    let header = Header {
        version,
        names: names.len() as u16,
        literals: literals.len() as u16,
        instrs: instrs.len() as u16,
    };
    if let Some(e) = header.fault() {
        return Some(e.kind);
    }
    if first_bad_name(names).is_some() {
        return Some(CodeErrorKind::BadName);
    }
    if first_bad_literal(literals).is_some() {
        return Some(CodeErrorKind::BadLiteral);
    }
    None
}
