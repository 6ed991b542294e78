//! The fields of a code file, from the beginning of its bytes. Nothing here allocates.

ghost use Rattle.std.specs.Prelude.{◌≡◌, ◌≤◌, ◌<◌, ◌+◌, ◌^◌, ◌++◌, ◌∷◌, ◌↔◌, length, IsTrue, IfOk, IfErr};
ghost use Rattle.std.specs.Prelude.{IfNone, IfSome, All};
ghost use Rattle.code_model.specs.Code.{Name, Literal};
ghost use Rattle.code_file.specs.Grammar.{kind_byte, number, name_field, literal_field, instr_field, IsNameByte};
ghost use Rattle.code_file.specs.Grammar.{IsCodeName, IsTextOf, IsLiteral, IsInstr};
ghost use Rattle.code_file.specs.Fault as fault;
ghost use Rattle.code_file.specs.Fault.{IsFirstWrong, IsKindFault, IsNameLength, IsNameFault, IsLiteralFault};

use crate::error::{CodeError, CodeErrorKind};
use crate::limits::MAX_NAME_BYTES;
use crate::uri_text::is_uri_text;
use byteorder::{BigEndian, ByteOrder};
use code_model::Instr;

/// The number in the first two bytes, and what follows it.
pub(crate) fn split_number(bytes: &[u8]) -> (u16, &[u8])
    requires { 2 ≤ length bytes.now }
    ensures spells { bytes.now ≡ number result.0 ++ result.1.now }
    ensures length { length bytes.now ≡ 2 + length result.1.now }
    ensures small { result.0 < 2 ^ 16 }
{
    (BigEndian::read_u16(bytes), &bytes[2..])
}

/// The instruction in the first eight bytes, and what follows it.
pub(crate) fn split_instr(bytes: &[u8]) -> (Instr, &[u8])
    requires { 8 ≤ length bytes.now }
    ensures spells { bytes.now ≡ instr_field result.0 ++ result.1.now }
    ensures length { length bytes.now ≡ 8 + length result.1.now }
    ensures fits { IsInstr result.0 }
{
    let op = bytes[0];
    let a = bytes[1];
    let (b, rest) = split_number(&bytes[2..]);
    let (c, rest) = split_number(rest);
    let (d, rest) = split_number(rest);
    (Instr { op, a, b, c, d }, rest)
}

fn is_name_byte(b: u8) -> bool
    ensures { IsTrue result ↔ IsNameByte b }
{
    (0x21..=0x7e).contains(&b)
}

/// The place of the first byte that no name may have.
pub(crate) fn first_wrong(text: &[u8]) -> Option<usize>
    ensures none { IfNone result (All IsNameByte text.now) }
    ensures some { IfSome result (IsFirstWrong text.now) }
{
    text.iter().position(|b| !is_name_byte(*b))
}

/// The error of bytes that end before a field does.
pub(crate) fn cut_short(bytes: &[u8]) -> CodeError
    ensures { result ≡ fault.cut_short bytes.now }
{
    CodeErrorKind::Truncated.at(bytes.len())
}

/// The kind in the first byte, and what follows it.
fn split_kind(bytes: &[u8]) -> Result<(bool, &[u8]), CodeError>
    ensures spells { IfOk result (λ r. bytes.now ≡ kind_byte r.0 ∷ r.1.now) }
    ensures fault { IfErr result (IsKindFault bytes.now) }
    ensures within { IfErr result (λ e. e.at ≤ length bytes.now) }
{
    let Some((kind, rest)) = bytes.split_first() else {
        return Err(cut_short(bytes));
    };
    if *kind > 1 {
        return Err(CodeErrorKind::BadKind.at(0));
    }
    Ok((*kind == 1, rest))
}

/// Whether a name may have this number of bytes.
pub(crate) fn is_name_length(len: usize) -> bool
    ensures { IsTrue result ↔ IsNameLength len }
{
    1 <= len && len <= MAX_NAME_BYTES
}

/// What follows the name with which the bytes begin, or its error.
pub(crate) fn after_name(bytes: &[u8]) -> Result<&[u8], CodeError>
    ensures good { IfOk result (λ rest. (name : Name) × IsCodeName name × (bytes.now ≡ name_field name ++ rest.now)) }
    ensures fault { IfErr result (IsNameFault bytes.now) }
    ensures within { IfErr result (λ e. e.at ≤ length bytes.now) }
{
    let (_list, rest) = split_kind(bytes)?;
    let Some((len, rest)) = rest.split_first() else {
        return Err(cut_short(bytes));
    };
    let len = *len as usize;
    if !is_name_length(len) {
        return Err(CodeErrorKind::BadName.at(1));
    }
    if rest.len() < len {
        return Err(cut_short(bytes));
    }
    let (text, rest) = rest.split_at(len);
    match first_wrong(text) {
        Some(place) => Err(CodeErrorKind::BadName.at(2 + place)),
        None => Ok(rest),
    }
}

/// Whether the bytes are a text of a literal: UTF-8 to compare with, or URI text for a link.
pub(crate) fn is_text_of(compared: bool, bytes: &[u8]) -> bool
    ensures { IsTrue result ↔ IsTextOf compared bytes.now }
{
    if compared {
        str::from_utf8(bytes).is_ok()
    } else {
        is_uri_text(bytes)
    }
}

/// What follows the literal with which the bytes begin, or its error.
pub(crate) fn after_literal(bytes: &[u8]) -> Result<&[u8], CodeError>
    ensures good { IfOk result (λ rest. (literal : Literal) × IsLiteral literal
        × (bytes.now ≡ literal_field literal ++ rest.now)) }
    ensures fault { IfErr result (IsLiteralFault bytes.now) }
    ensures within { IfErr result (λ e. e.at ≤ length bytes.now) }
{
    let (compared, rest) = split_kind(bytes)?;
    if rest.len() < 2 {
        return Err(cut_short(bytes));
    }
    let (len, rest) = split_number(rest);
    let len = len as usize;
    if rest.len() < len {
        return Err(cut_short(bytes));
    }
    let (text, rest) = rest.split_at(len);
    if is_text_of(compared, text) {
        Ok(rest)
    } else {
        Err(CodeErrorKind::BadLiteral.at(3))
    }
}
