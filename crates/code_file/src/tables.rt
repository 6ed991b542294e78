//! The tables of a code file, found in its bytes. Nothing here allocates.

ghost use Rattle.std.specs.Prelude.{◌≡◌, ◌≤◌, ◌<◌, ◌+◌, ◌*◌, ◌++◌, length, IfNone, IfSome, IfOk, IfErr};
ghost use Rattle.code_file.specs.Grammar.{magic, header_field, IsVersion, IsHeader};
ghost use Rattle.code_file.specs.Fault.{AreNames, AreLiterals, IsFaultOfNames, IsFaultOfLiterals, PastMagic};
ghost use Rattle.code_file.specs.Fault.{IsFieldFault, IsFirstFault};
ghost use Rattle.code_file.specs.Private.Tables.{AreTables};

use crate::error::{CodeError, CodeErrorKind};
use crate::fields::{after_literal, after_name, cut_short, split_number};
use crate::header::Header;
use crate::limits::MAX_BYTES;

/// The header of a file, and the bytes of its tables.
#[derive(Clone, Copy)]
pub(crate) struct Tables<'a> {
    pub(crate) header: Header,
    pub(crate) names: &'a [u8],
    pub(crate) literals: &'a [u8],
    pub(crate) instrs: &'a [u8],
}

impl<'a> Tables<'a> {
    /// The tables of a file, or its first error.
    pub(crate) fn find(bytes: &'a [u8]) -> Result<Tables<'a>, CodeError>
        ensures good { IfOk result (λ t. AreTables bytes.now t.header t.names.now t.literals.now t.instrs.now) }
        ensures short { IfOk result (λ t. length bytes.now ≤ MAX_BYTES) }
        ensures fault { IfErr result (IsFirstFault bytes.now) }
    {
        if bytes.len() > MAX_BYTES {
            return Err(CodeErrorKind::TooLong.at(MAX_BYTES));
        }
        Tables::split(bytes)
    }

    fn split(bytes: &'a [u8]) -> Result<Tables<'a>, CodeError>
        requires { length bytes.now ≤ MAX_BYTES }
        ensures good { IfOk result (λ t. AreTables bytes.now t.header t.names.now t.literals.now t.instrs.now) }
        ensures fault { IfErr result (IsFieldFault bytes.now) }
    {
        let (header, rest) = split_header(bytes)?;
        let (names, rest) = match split_names(rest, header.names) {
            Ok(parts) => parts,
            Err(e) => return Err(e.after(10)),
        };
        let (literals, rest) = match split_literals(rest, header.literals) {
            Ok(parts) => parts,
            Err(e) => return Err(e.after(10 + names.len())),
        };
        let len = 8 * header.instrs as usize;
        if rest.len() < len {
            return Err(cut_short(bytes));
        }
        let (instrs, rest) = rest.split_at(len);
        if !rest.is_empty() {
            return Err(CodeErrorKind::Trailing.at(bytes.len() - rest.len()));
        }
        Ok(Tables {
            header,
            names,
            literals,
            instrs,
        })
    }
}

/// The version in the first four bytes, and what follows them.
fn split_magic(bytes: &[u8]) -> Option<(u8, &[u8])>
    ensures none { IfNone result (PastMagic bytes.now → ⊥) }
    ensures some { IfSome result (λ r. IsVersion r.0 × (bytes.now ≡ magic r.0 ++ r.1.now)) }
{
    if let Some(rest) = bytes.strip_prefix(b"OLK1") {
        return Some((1, rest));
    }
    let rest = bytes.strip_prefix(b"OLK2")?;
    Some((2, rest))
}

/// The header, whose counts are allowed, and what follows it.
fn split_header(bytes: &[u8]) -> Result<(Header, &[u8]), CodeError>
    ensures good { IfOk result (λ r. IsHeader r.0 × (bytes.now ≡ header_field r.0 ++ r.1.now)) }
    ensures length { IfOk result (λ r. length bytes.now ≡ 10 + length r.1.now) }
    ensures fault { IfErr result (IsFieldFault bytes.now) }
{
    let Some((version, rest)) = split_magic(bytes) else {
        return Err(CodeErrorKind::BadMagic.at(0));
    };
    // Three counts of two bytes each.
    if rest.len() < 6 {
        return Err(cut_short(bytes));
    }
    let (names, rest) = split_number(rest);
    let (literals, rest) = split_number(rest);
    let (instrs, rest) = split_number(rest);
    let header = Header {
        version,
        names,
        literals,
        instrs,
    };
    match header.fault() {
        Some(e) => Err(e),
        None => Ok((header, rest)),
    }
}

/// The table of names with which the bytes begin and what follows it, or its first error.
fn split_names(bytes: &[u8], count: u16) -> Result<(&[u8], &[u8]), CodeError>
    ensures good { IfOk result (λ r. AreNames count r.0.now × (bytes.now ≡ r.0.now ++ r.1.now)) }
    ensures fault { IfErr result (IsFaultOfNames count bytes.now) }
    ensures within { IfErr result (λ e. e.at ≤ length bytes.now) }
{
    let mut at = 0;
    for _ in 0..count {
        match after_name(&bytes[at..]) {
            Ok(rest) => at = bytes.len() - rest.len(),
            Err(e) => return Err(e.after(at)),
        }
    }
    Ok(bytes.split_at(at))
}

/// The table of literals with which the bytes begin and what follows it, or its first error.
fn split_literals(bytes: &[u8], count: u16) -> Result<(&[u8], &[u8]), CodeError>
    ensures good { IfOk result (λ r. AreLiterals count r.0.now × (bytes.now ≡ r.0.now ++ r.1.now)) }
    ensures fault { IfErr result (IsFaultOfLiterals count bytes.now) }
    ensures within { IfErr result (λ e. e.at ≤ length bytes.now) }
{
    let mut at = 0;
    for _ in 0..count {
        match after_literal(&bytes[at..]) {
            Ok(rest) => at = bytes.len() - rest.len(),
            Err(e) => return Err(e.after(at)),
        }
    }
    Ok(bytes.split_at(at))
}
