//! What a code file has before its tables.

ghost use Rattle.std.specs.Prelude.{◌≡◌};
ghost use Rattle.code_file.specs.Fault.{header_fault};
ghost use Rattle.code_file.specs.Grammar as grammar;
ghost use Rattle.code_file.specs.Grammar.{IsVersion};

use crate::error::{CodeError, CodeErrorKind};
use crate::limits::{MAX_INSTRS, MAX_LITERALS, MAX_NAMES};

/// The version of a file, and how many entries each of its tables has.
#[derive(Clone, Copy)]
pub(crate) struct Header {
    pub(crate) version: u8,
    pub(crate) names: u16,
    pub(crate) literals: u16,
    pub(crate) instrs: u16,
}

impl Header {
    /// The first error of the counts: one is over its limit, or there is no instruction.
    pub(crate) fn fault(self) -> Option<CodeError>
        ensures { result ≡ header_fault self }
    {
        if self.names > MAX_NAMES {
            Some(CodeErrorKind::TooMany.at(4))
        } else if self.literals > MAX_LITERALS {
            Some(CodeErrorKind::TooMany.at(6))
        } else if self.instrs > MAX_INSTRS {
            Some(CodeErrorKind::TooMany.at(8))
        } else if self.instrs == 0 {
            Some(CodeErrorKind::NoCode.at(8))
        } else {
            None
        }
    }
}

/// The first four bytes of a file of a version, and the first word of its listing.
pub(crate) fn magic(version: u8) -> &'static str
    requires { IsVersion version }
    ensures { result.now ≡ grammar.magic version }
{
    if version == 2 { "OLK2" } else { "OLK1" }
}
