//! Why a code file is rejected.

ghost use Rattle.std.specs.Prelude.{◌≡◌, ◌+◌, ◌<◌, ◌^◌};
ghost use Rattle.code_file.specs.Fault.{fault, after};

use std::alloc::{AllocError, AllocFailed};
use std::fmt;
use thiserror::Error;

/// What is wrong with a code file, in the order in which it is checked.
#[derive(Clone, Copy, Debug, PartialEq, Eq, Error)]
pub enum CodeErrorKind {
    /// The file has more than 65,536 bytes.
    TooLong,
    /// The file begins with neither `OLK1` nor `OLK2`.
    BadMagic,
    /// The file ends before a field does.
    Truncated,
    /// There are more than 256 names, 1,024 literals or 4,096 instructions.
    TooMany,
    /// There is no instruction.
    NoCode,
    /// A name is empty, over 255 bytes long, or has a byte outside 21 to 7e hexadecimal.
    BadName,
    /// The kind of a name or a literal is neither 0 nor 1.
    BadKind,
    /// A link text is not URI text (RFC 3986, sections 2.1 to 2.3), or a comparison text is not UTF-8 (RFC 3629).
    BadLiteral,
    /// Bytes follow the last instruction.
    Trailing,
    /// Memory ran out.
    NoMemory,
}

impl fmt::Display for CodeErrorKind {
    fn fmt<W: fmt::Write>(&self, f: &mut fmt::Formatter<W>) -> fmt::Result {
        write!(f, "{self:?}")
    }
}

/// What is wrong with a code file, and the byte at which it is; 0 if memory ran out.
#[derive(Clone, Copy, Debug, PartialEq, Eq, Error)]
#[error("{kind} at {at}")]
pub struct CodeError {
    /// What is wrong.
    pub kind: CodeErrorKind,
    /// The byte at which it is, counted from 0.
    pub at: usize,
}

impl CodeErrorKind {
    pub(crate) fn at(self, at: usize) -> CodeError
        ensures { result ≡ fault self at }
    {
        CodeError { kind: self, at }
    }
}

impl CodeError {
    /// The same error, when this number of bytes comes before the ones that were examined.
    pub(crate) fn after(self, front: usize) -> CodeError
        requires { front + self.at < 2 ^ 64 }
        ensures { result ≡ after front self }
    {
        self.kind.at(front + self.at)
    }
}

impl From<AllocError> for CodeError {
    ghost use Rattle.std.specs.Prelude.{◌≡◌};
    ghost use Rattle.code_file.specs.Fault.{fault};
    ghost use Rattle.code_file.specs.declared.error.CodeErrorKind.TheVariants.{NoMemory};

    ghost from_gives = { λ _ e. e ≡ fault NoMemory 0 };

    fn from(_e: AllocError) -> CodeError {
        CodeErrorKind::NoMemory.at(0)
    }
}

impl<T: Drop> From<AllocFailed<T>> for CodeError {
    ghost use Rattle.std.specs.Prelude.{◌≡◌};
    ghost use Rattle.code_file.specs.Fault.{fault};
    ghost use Rattle.code_file.specs.declared.error.CodeErrorKind.TheVariants.{NoMemory};

    ghost from_gives = { λ _ e. e ≡ fault NoMemory 0 };

    fn from(_e: AllocFailed<T>) -> CodeError {
        CodeErrorKind::NoMemory.at(0)
    }
}
