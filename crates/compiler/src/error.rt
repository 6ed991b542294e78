//! Why rules have no code.

use std::alloc::{AllocError, AllocFailed};
use std::fmt;
use thiserror::Error;

/// Why rules have no code, in the order in which it is checked.
#[derive(Clone, Copy, Debug, PartialEq, Eq, Error)]
pub enum CompileError {
    /// More than 256 names.
    TooManyNames,
    /// More than 1,024 literals.
    TooManyLiterals,
    /// More than 4,096 instructions.
    TooManyInstructions,
    /// A code file of more than 65,536 bytes.
    FileTooLong,
    /// An allocation failed.
    NoMemory,
}

impl fmt::Display for CompileError {
    fn fmt<W: fmt::Write>(&self, f: &mut fmt::Formatter<W>) -> fmt::Result {
        write!(f, "{self:?}")
    }
}

impl From<AllocError> for CompileError {
    ghost use Rattle.compiler.specs.declared.error.CompileError.TheVariants.{NoMemory};
    ghost use Rattle.std.specs.Prelude.{◌≡◌};

    ghost from_gives = { λ _ e. e ≡ NoMemory };

    fn from(_error: AllocError) -> CompileError {
        CompileError::NoMemory
    }
}

impl<T: Drop> From<AllocFailed<T>> for CompileError {
    ghost use Rattle.compiler.specs.declared.error.CompileError.TheVariants.{NoMemory};
    ghost use Rattle.std.specs.Prelude.{◌≡◌};

    ghost from_gives = { λ _ e. e ≡ NoMemory };

    fn from(_failed: AllocFailed<T>) -> CompileError {
        CompileError::NoMemory
    }
}
