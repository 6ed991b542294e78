//! What is wrong with a template.

ghost use Rattle.std.specs.Prelude.{◌≡◌, ◌+◌, ◌<◌, ◌^◌};
ghost use Rattle.uri_grammar.specs.Private.Moved.{moved};

use std::alloc::{AllocError, AllocFailed};
use thiserror::Error;

/// What is wrong with a template; at one place, the first of these that applies is the error.
#[derive(Clone, Copy, Debug, PartialEq, Eq)]
pub enum TemplateErrorKind {
    /// It has more than 8,192 bytes.
    TooLong,
    /// A `{` has no `}` after it.
    Unclosed,
    /// There is nothing between two braces.
    EmptyExpression,
    /// An expression begins with one of the operators that are reserved for later (RFC 6570, section 2.2).
    ReservedOperator,
    /// A variable's name is empty or too long, or what follows it is neither a modifier nor the end of the variable.
    BadName,
    /// What follows a `:` is not a number from 1 to 9,999 without a leading zero, or something follows a `*`.
    BadModifier,
    /// A character outside expressions is not a literal.
    BadLiteral,
    /// An allocation failed.
    NoMemory,
}

/// The first error of a template, and the byte at which it is: the `{` of an expression that is unclosed or empty, the
/// reserved operator, the first byte of a variable whose name is bad, the `:` or `*` of a bad modifier, or the
/// character that is not a literal. `TooLong` is at 8,192, and `NoMemory` at 0.
#[derive(Clone, Copy, Debug, PartialEq, Eq, Error)]
#[error("{kind:?} at {at}")]
pub struct TemplateError {
    /// What is wrong.
    pub kind: TemplateErrorKind,
    /// The byte at which it is, counted from 0.
    pub at: usize,
}

impl TemplateError {
    pub(crate) fn new(kind: TemplateErrorKind, at: usize) -> TemplateError
        ensures { result ≡ record { kind = kind; at = at } }
    {
        TemplateError { kind, at }
    }

    /// The same error, when this number of bytes comes before the text.
    pub(crate) fn after(self, front: usize) -> TemplateError
        requires { self.at + front < 2 ^ 64 }
        ensures { result ≡ moved self front }
    {
        match self.kind {
            TemplateErrorKind::NoMemory => self,
            kind => TemplateError {
                kind,
                at: self.at + front,
            },
        }
    }
}

/// Out of memory, as an error of a template.
pub const NO_MEMORY: TemplateError = TemplateError {
    kind: TemplateErrorKind::NoMemory,
    at: 0,
};

impl From<AllocError> for TemplateError {
    ghost use Rattle.uri_grammar.specs.declared.error.TheConstants.{NO_MEMORY};
    ghost use Rattle.std.specs.Prelude.{◌≡◌};

    ghost from_gives = { λ _ e. e ≡ NO_MEMORY };

    fn from(_e: AllocError) -> TemplateError {
        NO_MEMORY
    }
}

impl<T: Drop> From<AllocFailed<T>> for TemplateError {
    ghost use Rattle.uri_grammar.specs.declared.error.TheConstants.{NO_MEMORY};
    ghost use Rattle.std.specs.Prelude.{◌≡◌};

    ghost from_gives = { λ _ e. e ≡ NO_MEMORY };

    fn from(_e: AllocFailed<T>) -> TemplateError {
        NO_MEMORY
    }
}
