//! Why a target was not added.

ghost use Rattle.std.specs.Prelude.{◌≡◌, string_bytes};

use crate::target::Target;
use kbart_rows::Table;
use thiserror::Error;
use verifier::Verified;

/// Why a target was not added, in the order in which it is checked.
#[derive(Clone, Copy, Debug, PartialEq, Eq, Error)]
pub enum AddErrorKind {
    /// There are [`MAX_TARGETS`](crate::MAX_TARGETS) targets.
    #[error("Full")]
    Full,
    /// The name is not 1 to 64 ASCII letters, digits, `-`, `_` and `.`, or a target has it already.
    #[error("BadTargetName")]
    BadTargetName,
    /// An allocation failed.
    #[error("NoMemory")]
    NoMemory,
}

/// Why a target was not added, and its parts as they were given.
#[derive(Drop)]
pub struct AddError {
    /// Why the target was not added.
    pub kind: AddErrorKind,
    /// The name that was given.
    pub name: String,
    /// The code that was given.
    pub code: Verified,
    /// The table that was given.
    pub table: Table,
}

impl AddError {
    /// The error for a target, which is taken apart again into what was given.
    pub(crate) fn new(kind: AddErrorKind, target: Target) -> AddError
        ensures kind { result.kind ≡ kind }
        ensures name { string_bytes result.name ≡ target.name }
        ensures code { result.code ≡ target.code }
        ensures table { result.table ≡ target.table }
    {
        let Target { name, code, table } = target;
        AddError {
            kind,
            name,
            code,
            table,
        }
    }
}
