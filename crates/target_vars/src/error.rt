//! Why a text or a member was not added.

use std::alloc::{AllocError, AllocFailed};
use thiserror::Error;

/// Why a text or a member was not added, in the order in which it is checked.
#[derive(Clone, Copy, Debug, PartialEq, Eq, Error)]
pub enum VarsError {
    /// All texts and members would have more than [`MAX_BYTES`](crate::MAX_BYTES) bytes together, or
    /// all lists more than [`MAX_MEMBERS`](crate::MAX_MEMBERS) members.
    #[error("TooLarge")]
    TooLarge,
    /// An allocation failed.
    #[error("NoMemory")]
    NoMemory,
}

impl From<AllocError> for VarsError {
    ghost use Rattle.target_vars.specs.declared.error.VarsError.TheVariants.{NoMemory};
    ghost use Rattle.std.specs.Prelude.{◌≡◌};

    ghost from_gives = { λ _ e. e ≡ NoMemory };

    fn from(_error: AllocError) -> VarsError {
        VarsError::NoMemory
    }
}

impl<T: Drop> From<AllocFailed<T>> for VarsError {
    ghost use Rattle.target_vars.specs.declared.error.VarsError.TheVariants.{NoMemory};
    ghost use Rattle.std.specs.Prelude.{◌≡◌};

    ghost from_gives = { λ _ e. e ≡ NoMemory };

    fn from(_failed: AllocFailed<T>) -> VarsError {
        VarsError::NoMemory
    }
}
