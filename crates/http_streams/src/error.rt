//! Why a head could not be read.

ghost use Rattle.std.specs.Prelude.{◌≡◌};

use crate::stream::Failed;
use std::alloc::AllocError;
use thiserror::Error;

/// Why a head could not be read.
#[derive(Clone, Copy, Debug, PartialEq, Eq, Error)]
pub enum HeadError {
    /// An allocation failed before anything was read.
    #[error("NoMemory")]
    NoMemory,
    /// A read failed.
    #[error("ReadFault")]
    Failed,
}

impl From<AllocError> for HeadError {
    ghost use Rattle.http_streams.specs.declared.error.HeadError.TheVariants.{NoMemory};

    ghost from_gives = { λ _ e. e ≡ NoMemory };

    fn from(_error: AllocError) -> HeadError {
        HeadError::NoMemory
    }
}

impl From<Failed> for HeadError {
    ghost use Rattle.http_streams.specs.declared.error.HeadError.TheVariants as head_error;

    ghost from_gives = { λ _ e. e ≡ head_error.Failed };

    fn from(_error: Failed) -> HeadError {
        HeadError::Failed
    }
}
