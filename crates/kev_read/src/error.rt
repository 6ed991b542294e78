//! Why a query is rejected.

use std::alloc::{AllocError, AllocFailed};
use thiserror::Error;

/// Why a query is rejected, in the order in which it is checked. `NoMemory` can be returned instead of `WrongVersion`,
/// but never instead of the errors before it, which need no allocation.
#[derive(Clone, Copy, Debug, PartialEq, Eq, Error)]
pub enum KevError {
    /// The query has more than [`MAX_QUERY_BYTES`](crate::MAX_QUERY_BYTES) bytes.
    #[error("TooLong")]
    TooLong,
    /// The query has more than [`MAX_PAIRS`](crate::MAX_PAIRS) pairs.
    #[error("TooManyPairs")]
    TooManyPairs,
    /// The first `ctx_ver` or the first `url_ver` is not `Z39.88-2004`.
    #[error("WrongVersion")]
    WrongVersion,
    /// An allocation failed.
    #[error("NoMemory")]
    NoMemory,
}

impl From<AllocError> for KevError {
    ghost use Rattle.kev_read.specs.declared.error.KevError.TheVariants.{NoMemory};
    ghost use Rattle.std.specs.Prelude.{◌≡◌};

    ghost from_gives = { λ _ e. e ≡ NoMemory };

    fn from(_e: AllocError) -> KevError {
        KevError::NoMemory
    }
}

impl<T: Drop> From<AllocFailed<T>> for KevError {
    ghost use Rattle.kev_read.specs.declared.error.KevError.TheVariants.{NoMemory};
    ghost use Rattle.std.specs.Prelude.{◌≡◌};

    ghost from_gives = { λ _ e. e ≡ NoMemory };

    fn from(_e: AllocFailed<T>) -> KevError {
        KevError::NoMemory
    }
}
