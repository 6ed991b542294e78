//! Why an explanation is not complete.

use std::alloc::AllocError;
use thiserror::Error;

/// Why an explanation is not complete.
#[derive(Clone, Copy, Debug, Error)]
pub enum ExplainError {
    /// An allocation failed.
    #[error("out of memory")]
    NoMemory,
    /// The output failed.
    #[error("output failed")]
    Output,
}

impl From<AllocError> for ExplainError {
    ghost use Rattle.std.specs.Prelude.{◌≡◌};
    ghost use Rattle.rule_explanation.specs.declared.error.ExplainError.TheVariants.{NoMemory};

    ghost from_gives = { λ _ e. e ≡ NoMemory };

    fn from(_e: AllocError) -> ExplainError {
        ExplainError::NoMemory
    }
}
