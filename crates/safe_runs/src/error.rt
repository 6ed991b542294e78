//! Why the code of a file is not run.

use thiserror::Error;
use verified_runs::PrepareError;
use verifier::LoadError;

/// Why the code of a file is not run.
#[derive(Clone, Copy, Debug, PartialEq, Eq, Error)]
pub enum RunError {
    /// The verifier rejects the file.
    #[error("{0}")]
    Load(LoadError),
    /// The run is not started.
    #[error("{0}")]
    Prepare(PrepareError),
}

impl From<LoadError> for RunError {
    ghost use Rattle.std.specs.Prelude.{◌≡◌};
    ghost use Rattle.safe_runs.specs.declared.error.RunError.TheVariants.{Load};

    ghost from_gives = { λ error r. r ≡ Load error };

    fn from(error: LoadError) -> RunError {
        RunError::Load(error)
    }
}

impl From<PrepareError> for RunError {
    ghost use Rattle.std.specs.Prelude.{◌≡◌};
    ghost use Rattle.safe_runs.specs.declared.error.RunError.TheVariants.{Prepare};

    ghost from_gives = { λ error r. r ≡ Prepare error };

    fn from(error: PrepareError) -> RunError {
        RunError::Prepare(error)
    }
}
