//! Why rules are not run by their code.

use compiler::CompileError;
use rule_parser::RuleError;
use safe_runs::RunError;
use std::alloc::AllocError;
use thiserror::Error;

/// Why rules are not run by their code.
#[derive(Clone, Copy, Debug, PartialEq, Eq, Error)]
pub enum RulesError {
    /// Their code is over a limit of the compiler, or memory ran out while it was made.
    #[error("{0}")]
    Compile(CompileError),
    /// Memory ran out while the file was written.
    #[error("NoMemory")]
    NoMemory,
    /// The file is not run: too much might be printed, or memory ran out.
    #[error("{0}")]
    Run(RunError),
}

impl From<CompileError> for RulesError {
    ghost use Rattle.std.specs.Prelude.{◌≡◌};
    ghost use Rattle.end_to_end.specs.declared.error.RulesError.TheVariants.{Compile};

    ghost from_gives = { λ error r. r ≡ Compile error };

    fn from(error: CompileError) -> RulesError {
        RulesError::Compile(error)
    }
}

impl From<AllocError> for RulesError {
    ghost use Rattle.std.specs.Prelude.{◌≡◌};
    ghost use Rattle.end_to_end.specs.declared.error.RulesError.TheVariants.{NoMemory};

    ghost from_gives = { λ _ r. r ≡ NoMemory };

    fn from(_error: AllocError) -> RulesError {
        RulesError::NoMemory
    }
}

impl From<RunError> for RulesError {
    ghost use Rattle.std.specs.Prelude.{◌≡◌};
    ghost use Rattle.end_to_end.specs.declared.error.RulesError.TheVariants.{Run};

    ghost from_gives = { λ error r. r ≡ Run error };

    fn from(error: RunError) -> RulesError {
        RulesError::Run(error)
    }
}

/// Why the rules of a rule file are not run by their code.
#[derive(Clone, Copy, Debug, PartialEq, Eq, Error)]
pub enum RuleFileError {
    /// The bytes are not a rule file, or memory ran out while they were parsed.
    #[error("{0}")]
    Parse(RuleError),
    /// The rules are not run.
    #[error("{0}")]
    Run(RulesError),
}

impl From<RuleError> for RuleFileError {
    ghost use Rattle.std.specs.Prelude.{◌≡◌};
    ghost use Rattle.end_to_end.specs.declared.error.RuleFileError.TheVariants.{Parse};

    ghost from_gives = { λ error r. r ≡ Parse error };

    fn from(error: RuleError) -> RuleFileError {
        RuleFileError::Parse(error)
    }
}

impl From<RulesError> for RuleFileError {
    ghost use Rattle.std.specs.Prelude.{◌≡◌};
    ghost use Rattle.end_to_end.specs.declared.error.RuleFileError.TheVariants as file;

    ghost from_gives = { λ error r. r ≡ file.Run error };

    fn from(error: RulesError) -> RuleFileError {
        RuleFileError::Run(error)
    }
}
