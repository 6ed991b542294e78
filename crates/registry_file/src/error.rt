//! Why a registry file could not be loaded.

use files::{FileError, PrintedPath, ReadError};
use kbart_rows::{NoKeys, TableError};
use registry::AddErrorKind;
use std::alloc::AllocError;
use thiserror::Error;
use verifier::LoadError;

/// Why a registry file could not be loaded: its first error.
#[derive(Debug, Drop, Error)]
pub enum RegistryError {
    /// The registry file could not be read, or there were no random keys for the tables.
    #[error("device")]
    Device,
    /// This line does not have three cells of UTF-8; lines are counted from 1, without blank ones. Line 0 means that
    /// the file has more than [`MAX_REGISTRY_BYTES`](crate::MAX_REGISTRY_BYTES).
    #[error("line {0}")]
    Line(usize),
    /// A target is rejected.
    #[error("target {0}")]
    Target(TargetError),
    /// An allocation failed.
    #[error("NoMemory")]
    NoMemory,
}

/// A target that is rejected, and why.
#[derive(Debug, Drop, Error)]
#[error("{}: {fault}", PrintedPath(.name))]
pub struct TargetError {
    /// Its name in the registry file.
    pub name: String,
    /// Why it is rejected.
    pub fault: TargetFault,
}

/// Why a target is rejected, in the order in which it is checked: its code, its table, its name.
#[derive(Debug, Drop, Error)]
pub enum TargetFault {
    /// The file at the path could not be read.
    #[error("device: {}", PrintedPath(.0))]
    Device(String),
    /// The verifier rejects the code.
    #[error("load: {0}")]
    Load(LoadError),
    /// The file is not a holdings table.
    #[error("table: {0}")]
    Table(TableError),
    /// There are too many targets, or the name is bad or taken.
    #[error("{0}")]
    Add(AddErrorKind),
}

impl From<AllocError> for RegistryError {
    ghost use Rattle.registry_file.specs.declared.error.RegistryError.TheVariants.{NoMemory};
    ghost use Rattle.std.specs.Prelude.{◌≡◌};

    ghost from_gives = { λ _ e. e ≡ NoMemory };

    fn from(_e: AllocError) -> RegistryError {
        RegistryError::NoMemory
    }
}

impl From<NoKeys> for RegistryError {
    ghost use Rattle.registry_file.specs.declared.error.RegistryError.TheVariants.{Device};
    ghost use Rattle.std.specs.Prelude.{◌≡◌};

    ghost from_gives = { λ _ e. e ≡ Device };

    fn from(_e: NoKeys) -> RegistryError {
        RegistryError::Device
    }
}

/// Why the registry file could not be read.
impl From<ReadError> for RegistryError {
    ghost use Rattle.registry_file.specs.Private.Stops.{error_of_read};
    ghost use Rattle.std.specs.Prelude.{◌≡◌};

    ghost from_gives = { λ e error. error ≡ error_of_read e };

    fn from(e: ReadError) -> RegistryError {
        match e {
            ReadError::TooLong => RegistryError::Line(0),
            ReadError::File(FileError::Failed) => RegistryError::Device,
            ReadError::File(FileError::NoMemory) => RegistryError::NoMemory,
        }
    }
}
