//! Why a call on files fails.

ghost use Rattle.std.specs.Prelude.{◌≡◌};

use std::alloc::{AllocError, AllocFailed};
use std::io::{self, ErrorKind};
use thiserror::Error;

/// Why a call on files fails.
#[derive(Clone, Copy, Debug, PartialEq, Eq, Error)]
pub enum FileError {
    /// The system rejected the call, or what the call needs is not at the path.
    #[error("file error")]
    Failed,
    /// An allocation failed, in the program or in the system.
    #[error("out of memory")]
    NoMemory,
}

impl From<io::Error> for FileError {
    ghost use Rattle.std.specs.IoError.{error_kind};
    ghost use Rattle.std.specs.Prelude.{◌≡◌};
    ghost use Rattle.files.specs.Errors.{error_of_kind};

    ghost from_gives = { λ e error. error ≡ error_of_kind (error_kind e) };

    fn from(e: io::Error) -> FileError {
        match e.kind() {
            ErrorKind::OutOfMemory => FileError::NoMemory,
            _ => FileError::Failed,
        }
    }
}

impl From<AllocError> for FileError {
    ghost use Rattle.files.specs.declared.error.FileError.TheVariants.{NoMemory};
    ghost use Rattle.std.specs.Prelude.{◌≡◌};

    ghost from_gives = { λ _ error. error ≡ NoMemory };

    fn from(_e: AllocError) -> FileError {
        FileError::NoMemory
    }
}

impl<T: Drop> From<AllocFailed<T>> for FileError {
    ghost use Rattle.files.specs.declared.error.FileError.TheVariants.{NoMemory};
    ghost use Rattle.std.specs.Prelude.{◌≡◌};

    ghost from_gives = { λ _ error. error ≡ NoMemory };

    fn from(_e: AllocFailed<T>) -> FileError {
        FileError::NoMemory
    }
}

/// Why a whole file could not be read.
#[derive(Clone, Copy, Debug, PartialEq, Eq, Error)]
pub enum ReadError {
    /// The file has more bytes than the limit.
    #[error("file too long")]
    TooLong,
    /// The call that reads it failed.
    #[error("{0}")]
    File(FileError),
}

impl From<FileError> for ReadError {
    ghost use Rattle.files.specs.declared.error.ReadError.TheVariants.{File};
    ghost use Rattle.std.specs.Prelude.{◌≡◌};

    ghost from_gives = { λ e error. error ≡ File e };

    fn from(e: FileError) -> ReadError {
        ReadError::File(e)
    }
}
