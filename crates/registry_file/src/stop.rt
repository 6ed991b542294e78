//! Why a target is not added, without the target's name.

ghost use Rattle.std.specs.Prelude.{◌≡◌, IfOk, string_bytes};
ghost use Rattle.registry_file.specs.Private.Stops.{IsFaultOf, stop_of_file};

use crate::error::{TargetError, TargetFault};
use files::FileError;
use kbart_rows::TableError;
use registry::AddErrorKind;
use std::alloc::{AllocError, Global};
use verifier::LoadError;

/// Why a target is not added, in the order in which it is checked.
#[derive(Clone, Copy)]
pub(crate) enum Stop<'a> {
    /// The file at the path could not be read.
    Device(&'a str),
    Load(LoadError),
    Table(TableError),
    Add(AddErrorKind),
    NoMemory,
}

impl<'a> Stop<'a> {
    /// The file at the path could not be read.
    pub(crate) fn of_file(error: FileError, path: &'a str) -> Stop<'a>
        ensures { result ≡ stop_of_file error path.entry }
    {
        match error {
            FileError::Failed => Stop::Device(path),
            FileError::NoMemory => Stop::NoMemory,
        }
    }

    /// The error of the target of this name.
    pub(crate) fn of_target(self, alloc: Global, name: &str) -> Result<TargetError, AllocError>
        ensures name { IfOk result (λ e. string_bytes e.name ≡ name.now) }
        ensures fault { IfOk result (λ e. IsFaultOf self.entry e.fault) }
    {
        let fault = self.fault(alloc)?;
        let name = String::from_str(alloc, name)?;
        Ok(TargetError { name, fault })
    }

    fn fault(self, alloc: Global) -> Result<TargetFault, AllocError>
        ensures { IfOk result (IsFaultOf self.entry) }
    {
        match self {
            Stop::Device(path) => Ok(TargetFault::Device(String::from_str(alloc, path)?)),
            Stop::Load(e) => Ok(TargetFault::Load(e)),
            Stop::Table(e) => Ok(TargetFault::Table(e)),
            Stop::Add(kind) => Ok(TargetFault::Add(kind)),
            Stop::NoMemory => Err(AllocError),
        }
    }
}

impl<'a> From<AllocError> for Stop<'a> {
    ghost use Rattle.registry_file.specs.declared.stop.Stop.TheVariants.{NoMemory};
    ghost use Rattle.std.specs.Prelude.{◌≡◌};

    ghost from_gives = { λ _ stop. stop ≡ NoMemory };

    fn from(_e: AllocError) -> Stop<'a> {
        Stop::NoMemory
    }
}

impl<'a> From<LoadError> for Stop<'a> {
    ghost use Rattle.registry_file.specs.Private.Stops.{IsLoadStop};

    ghost from_gives = { IsLoadStop };

    fn from(e: LoadError) -> Stop<'a> {
        match e {
            LoadError::NoMemory => Stop::NoMemory,
            _ => Stop::Load(e),
        }
    }
}

impl<'a> From<TableError> for Stop<'a> {
    ghost use Rattle.registry_file.specs.Private.Stops.{IsTableStop};

    ghost from_gives = { IsTableStop };

    fn from(e: TableError) -> Stop<'a> {
        match e {
            TableError::NoMemory => Stop::NoMemory,
            _ => Stop::Table(e),
        }
    }
}

impl<'a> From<AddErrorKind> for Stop<'a> {
    ghost use Rattle.registry_file.specs.Private.Stops.{IsAddStop};

    ghost from_gives = { IsAddStop };

    fn from(kind: AddErrorKind) -> Stop<'a> {
        match kind {
            AddErrorKind::NoMemory => Stop::NoMemory,
            _ => Stop::Add(kind),
        }
    }
}
