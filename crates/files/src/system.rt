//! The files of the system.
//!
//! No contract describes them, so each method is only one or two calls of std.

use crate::error::FileError;
use crate::files::Files;
use std::alloc::Global;
use std::fs::{self, File, OpenFile, Permissions};
use std::io::{ErrorKind, Read, Write};
use std::os::unix::fs::{MetadataExt, PermissionsExt};
use std::rt;

/// The files of the system. Paths are UTF-8, and relative ones start from the folder in which the program runs.
#[derive(Drop)]
pub struct SystemFiles<'a, R> {
    rt: &'a R,
}

impl<'a, R: rt::Files> SystemFiles<'a, R> {
    /// The files that the runtime can open.
    pub fn new(rt: &'a R) -> SystemFiles<'a, R> {
        SystemFiles { rt }
    }
}

impl<'a, R: rt::Files> Files for SystemFiles<'a, R> {
    ghost use Rattle.std.specs.Prelude.{None};
    ghost use Rattle.files.specs.Found.{NotTold};

    type Draft = R::File;

    ghost at = { λ _ _. NotTold };

    ghost mode_at = { λ _ _. None };

    ghost fails = { λ _ _ _ _. Unit {0} };

    ghost runs_out = { λ _ _ _ _. Unit {0} };

    ghost drafted = { λ _ _ _. Unit {0} };

    fn read(&mut self, alloc: Global, path: &str, limit: usize) -> Result<Vec<u8>, FileError> {
        let mut front = Vec::new(alloc);
        fs::open(self.rt, path)?
            .take(limit as u64 + 1)
            .read_to_end(&mut front)?;
        Ok(front)
    }

    /// A symbolic link is not a regular file, whatever it leads to. Those among the folders of the path are followed.
    fn check_place(&mut self, path: &str) -> Result<Option<u32>, FileError> {
        match fs::symlink_metadata(self.rt, path) {
            Ok(found) if found.is_file() => Ok(Some(found.mode())),
            Ok(_) => Err(FileError::Failed),
            Err(e) if e.kind() == ErrorKind::NotFound => Ok(None),
            Err(e) => Err(FileError::from(e)),
        }
    }

    fn create(&mut self, path: &str) -> Result<R::File, FileError> {
        Ok(File::create_new(self.rt, path)?)
    }

    fn set_mode(&mut self, draft: &R::File, mode: u32) -> Result<(), FileError> {
        Ok(draft.set_permissions(Permissions::from_mode(mode))?)
    }

    fn write(&mut self, draft: &mut R::File, bytes: &[u8]) -> Result<(), FileError> {
        Ok(draft.write_all(bytes)?)
    }

    fn keep(&mut self, draft: R::File) -> Result<(), FileError> {
        Ok(draft.sync_all()?)
    }

    fn rename(&mut self, from: &str, to: &str) -> Result<(), FileError> {
        Ok(fs::rename(self.rt, from, to)?)
    }

    fn remove(&mut self, path: &str) -> Result<(), FileError> {
        match fs::remove_file(self.rt, path) {
            Ok(()) => Ok(()),
            Err(_) => Err(FileError::Failed),
        }
    }
}
