//! Files in memory of which a call fails.

ghost use Rattle.std.specs.Prelude.{◌≡◌, IfErr};
ghost use Rattle.files.specs.declared.error.FileError.TheVariants.{Failed};

use crate::memory::{Memory, MemoryDraft};
use files::{FileError, Files};
use std::alloc::Global;

/// Files in memory of which one call can be made to fail, as calls on the files of a system can.
#[derive(Drop)]
pub struct FailingMemory {
    /// The files.
    pub memory: Memory,
    // How many calls succeed before the one that fails.
    calls_left: Option<usize>,
}

impl FailingMemory {
    /// These files, and no call that is made to fail.
    pub fn new(memory: Memory) -> FailingMemory
        ensures { result.memory ≡ memory }
    {
        FailingMemory {
            memory,
            calls_left: None,
        }
    }

    /// Makes one call fail: the one after the next `calls` calls.
    pub fn fail_after(&mut self, calls: usize)
        ensures { self.new.memory ≡ self.old.memory }
    {
        self.calls_left = Some(calls);
    }

    /// Counts a call, which may be the one that fails.
    fn call(&mut self) -> Result<(), FileError>
        ensures files { self.new.memory ≡ self.old.memory }
        ensures failed { IfErr result (λ e. e ≡ Failed) }
    {
        match self.calls_left {
            None => Ok(()),
            Some(0) => {
                self.calls_left = None;
                Err(FileError::Failed)
            }
            Some(calls) => {
                self.calls_left = Some(calls - 1);
                Ok(())
            }
        }
    }
}

impl Files for FailingMemory {
    ghost use Rattle.std.specs.Prelude.{◌≡◌, string_bytes};
    ghost use Rattle.files_in_memory.specs.InMemory.{disk_of, modes_of};

    type Draft = MemoryDraft;

    ghost at = { λ files. disk_of files.memory };

    ghost mode_at = { λ files. modes_of files.memory };

    // Any call may be the one that fails.
    ghost fails = { λ _ _ _ _. Unit {0} };

    ghost runs_out = { λ _ _ _ _. Unit {0} };

    ghost drafted = { λ draft path bytes. (path ≡ string_bytes draft.path) × (bytes ≡ draft.bytes.items) };

    fn read(&mut self, alloc: Global, path: &str, limit: usize) -> Result<Vec<u8>, FileError> {
        self.call()?;
        self.memory.read(alloc, path, limit)
    }

    fn check_place(&mut self, path: &str) -> Result<Option<u32>, FileError> {
        self.call()?;
        self.memory.check_place(path)
    }

    fn create(&mut self, path: &str) -> Result<MemoryDraft, FileError> {
        self.call()?;
        self.memory.create(path)
    }

    fn set_mode(&mut self, draft: &MemoryDraft, mode: u32) -> Result<(), FileError> {
        self.call()?;
        self.memory.set_mode(draft, mode)
    }

    fn write(&mut self, draft: &mut MemoryDraft, bytes: &[u8]) -> Result<(), FileError> {
        self.call()?;
        self.memory.write(draft, bytes)
    }

    fn keep(&mut self, draft: MemoryDraft) -> Result<(), FileError> {
        self.call()?;
        self.memory.keep(draft)
    }

    fn rename(&mut self, from: &str, to: &str) -> Result<(), FileError> {
        self.call()?;
        self.memory.rename(from, to)
    }

    fn remove(&mut self, path: &str) -> Result<(), FileError> {
        self.call()?;
        self.memory.remove(path)
    }
}
