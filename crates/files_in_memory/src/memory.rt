//! Files in memory.

ghost use Rattle.std.specs.Prelude.{◌≡◌, ◌≢◌, ℕ, List, Some, IfErr, IfNone, IfSome, OnErr, OnOk};
ghost use Rattle.files.specs.Found.{Absent, File};
ghost use Rattle.files.specs.Changes.{ChangesOnly, Unchanged};
ghost use Rattle.files.specs.Modes.{ChangesModeOnly, HasSameModes, IsMode};
ghost use Rattle.files_in_memory.specs.InMemory.{disk_of, found_of, modes_of};

use crate::content::{Content, Entry};
use files::{FileError, Files};
use std::alloc::{AllocError, Global};
use std::collections::BTreeMap;

/// The mode of a new file in memory.
pub const NEW_MODE: u32 = 420;

/// Files in memory, with their modes. A call fails only because of what is at its path.
#[derive(Drop)]
pub struct Memory {
    files: BTreeMap<String, Entry>,
    alloc: Global,
}

/// A new file in memory.
#[derive(Drop)]
pub struct MemoryDraft {
    path: String,
    bytes: Vec<u8>,
}

impl Memory {
    /// No files.
    pub fn new(alloc: Global) -> Memory
        ensures { (path : List ℕ) → disk_of result path ≡ Absent }
    {
        Memory {
            files: BTreeMap::new(alloc),
            alloc,
        }
    }

    /// Puts this at the path, with the mode of a new file, which is 420 (octal 644).
    pub fn put(&mut self, path: &str, content: Content) -> Result<(), AllocError>
        ensures here { OnOk result (disk_of self.new path.now ≡ found_of (Some content)) }
        ensures others { OnOk result (ChangesOnly path.now (disk_of self.old) (disk_of self.new)) }
        ensures err { OnErr result (Unchanged (disk_of self.old) (disk_of self.new)) }
        ensures mode { OnOk result (modes_of self.new path.now ≡ Some NEW_MODE) }
        ensures modes { OnOk result (ChangesModeOnly path.now (modes_of self.old) (modes_of self.new)) }
        ensures same_modes { OnErr result (HasSameModes (modes_of self.old) (modes_of self.new)) }
    {
        let path = String::from_str(self.alloc, path)?;
        let entry = Entry {
            content,
            mode: Some(NEW_MODE),
        };
        match self.files.insert(path, entry) {
            Ok(_) => Ok(()),
            Err(_) => Err(AllocError),
        }
    }

    /// Gives what is at the path this mode. Nothing is changed if nothing is there.
    pub fn set_mode_at(&mut self, path: &str, mode: u32) -> Result<(), AllocError>
        ensures mode { OnOk result (IsMode (modes_of self.new path.now) mode) }
        ensures there { OnOk result (disk_of self.old path.now ≢ Absent → modes_of self.new path.now ≡ Some mode) }
        ensures modes { ChangesModeOnly path.now (modes_of self.old) (modes_of self.new) }
        ensures err { OnErr result (HasSameModes (modes_of self.old) (modes_of self.new)) }
        ensures same { Unchanged (disk_of self.old) (disk_of self.new) }
    {
        let Some(entry) = self.files.get(path) else {
            return Ok(());
        };
        let content = entry.content.copy(self.alloc)?;
        let path = String::from_str(self.alloc, path)?;
        let mode = Some(mode);
        match self.files.insert(path, Entry { content, mode }) {
            Ok(_) => Ok(()),
            Err(_) => Err(AllocError),
        }
    }

    /// The mode of what is at the path.
    pub fn mode(&self, path: &str) -> Option<u32>
        ensures { result ≡ modes_of self.now path.now }
    {
        match self.files.get(path) {
            Some(entry) => entry.mode,
            None => None,
        }
    }

    /// What is at the path.
    pub fn content(&self, path: &str) -> Option<&Content>
        ensures some { IfSome result (λ content. disk_of self.now path.now ≡ found_of (Some content.now)) }
        ensures none { IfNone result (disk_of self.now path.now ≡ Absent) }
    {
        match self.files.get(path) {
            Some(entry) => Some(&entry.content),
            None => None,
        }
    }
}

impl Files for Memory {
    ghost use Rattle.std.specs.Prelude.{◌≡◌, string_bytes};
    ghost use Rattle.files_in_memory.specs.InMemory.{HasRefused, disk_of, modes_of};

    type Draft = MemoryDraft;

    ghost at = { disk_of };

    ghost mode_at = { modes_of };

    ghost fails = { HasRefused };

    ghost runs_out = { λ _ _ _ _. Unit {0} };

    ghost drafted = { λ draft path bytes. (path ≡ string_bytes draft.path) × (bytes ≡ draft.bytes.items) };

    fn read(&mut self, alloc: Global, path: &str, limit: usize) -> Result<Vec<u8>, FileError> {
        match self.content(path) {
            Some(Content::File(bytes)) => {
                let end = bytes.len().min(limit + 1);
                Ok(Vec::from_slice(alloc, &bytes[..end])?)
            }
            _ => Err(FileError::Failed),
        }
    }

    fn check_place(&mut self, path: &str) -> Result<Option<u32>, FileError> {
        match self.content(path) {
            Some(Content::Other) => Err(FileError::Failed),
            _ => Ok(self.mode(path)),
        }
    }

    fn create(&mut self, path: &str) -> Result<MemoryDraft, FileError> {
        if self.files.contains_key(path) {
            return Err(FileError::Failed);
        }
        let key = String::from_str(self.alloc, path)?;
        let path = String::from_str(self.alloc, path)?;
        let entry = Entry {
            content: Content::Unfinished,
            mode: Some(NEW_MODE),
        };
        self.files.insert(key, entry)?;
        Ok(MemoryDraft {
            path,
            bytes: Vec::new(self.alloc),
        })
    }

    fn set_mode(&mut self, draft: &MemoryDraft, mode: u32) -> Result<(), FileError> {
        self.set_mode_at(draft.path.as_str(), mode)?;
        Ok(())
    }

    fn write(&mut self, draft: &mut MemoryDraft, bytes: &[u8]) -> Result<(), FileError> {
        draft.bytes.extend_from_slice(bytes)?;
        Ok(())
    }

    fn keep(&mut self, draft: MemoryDraft) -> Result<(), FileError> {
        let MemoryDraft { path, bytes } = draft;
        let mode = self.mode(path.as_str());
        let content = Content::File(bytes);
        self.files.insert(path, Entry { content, mode })?;
        Ok(())
    }

    fn rename(&mut self, from: &str, to: &str) -> Result<(), FileError> {
        let Some(entry) = self.files.get(from) else {
            return Err(FileError::Failed);
        };
        let entry = entry.copy(self.alloc)?;
        let to = String::from_str(self.alloc, to)?;
        self.files.insert(to, entry)?;
        self.files.remove(from);
        Ok(())
    }

    fn remove(&mut self, path: &str) -> Result<(), FileError> {
        if self.files.remove(path).is_none() {
            return Err(FileError::Failed);
        }
        Ok(())
    }
}
