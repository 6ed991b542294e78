//! What is at a path.

ghost use Rattle.std.specs.Prelude.{◌≡◌, IfOk, Some};
ghost use Rattle.files_in_memory.specs.InMemory.{found_of};

use std::alloc::{AllocError, Global};

/// What is at a path.
#[derive(Drop)]
pub enum Content {
    /// A new file that is still being written, or was never finished.
    Unfinished,
    /// A regular file of these bytes.
    File(Vec<u8>),
    /// Something that is not a regular file, such as a folder or a device.
    Other,
}

/// What is at a path, and its mode, if it has one.
#[derive(Drop)]
pub struct Entry {
    pub(crate) content: Content,
    pub(crate) mode: Option<u32>,
}

impl Content {
    pub(crate) fn copy(&self, alloc: Global) -> Result<Content, AllocError>
        ensures { IfOk result (λ copy. found_of (Some copy) ≡ found_of (Some self.now)) }
    {
        match self {
            Content::Unfinished => Ok(Content::Unfinished),
            Content::File(bytes) => Ok(Content::File(Vec::from_slice(alloc, bytes)?)),
            Content::Other => Ok(Content::Other),
        }
    }
}

impl Entry {
    pub(crate) fn copy(&self, alloc: Global) -> Result<Entry, AllocError>
        ensures content { IfOk result (λ copy. found_of (Some copy.content) ≡ found_of (Some self.now.content)) }
        ensures mode { IfOk result (λ copy. copy.mode ≡ self.now.mode) }
    {
        Ok(Entry {
            content: self.content.copy(alloc)?,
            mode: self.mode,
        })
    }
}
