//! Files in memory, for tests: contracts see all of their content, and why a call fails.
#![tactic(auto)]

mod content;
mod failing;
pub mod laws;
mod memory;

pub use content::{Content, Entry};
pub use failing::FailingMemory;
pub use memory::{Memory, MemoryDraft, NEW_MODE};
