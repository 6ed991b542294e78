//! Texts: the classes of their bytes, how they are percent-encoded in a link, their items and their leading number.
//! Definitions and their laws; nothing here runs.
#![tactic(auto)]

pub mod laws;
mod writing;

pub use writing::Writing;
