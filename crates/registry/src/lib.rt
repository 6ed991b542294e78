//! The registry of targets, and the definition of the menu of a registry and a request.
#![tactic(auto)]

mod error;
pub mod laws;
mod name;
mod names;
mod registry;
mod target;

pub use error::{AddError, AddErrorKind};
pub use registry::{MAX_TARGETS, Registry};
pub use target::Target;
