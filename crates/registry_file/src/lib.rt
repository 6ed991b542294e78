//! The registry file: a line for each target, with its name, the path of its code and the path of its table.
#![tactic(auto)]

mod error;
mod lines;
mod load;
mod stop;
mod target;

pub use error::{RegistryError, TargetError, TargetFault};
pub use lines::MAX_REGISTRY_BYTES;
pub use load::load_registry;
