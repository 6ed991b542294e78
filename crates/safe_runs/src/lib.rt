//! Accepted code, run from its start to its end.
#![tactic(auto)]

mod ending;
mod error;

pub use ending::{run_file, run_verified};
pub use error::RunError;
