//! Rules, run through the code that they are compiled to: each call goes from rules to the outcome, and its contract
//! states the whole of it.
#![tactic(auto)]

mod compiled;
mod error;
pub mod laws;

pub use compiled::{run_rule_file, run_rules};
pub use error::{RuleFileError, RulesError};
pub use safe_runs::{RunError, run_file, run_verified};
