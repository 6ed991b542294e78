//! Why rules give a link for a request, or none: for each row of a table that is tried, which guard of which rule
//! failed, and the values of the names in it.
//!
//! ```rust
//! let found: bool = explain(alloc, &rules, &table, &request, &mut output)?;
//! ```
#![tactic(auto)]

mod error;
mod explaining;
mod failing;
mod guard_names;
mod holding;
mod known_names;
pub mod laws;
mod list_names;
mod names;
mod row_view;
mod rows;
mod rules_request;

pub use error::ExplainError;
pub use explaining::{MAX_DETAILED, explain};
