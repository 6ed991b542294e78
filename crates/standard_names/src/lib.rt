//! The names that the standards define, and those that the front door adds: columns of holdings tables, and keys of
//! requests.
//!
//! ```rust
//! assert!(rt; column_names().contains(&"title_id") && request_keys().contains(&"rft.issn"));
//! ```
#![tactic(auto)]

mod columns;
mod keys;

pub use columns::{column_names, known_columns};
pub use keys::request_keys;
