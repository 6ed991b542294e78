//! The quality of a holdings table, to be checked before it is served: how many rows and identifiers it has, and which
//! columns, cells and rows are not as they should be (NISO RP-9-2014).
//!
//! ```rust
//! let findings = inspect(alloc, &table)?;
//! assert!(rt; findings.warned && findings.text.as_str().starts_with("rows 0\n"));
//! ```
#![tactic(auto)]

mod cells;
mod columns;
mod form;
mod identifiers;
mod inspection;
mod lines;
mod most_rows;
mod number;
mod row_line;
mod rows;
mod spelling;
mod tally;
mod values;

pub use inspection::inspect;
