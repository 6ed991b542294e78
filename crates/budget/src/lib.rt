//! Bounds on the steps that a code takes and on the bytes that it prints: six sums over its instructions.
//!
//! ```rust
//! let code = Code::read(alloc, file)?;
//! let budget = budget_of(&code);
//! ```
#![tactic(auto)]

mod budget;
mod running;
mod share;
mod sums;

pub use budget::Budget;
pub use code_file::Code;
pub use sums::budget_of;
