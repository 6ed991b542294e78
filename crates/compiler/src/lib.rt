//! The compiler: rules to code for the byte-code machine.
//!
//! ```rust
//! let rules = Rules::parse(alloc, rules.as_bytes())?;
//! let code = compile(alloc, &rules)?;
//! ```
#![tactic(auto)]

mod code;
mod code_tables;
mod error;
mod guards;
mod instructions;
mod lines;
mod pieces;
mod rule_lines;
mod tables;

pub use code::compile;
pub use code_file::Code;
pub use error::CompileError;
pub use rule_parser::Rules;
