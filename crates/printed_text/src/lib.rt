//! Unknown bytes as printable text, and what a command finds in the files that it examines.
//!
//! ```rust
//! let mut line = String::new(alloc);
//! push_quoted(&mut line, b"a\tb")?;
//! assert!(rt; line.as_str() == "\"a\\x09b\"");
//! ```
#![tactic(auto)]

mod findings;
mod quoting;

pub use findings::Findings;
pub use quoting::{MAX_SHOWN, push_quoted, push_shortened, push_visible};
