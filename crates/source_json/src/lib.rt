//! A query of any source as JSON (RFC 8259): its reading, and its reading with its links.
//!
//! ```rust
//! let reading = read_source(alloc, b"rft_val_fmt=x")?;
//! let text = reading_json(alloc, &reading)?;
//! let expected = "{\"notes\":{\"left_out\":0,\"retracted\":false},\"pairs\":[[\"rft_val_fmt\",\"x\"]]}";
//! assert_eq!(rt; text.as_str(), expected);
//! ```
//!
//! The members of an object are in the order of their names, and there is no space between tokens.
#![tactic(auto)]

mod links;
mod readings;

pub use links::found_json;
pub use readings::reading_json;
