//! What is printed for a query of any source.
//!
//! - The pairs of its reading: a line for each, with the key, a tab and the value; and then how many were left out.
//! - Its links: a line for each, with the target, a tab and the link.
//!
//! Lines end with LF.
//!
//! ```rust
//! let reading = read_source(alloc, b"volume=12&rft_val_fmt=x")?;
//! let text = reading_text(alloc, &reading)?;
//! assert!(rt; text.as_str() == "rft.volume\t12\nvolume\t12\nrft_val_fmt\tx\n");
//! ```
#![tactic(auto)]

pub mod laws;
mod links;
mod readings;
mod shown;

pub use links::links_text;
pub use readings::reading_text;
