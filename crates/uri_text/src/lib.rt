//! Percent-encoding of texts in links (RFC 6570): of the whole text or its first items, each byte unchanged or as a
//! triplet.
#![tactic(auto)]

mod any_case;
mod classes;
mod items;
pub mod laws;
mod number;
mod text;
mod triplet;
mod writing;

pub use any_case::begins_in_any_case;
pub use items::cut;
pub use number::leading_number;
pub use text::Text;
pub use writing::{encode, encode_u, encode_ur};
