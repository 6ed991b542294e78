//! Queries of any source, as OpenURL 1.0 in UTF-8 can be read from them.
//!
//! ```rust
//! let query = source_query(rt.alloc(), b"?ctx_enc=latin1&amp;title=Caf%E9&nolinks")?;
//! assert!(rt; query.as_slice()
//!     == b"ctx_enc=info%3Aofi%2Fenc%3AUTF-8&title=Caf%C3%A9&nolinks=".as_slice());
//! ```
//!
//! - The query is repaired first (`query_repair`).
//! - If all its names and values are UTF-8 then, and it declares no other encoding, it stays as it is.
//! - Else its pairs are read in its encoding (`request_encodings`) and written again as a form (URL Standard, section
//!   5.2), with `ctx_enc` for UTF-8.
#![tactic(auto)]

mod forms;
pub mod laws;
mod queries;
mod utf8;

pub use queries::source_query;
