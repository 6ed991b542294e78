//! Queries as sources send them, repaired to the key/encoded-value form of OpenURL (ANSI/NISO Z39.88-2004, part 2).
//!
//! ```rust
//! let query = repaired(rt.alloc(), b"?sid=google&amp;title=Harbour+&+Coast&volume=3")?;
//! assert!(rt; query.as_slice() == b"sid=google&title=Harbour+%26+Coast&volume=3".as_slice());
//! ```
//!
//! - `?` and `amp;` before a pair go.
//! - If a base URL has a query of its own, the source may have added `?` and its pairs: this `?` becomes `&`.
//! - `;` before a pair becomes `&` if no `&` is before one (HTML 4.01, appendix B.2.2).
//! - If an `&` that was not escaped, or one of an entity of HTML, has split a value, it becomes `%26`.
//!
//! Nothing is decoded here, and no pair is left out.
#![tactic(auto)]

mod joining;
mod keys;
pub mod laws;
mod pieces;
mod repair;

pub use repair::repaired;
