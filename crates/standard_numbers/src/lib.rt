//! ISSNs (ISO 3297) and ISBNs (ISO 2108) in texts of any source, as the standards write them.
//!
//! ```rust
//! let issns = issns_in(rt.alloc(), b"issn: 2943081x")?;
//! assert!(rt; issns.len() == 1 && issns[0].as_str() == "2943-081X");
//! ```
//!
//! Differences from the standards, in what is read and not in what is written:
//!
//! - A hyphen or a space may be missing, and in an ISBN one may be between any two digits.
//! - A number counts whatever its check digit is, since sources and holdings tables both have wrong ones; but one with
//!   the right check digit goes before one without.
//! - `0000-0000`, which some sources send for no ISSN, is none, though its check digit is right.
//! - `2013-2014`, a span of years, is an ISSN only if its check digit is right, or if the text has the letters `ISSN`.
#![tactic(auto)]

mod check_digits;
mod isbn;
mod issn;
pub mod laws;
mod ranked;
mod spellings;
mod texts;

pub use isbn::isbns_in;
pub use issn::issns_in;
