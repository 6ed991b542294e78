//! Requests of any source, read as OpenURL 1.0 (ANSI/NISO Z39.88-2004).
//!
//! Sources send OpenURL 0.1, other versions, Dublin Core, the fields of forms, identifiers, numbers and dates in free
//! forms, and titles and names in HTML, in LaTeX or encoded twice. A reading has
//!
//! 1. the pairs that count: not those without a value, and none that names a column of holdings tables; keys that are
//!    known in small letters are written so;
//! 2. after steps, each of which changes the values of one key;
//! 3. and before them keys that begin with `x.`, for the rules of targets.
//!
//! It also says whether a title of the request has the remark that its work was retracted, which the steps take away.
//!
//! ```rust
//! let reading = read_openurl(rt.alloc(), b"issn=29010012&volume=12&date=20030501&id=doi:10.1000/182")?;
//! assert!(rt; reading.pairs().first("rft.issn") == Some("2901-0012"));
//! assert!(rt; reading.pairs().first("rft.date") == Some("2003-05-01"));
//! assert!(rt; reading.pairs().first("rft_id") == Some("info:doi/10.1000/182"));
//! ```
#![tactic(auto)]

mod article_numbers;
mod change;
mod citations;
mod counting;
mod dates;
mod derived;
mod dublin_core;
mod encoded_dois;
mod fields;
mod formats;
mod identified_numbers;
mod identifiers;
mod keys;
mod kinds;
pub mod laws;
mod normal_form;
mod numbers;
mod old_keys;
mod pages;
mod pairs;
mod reading;
mod referrer;
mod retractions;
mod searched;
mod sought;
mod sources;
mod texts;
mod titles;
mod versions;
mod volumes;

pub use kev_read::KevError;
pub use pairs::Pairs;
pub use reading::{Reading, read_openurl};
