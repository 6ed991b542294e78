//! What the program answers, as functions of what was read: no file is opened here, and nothing is printed.
//!
//! Each function takes the bytes of a file (or what was read from it) and the text of a query, and returns the text
//! that is printed, or the bytes of the file that is written. Each has the same error, a [`Refusal`].
//!
//! ```rust
//! match link_of(alloc, &rule_text, "issn=2049-3630&volume=3") {
//!     Ok(line) => print!(rt; "{line}")?,
//!     Err(refusal) => return Ok(refusal.status()),
//! }
//! ```
#![tactic(auto)]

mod code;
mod expansion;
mod findings;
mod line;
mod link;
mod listing;
mod menus;
mod reading;
mod refusal;
mod request;
mod run;
mod source;
mod upgrade;
mod verdict;

pub use code::code_of;
pub use expansion::expansion_of;
pub use findings::{inspection_of, lint_of};
pub use link::link_of;
pub use listing::listing_of;
pub use menus::menu_text_of;
pub use reading::{rules_of, table_of};
pub use refusal::{FAILED, NO_LINK, REFUSED, Refusal};
pub use request::request_of;
pub use run::run_link_of;
pub use source::{links_text_of, reading_text_of};
pub use upgrade::upgrade_of;
pub use verdict::verdict_of;
