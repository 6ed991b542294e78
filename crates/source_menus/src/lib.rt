//! The links for a query of any source.
//!
//! A source of menus, such as a registry, is asked with the requests of the query (`source_requests`): its own, those
//! with further numbers of its title, and the one for targets that answer every request. Each target has one link, the
//! first that these give in this order. The tables of a target may have parts, as `press.2` is a part of `press`.
//!
//! ```rust
//! let found = found_links(alloc, &menus, &[], b"?issn=20493630&amp;volume=3")?;
//! for link in found.links() {
//!     assert!(rt; link.target() == "press" && link.row == 0 && link.request == LinkRequest::Own);
//! }
//! ```
#![tactic(auto)]

mod found;
pub mod laws;
mod link;
mod links;
mod parts;

pub use found::{FoundLinks, found_links};
pub use kev_read::KevError;
pub use link::{FoundLink, LinkRequest, Text};
pub use menu_source::MenuSource;
pub use parts::target_of;
pub use source_requests::{Pairs, Reading};
