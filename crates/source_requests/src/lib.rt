//! A query of any source, and the requests with which targets are asked for it.
//!
//! ```rust
//! let alloc = rt.alloc();
//! let reading = read_source(alloc, b"?issn=29010012&amp;volume=12")?;
//! let own = own_request(alloc, reading.pairs())?;
//! assert!(rt; own.first("rft.issn") == Some("2901-0012"));
//! let any = any_request(alloc, reading.pairs())?;
//! assert!(rt; any.first("rft.issn") == Some("ANY"));
//! assert!(rt; any.first("rft.volume") == Some("12"));
//! ```
//!
//! - The query is repaired and made UTF-8 (`source_queries`), and read as OpenURL 1.0 (`openurl_reading`). A reading
//!   that is written as a query is read as it is (`laws`).
//! - Its own request is for targets that have the cited title, and one is for those that answer every request; one with
//!   a further number is for targets that have the title under this number, as another edition.
//! - All have the pairs of the reading that fit into a query.
#![tactic(auto)]

mod forms;
pub mod laws;
mod reading;
mod requests;
mod sent_pair;
mod utf8;

pub use kev_read::{KevError, Request};
pub use openurl_reading::{Pairs, Reading};
pub use reading::read_source;
pub use requests::{any_request, further_request, own_request};
