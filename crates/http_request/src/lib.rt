//! HTTP requests: from the bytes of a request's head (RFC 9112, sections 2, 3 and 5) to its route, which is a page and
//! its query, or the reason why there is none.
//!
//! The differences from the standard are listed at [`read_request`].
#![tactic(auto)]

mod host;
pub mod laws;
mod numbers;
mod request;
mod route;
mod target;

pub use numbers::MAX_NUMBERS;
pub use request::{MAX_FIELDS, read_request};
pub use route::{HttpRequest, Page, Route};
