//! One exchange over HTTP: a request is read from any input, and its reply, with a menu from any [`MenuSource`], is
//! written to any output (RFC 9110 and RFC 9112; RFC 6585, section 5, for status 431). [`serve_on`] serves the
//! connections of a listener one at a time, each with one exchange.
//!
//! Differences from the standard, with their tests in `tests/commands`:
//! - A connection has one request and one reply (`test_one_exchange_a_connection` in `test_connections.py`); whatever
//!   follows the request's head is ignored (`test_whole_requests` in `test_requests_over_http.py`).
//! - There is no clock, and so no Date field (every reply in `test_requests_over_http.py` is compared as a whole).
//! - Every method other than GET and HEAD gets 405 (`test_methods_and_targets` in `test_requests_over_http.py`).
//!
//! ```rust
//! let registry = Registry::new(rt.alloc());
//! let served = serve_one(rt.alloc(), &mut input, &mut output, &RegistryMenus::new(&registry));
//! assert_eq!(rt; served, Ok(Served::Replied(404)));
//! ```
#![tactic(auto)]

mod counts;
mod exchange;
pub mod laws;
mod menu_page;
mod reply;
mod service;
mod source_page;

pub use counts::Counts;
pub use exchange::{ServeError, Served, serve_one};
pub use http_streams::{Failed, Input, Output, TimedWire, Wire};
pub use menu_source::MenuSource;
pub use service::{serve_on, serve_within};
