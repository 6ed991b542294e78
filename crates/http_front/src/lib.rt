//! One exchange over HTTP, in which the menu is that of a registry.
//!
//! ```rust
//! let registry = Registry::new(rt.alloc());
//! let served = serve_one(rt.alloc(), &mut input, &mut output, &registry);
//! assert_eq!(rt; served, Ok(Served::Replied(404)));
//! ```
#![tactic(auto)]

mod exchange;

pub use exchange::serve_one;
pub use http_exchange::{ServeError, Served};
pub use http_streams::{Failed, Input, Output, TimedWire, Wire};
pub use registry::Registry;
