//! Streams of bytes that come in and go out, the connections that they belong to, and the reading of a request's
//! head (RFC 9112, section 2) from any of them.
//!
//! A call may read or write fewer bytes than requested, but at least one, unless the input has ended. Any call may
//! fail. Contracts see how many bytes a stream has moved and how many of its calls have failed. They see the bytes
//! themselves only if the implementer reveals them: streams over memory do, a socket does not. The same holds for the
//! connections that a listener accepted and closed.
#![tactic(auto)]

mod calls;
mod error;
mod listener;
mod ports;
mod progress;
mod read;
mod stream;
mod tally;
mod wire;
mod write;

pub use error::HeadError;
pub use listener::Listener;
pub use ports::{Loopback, Ports};
pub use progress::is_closed;
pub use read::{MAX_HEAD_BYTES, read_head};
pub use stream::{Failed, Input, Output};
pub use tally::Tally;
pub use wire::{TimedWire, Wire};
pub use write::{write_all, write_both};
