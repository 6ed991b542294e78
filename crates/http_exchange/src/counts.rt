//! How connections ended.

ghost use Rattle.std.specs.Prelude.{◌≡◌, ◌+◌, ◌<◌};
ghost use Rattle.http_exchange.specs.Connections.{counted, none_yet};

use crate::exchange::{ServeError, Served};

/// The number of connections that ended in each way.
#[derive(Clone, Copy, Debug, PartialEq, Eq)]
pub struct Counts {
    /// A whole reply was written.
    pub replied: u32,
    /// The peer sent nothing, and nothing was written.
    pub nothing: u32,
    /// A read or a write failed or took too long, or the time-out could not be set.
    pub faults: u32,
}

impl Counts {
    /// No connection yet.
    pub(crate) fn new() -> Counts
        ensures { result ≡ none_yet }
    {
        Counts {
            replied: 0,
            nothing: 0,
            faults: 0,
        }
    }

    /// One connection more.
    pub(crate) fn add(&mut self, exchange: Result<Served, ServeError>)
        requires { self.old.replied + self.old.nothing + self.old.faults < u32.MAX }
        ensures { self.new ≡ counted self.old exchange }
    {
        match exchange {
            Ok(Served::Replied(_)) => self.replied += 1,
            Ok(Served::Nothing) => self.nothing += 1,
            Err(_) => self.faults += 1,
        }
    }
}
