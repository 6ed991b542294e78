//! Streams over a socket.

ghost use Rattle.std.specs.Prelude.{◌≡◌, None, Some, IfSome};
ghost use Rattle.std.specs.Duration.{as_nanos};

use crate::calls::{read_from, write_to};
use crate::stream::{Failed, Input, Output};
use crate::tally::Tally;
use std::marker::Model;
use std::net::TcpStream;
use std::time::Duration;

/// A borrowed socket. Contracts see neither its bytes nor how long a call may take.
#[derive(Drop)]
pub struct Wire<'a> {
    stream: &'a TcpStream,
    tally: Tally,
}

impl<'a> Model for Wire<'a> {
    ghost use Rattle.std.specs.Prelude.{None};
    ghost use Rattle.http_streams.specs.Sockets.{WireValue};

    ghost Value = { WireValue };

    ghost view = { λ wire. record { tally = wire.tally; wait = None } };
}

impl<'a> Wire<'a> {
    /// A stream over the socket, none of whose calls has failed yet.
    pub fn new(stream: &'a TcpStream) -> Wire<'a>
        ensures { result ≡ record { tally = record { moved = 0; failures = 0 }; wait = None } }
    {
        Wire {
            stream,
            tally: Tally::new(),
        }
    }
}

impl<'a> Input for Wire<'a> {
    ghost use Rattle.http_streams.specs.Sockets.{input_state_on};

    ghost input_state = { input_state_on };

    fn read(&mut self, room: &mut [u8]) -> Result<usize, Failed> {
        let mut stream = self.stream;
        match read_from(&mut stream, room) {
            Ok(n) => {
                self.tally.add(n);
                Ok(n)
            }
            Err(Failed) => {
                self.tally.fail();
                Err(Failed)
            }
        }
    }
}

impl<'a> Output for Wire<'a> {
    ghost use Rattle.http_streams.specs.Sockets.{output_state_on};

    ghost output_state = { output_state_on };

    #[tactic(auto, using(crate::proofs::Counts::counts))]
    fn write(&mut self, bytes: &[u8]) -> Result<usize, Failed> {
        if bytes.is_empty() {
            return Ok(0);
        }
        let mut stream = self.stream;
        match write_to(&mut stream, bytes) {
            Ok(n) => {
                self.tally.add(n);
                Ok(n)
            }
            Err(Failed) => {
                self.tally.fail();
                Err(Failed)
            }
        }
    }
}

/// One direction of an accepted connection. Contracts do not see its bytes, but they see how long a call may take.
#[derive(Drop)]
pub struct TimedWire {
    stream: TcpStream,
    tally: Tally,
    wait: Duration,
}

impl Model for TimedWire {
    ghost use Rattle.std.specs.Prelude.{Some};
    ghost use Rattle.std.specs.Duration.{as_nanos};
    ghost use Rattle.http_streams.specs.Sockets.{WireValue};

    ghost Value = { WireValue };

    ghost view = { λ wire. record { tally = wire.tally; wait = Some (as_nanos wire.wait) } };
}

impl TimedWire {
    /// A stream over the socket, whose calls time out after `wait`; `None` if that time-out could not be set.
    pub(crate) fn new(stream: TcpStream, wait: Duration) -> Option<TimedWire>
        ensures { IfSome result
            (λ wire. wire ≡ record { tally = record { moved = 0; failures = 0 }; wait = Some (as_nanos wait) }) }
    {
        stream.set_read_timeout(Some(wait)).ok()?;
        stream.set_write_timeout(Some(wait)).ok()?;
        Some(TimedWire {
            stream,
            tally: Tally::new(),
            wait,
        })
    }
}

impl Input for TimedWire {
    ghost use Rattle.http_streams.specs.Sockets.{input_state_on};

    ghost input_state = { input_state_on };

    fn read(&mut self, room: &mut [u8]) -> Result<usize, Failed> {
        match read_from(&mut self.stream, room) {
            Ok(n) => {
                self.tally.add(n);
                Ok(n)
            }
            Err(Failed) => {
                self.tally.fail();
                Err(Failed)
            }
        }
    }
}

impl Output for TimedWire {
    ghost use Rattle.http_streams.specs.Sockets.{output_state_on};

    ghost output_state = { output_state_on };

    #[tactic(auto, using(crate::proofs::Counts::counts))]
    fn write(&mut self, bytes: &[u8]) -> Result<usize, Failed> {
        if bytes.is_empty() {
            return Ok(0);
        }
        match write_to(&mut self.stream, bytes) {
            Ok(n) => {
                self.tally.add(n);
                Ok(n)
            }
            Err(Failed) => {
                self.tally.fail();
                Err(Failed)
            }
        }
    }
}
