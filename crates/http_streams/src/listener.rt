//! Listeners, which accept connections.

ghost use Rattle.std.specs.Prelude.{Option, IfOk, IfSome, OnErr};
ghost use Rattle.std.specs.Duration.{as_nanos};
ghost use Rattle.http_streams.specs.Streams.{AreFresh};
ghost use Rattle.http_streams.specs.Sockets.{input_state_on, output_state_on};

use crate::stream::{Input, Output};
use crate::wire::TimedWire;
use std::io;
use std::net::{TcpListener, TcpStream};
use std::time::Duration;

/// A source of connections, which are accepted one at a time.
///
/// An implementer describes each call by relations between the listener's states before and after it.
pub trait Listener {
    /// The stream of bytes that a connection's peer sends.
    type In: Input + Drop;

    /// The stream of bytes that are sent to a connection's peer.
    type Out: Output + Drop;

    /// A connection was accepted: its two streams, or `None` if the time-out could not be set.
    ghost gives: { Self → Option (Self.In × Self.Out) → Self → Type 0 };

    /// The connection with these streams was closed.
    ghost closes: { Self → Self.In × Self.Out → Self → Type 0 };

    /// A connection could not be accepted.
    ghost fails: { Self → Self → Type 0 };

    /// Accepts the next connection, and returns its streams, whose calls time out after `wait`; `None` if that time-out
    /// could not be set.
    fn accept(&mut self, wait: Duration) -> io::Result<Option<(Self::In, Self::Out)>>
        ensures gives { IfOk result (λ streams. gives self.old streams self.new) }
        ensures fresh { IfOk result
            (λ streams. IfSome streams
            (λ pair. AreFresh (as_nanos wait) (Self.In.input_state pair.0) (Self.Out.output_state pair.1))) }
        ensures fails { OnErr result (fails self.old self.new) };

    /// Closes a connection.
    fn close(&mut self, streams: (Self::In, Self::Out))
        ensures { closes self.old streams self.new };
}

/// The system's listener, whose states are not described.
impl Listener for TcpListener {
    type In = TimedWire;

    type Out = TimedWire;

    ghost gives = { λ _ _ _. Unit {0} };

    ghost closes = { λ _ _ _. Unit {0} };

    ghost fails = { λ _ _. Unit {0} };

    fn accept(&mut self, wait: Duration) -> io::Result<Option<(TimedWire, TimedWire)>> {
        let (stream, _) = TcpListener::accept(self)?;
        Ok(wires(stream, wait))
    }

    fn close(&mut self, streams: (TimedWire, TimedWire))
        ensures { Unit {0} }
    {
        drop(streams);
    }
}

/// The two directions of a connection; `None` if the time-out could not be set.
fn wires(stream: TcpStream, wait: Duration) -> Option<(TimedWire, TimedWire)>
    ensures { IfSome result (λ pair. AreFresh (as_nanos wait) (input_state_on pair.0) (output_state_on pair.1)) }
{
    let other = stream.try_clone().ok()?;
    Some((TimedWire::new(stream, wait)?, TimedWire::new(other, wait)?))
}
