//! Ports, at which listeners are bound.

ghost use Rattle.std.specs.Prelude.{◌≡◌, ◌≢◌, ℕ, IfOk, OnErr};

use crate::listener::Listener;
use std::io;
use std::net::{Ipv4Addr, Net, TcpListener, TcpStream};

/// The ports of this machine's own address, 127.0.0.1.
///
/// An implementer describes each call by relations between the states before and after it.
pub trait Ports {
    /// A listener at a port.
    type Bound: Listener + Drop;

    /// This port was bound, or a free one if it is 0: the listener and its port.
    ghost binds: { Self → ℕ → Self.Bound × ℕ → Self → Type 0 };

    /// This port could not be bound, or no free one if it is 0.
    ghost fails: { Self → ℕ → Self → Type 0 };

    /// Listens at a port, a free one if it is 0, and returns the listener with its port.
    fn bind(&mut self, port: u16) -> io::Result<(Self::Bound, u16)>
        ensures binds { IfOk result (λ bound. binds self.old port bound self.new) }
        ensures port { IfOk result (λ bound. port ≢ 0 → bound.1 ≡ port) }
        ensures fails { OnErr result (fails self.old port self.new) };
}

/// The system's ports, whose states are not described.
#[derive(Drop)]
pub struct Loopback<'a, R> {
    net: &'a R,
}

impl<'a, R> Loopback<'a, R> {
    /// The ports of this system.
    pub fn new(net: &'a R) -> Loopback<'a, R> {
        Loopback { net }
    }
}

impl<'a, R: Net<Listener = TcpListener, Stream = TcpStream>> Ports for Loopback<'a, R> {
    type Bound = TcpListener;

    ghost binds = { λ _ _ _ _. Unit {0} };

    ghost fails = { λ _ _ _. Unit {0} };

    fn bind(&mut self, port: u16) -> io::Result<(TcpListener, u16)> {
        let listener = TcpListener::bind(self.net, (Ipv4Addr::LOCALHOST, port))?;
        if port != 0 {
            return Ok((listener, port));
        }
        let place = listener.local_addr()?;
        Ok((listener, place.port()))
    }
}
