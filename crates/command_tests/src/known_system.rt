//! The system that the tests give to commands: files in memory, known keys, and one port.

use commands::System;
use files_in_memory::FailingMemory;
use http_streams::{Listener, Ports};
use kbart_rows::{KeySource, Keys, NoKeys};
use std::io::{self, ErrorKind};
use streams_in_memory::Peers;

/// The keys of two numbers, if there are any.
#[derive(Drop)]
pub struct KnownKeys {
    pub numbers: Option<(u64, u64)>,
}

impl KeySource for KnownKeys {
    ghost use Rattle.std.specs.Prelude.{◌≡◌, Some, None};

    ghost draws = { λ old first second _. old.numbers ≡ Some (first, second) };

    ghost fails = { λ old _. old.numbers ≡ None };

    fn draw(&mut self) -> Result<Keys, NoKeys> {
        match self.numbers {
            Some((first, second)) => Ok(Keys::new(first, second)),
            None => Err(NoKeys),
        }
    }
}

/// Ports of which one can be bound, once; these peers then connect to it. A free port has the number 4096.
#[derive(Drop)]
pub struct OnePort {
    pub peers: Option<Peers>,
}

impl Ports for OnePort {
    type Bound = Peers;

    ghost use Rattle.std.specs.Prelude.{◌≡◌, None};

    ghost binds = { λ _ _ _ _. Unit {0} };

    ghost fails = { λ old _ _. old.peers ≡ None };

    fn bind(&mut self, port: u16) -> io::Result<(Peers, u16)> {
        let port = if port == 0 { 4096 } else { port };
        match self.peers.take() {
            Some(peers) => Ok((peers, port)),
            None => Err(io::Error::from(ErrorKind::AddrInUse)),
        }
    }
}

/// A system whose files, random keys and ports are in memory.
pub type Outside = System<FailingMemory, KnownKeys, OnePort>;
