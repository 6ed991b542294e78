//! A listener over memory.

ghost use Rattle.std.specs.Prelude.{◌≡◌, ◌++◌, ◌∷◌, [], OnOk, slice_get};
ghost use Rattle.std.specs.Option.{option_copied};
ghost use Rattle.streams_in_memory.specs.Listener.{Gives, Keeps};

use crate::pieces::{PieceIn, PieceOut};
use http_streams::Listener;
use std::alloc::{AllocError, Global};
use std::collections::VecDeque;
use std::io::{self, ErrorKind};
use std::marker::Model;
use std::time::Duration;

/// Peers that connect one after the other: the bytes that each sends, and the replies to those that were served. When
/// no peer is left, no more connections are accepted. As with a socket, a time-out of 0 cannot be set.
#[derive(Drop)]
pub struct Peers {
    alloc: Global,
    to_come: VecDeque<Vec<u8>>,
    replies: VecDeque<Vec<u8>>,
}

impl Model for Peers {
    ghost use Rattle.std.specs.Prelude.{map};
    ghost use Rattle.streams_in_memory.specs.Listener.{PeersValue};

    ghost Value = { PeersValue };

    ghost view = { λ peers. record {
      to_come = map (λ v. v.items) peers.to_come.items;
      replies = map (λ v. v.items) peers.replies.items;
    } };
}

impl Peers {
    /// No peers.
    pub fn new(alloc: Global) -> Peers
        ensures { result ≡ record { to_come = []; replies = [] } }
    {
        Peers {
            alloc,
            to_come: VecDeque::new(alloc),
            replies: VecDeque::new(alloc),
        }
    }

    /// Adds a peer that sends these bytes. The error is a failed allocation.
    pub fn add(&mut self, bytes: &[u8]) -> Result<(), AllocError>
        ensures { OnOk result (self.new ≡ record self.old { to_come = self.old.to_come ++ bytes.now ∷ [] }) }
    {
        let bytes = Vec::from_slice(self.alloc, bytes)?;
        self.to_come.push_back(bytes)?;
        Ok(())
    }

    /// The reply to the peer with this number, counted from 0, among those that were served.
    pub fn reply(&self, number: usize) -> Option<&[u8]>
        ensures { option_copied result ≡ slice_get self.now.replies number }
    {
        match self.replies.get(number) {
            Some(bytes) => Some(bytes.as_slice()),
            None => None,
        }
    }
}

impl Listener for Peers {
    ghost use Rattle.std.specs.Prelude.{◌≡◌, []};

    type In = PieceIn;

    type Out = PieceOut;

    ghost gives = { Gives };

    ghost closes = { Keeps };

    ghost fails = { λ old new. (old.to_come ≡ []) × (new ≡ old) };

    fn accept(&mut self, wait: Duration) -> io::Result<Option<(PieceIn, PieceOut)>> {
        let Some(bytes) = self.to_come.pop_front() else {
            return Err(io::Error::from(ErrorKind::NotConnected));
        };
        if wait.is_zero() {
            return Ok(None);
        }
        Ok(Some((PieceIn::of(bytes, wait), PieceOut::of(self.alloc, wait))))
    }

    fn close(&mut self, streams: (PieceIn, PieceOut))
        ensures { Keeps self.old streams self.new }
    {
        let (_, output) = streams;
        let _ = self.replies.push_back(output.into_written());
    }
}
