//! Streams over memory for tests with hostile peers: they read and write a few bytes at a time, and fail when the test
//! says so.

ghost use Rattle.std.specs.Prelude.{◌≡◌, ◌<◌, ◌≤◌, ◌↔◌, [], None, Some, IfOk, IsErr, OnErr, length, min, take};
ghost use Rattle.std.specs.Duration.{as_nanos};
ghost use Rattle.http_streams.specs.Streams.{Receives, IsAtEnd, Sends, after_failed_read, after_failed_write};
ghost use Rattle.streams_in_memory.specs.InMemory.{after_call, pieces_as_input, no_calls, pieces_as_output};

use crate::fault::{call, copy_front};
use http_streams::{Failed, Input, Output, Tally};
use std::alloc::{AllocError, Global};
use std::marker::Model;
use std::time::Duration;

/// An input with bytes to read, at most a piece of them in each read.
#[derive(Drop)]
pub struct PieceIn {
    input: Vec<u8>,
    read: usize,
    piece: usize,
    fails_after: Option<usize>,
    tally: Tally,
    wait: Option<Duration>,
}

impl Model for PieceIn {
    ghost use Rattle.std.specs.Prelude.{◌≤◌, ◌<◌, drop, vec_len};
    ghost use Rattle.std.specs.Option.{option_map};
    ghost use Rattle.std.specs.Duration.{as_nanos};
    ghost use Rattle.streams_in_memory.specs.InMemory.{PieceInValue};

    ghost Value = { PieceInValue };

    ghost view = { λ stream. record {
      left = drop stream.read stream.input.items;
      piece = stream.piece;
      fails_after = stream.fails_after;
      tally = stream.tally;
      wait = option_map as_nanos stream.wait;
    } };

    ghost invariant = { λ stream. (stream.read ≤ vec_len stream.input) × (0 < stream.piece) };
}

impl PieceIn {
    /// An input with these bytes to read, at most `piece` of them in each read. Read number `fail_at`, counted from 0,
    /// fails. The error is a failed allocation.
    pub fn new(
        alloc: Global,
        bytes: &[u8],
        piece: usize,
        fail_at: Option<usize>,
    ) -> Result<PieceIn, AllocError>
        requires { 0 < piece }
        ensures { IfOk result
            (λ stream. stream ≡ record {
              left = bytes.now;
              piece = piece;
              fails_after = fail_at;
              tally = no_calls;
              wait = None;
            }) }
    {
        Ok(PieceIn {
            input: Vec::from_slice(alloc, bytes)?,
            read: 0,
            piece,
            fails_after: fail_at,
            tally: Tally::new(),
            wait: None,
        })
    }

    /// An input of a connection, which returns these bytes in one read.
    pub(crate) fn of(input: Vec<u8>, wait: Duration) -> PieceIn
        ensures { result ≡ record {
          left = input.items;
          piece = usize.MAX;
          fails_after = None;
          tally = no_calls;
          wait = Some (as_nanos wait);
        } }
    {
        PieceIn {
            input,
            read: 0,
            piece: usize::MAX,
            fails_after: None,
            tally: Tally::new(),
            wait: Some(wait),
        }
    }
}

impl Input for PieceIn {
    ghost input_state = { pieces_as_input };

    /// As many bytes as are left, fit into the room and are allowed by the piece.
    fn read(&mut self, room: &mut [u8]) -> Result<usize, Failed>
        requires { 0 < length room.old }
        ensures within { IfOk result (λ n. n ≤ length room.new) }
        ensures read { IfOk result
            (λ n. Receives (pieces_as_input self.old) (take n room.new) n (pieces_as_input self.new)) }
        ensures end { IfOk result (λ n. n ≡ 0 → IsAtEnd (Some self.old.left)) }
        ensures failed { OnErr result (pieces_as_input self.new ≡ after_failed_read (pieces_as_input self.old)) }

        ensures count { IfOk result (λ n. n ≡ min (length room.old) (min self.old.piece (length self.old.left))) }
        ensures piece { self.new.piece ≡ self.old.piece }
        ensures fails { IsErr result ↔ (self.old.fails_after ≡ Some 0) }
        ensures after { self.new.fails_after ≡ after_call self.old.fails_after }
    {
        if call(&mut self.fails_after).is_err() {
            self.tally.fail();
            return Err(Failed);
        }
        let left = &self.input[self.read..];
        let n = copy_front(room, &left[..self.piece.min(left.len())]);
        self.read += n;
        self.tally.add(n);
        Ok(n)
    }
}

/// An output that keeps what is written, and accepts at most a piece in each write.
#[derive(Drop)]
pub struct PieceOut {
    output: Vec<u8>,
    piece: usize,
    fails_after: Option<usize>,
    tally: Tally,
    wait: Option<Duration>,
}

impl Model for PieceOut {
    ghost use Rattle.std.specs.Prelude.{◌<◌};
    ghost use Rattle.std.specs.Option.{option_map};
    ghost use Rattle.std.specs.Duration.{as_nanos};
    ghost use Rattle.streams_in_memory.specs.InMemory.{PieceOutValue};

    ghost Value = { PieceOutValue };

    ghost view = { λ stream. record {
      written = stream.output.items;
      piece = stream.piece;
      fails_after = stream.fails_after;
      tally = stream.tally;
      wait = option_map as_nanos stream.wait;
    } };

    ghost invariant = { λ stream. 0 < stream.piece };
}

/// How many bytes an output has room for before it grows.
const FIRST_ROOM: usize = 256;

impl PieceOut {
    /// An output that accepts at most `piece` bytes in each write. Write number `fail_at`, counted from 0, fails, and
    /// so does one whose allocation fails. The error is a failed allocation for the first bytes.
    pub fn new(alloc: Global, piece: usize, fail_at: Option<usize>) -> Result<PieceOut, AllocError>
        requires { 0 < piece }
        ensures { IfOk result
            (λ stream. stream ≡ record {
              written = [];
              piece = piece;
              fails_after = fail_at;
              tally = no_calls;
              wait = None;
            }) }
    {
        Ok(PieceOut {
            output: Vec::with_capacity(alloc, FIRST_ROOM)?,
            piece,
            fails_after: fail_at,
            tally: Tally::new(),
            wait: None,
        })
    }

    /// An output of a connection, which accepts all bytes in one write.
    pub(crate) fn of(alloc: Global, wait: Duration) -> PieceOut
        ensures { result ≡ record {
          written = [];
          piece = usize.MAX;
          fails_after = None;
          tally = no_calls;
          wait = Some (as_nanos wait);
        } }
    {
        PieceOut {
            output: Vec::new(alloc),
            piece: usize::MAX,
            fails_after: None,
            tally: Tally::new(),
            wait: Some(wait),
        }
    }

    /// What was written.
    pub fn written(&self) -> &[u8]
        ensures { result.now ≡ self.now.written }
    {
        self.output.as_slice()
    }

    /// What was written, as an owned value.
    pub(crate) fn into_written(self) -> Vec<u8>
        ensures { result.items ≡ self.written }
    {
        let PieceOut { output, .. } = self;
        output
    }
}

impl Output for PieceOut {
    ghost output_state = { pieces_as_output };

    fn write(&mut self, bytes: &[u8]) -> Result<usize, Failed>
        ensures within { IfOk result (λ n. n ≤ length bytes.now) }
        ensures some { IfOk result (λ n. 0 < length bytes.now → 0 < n) }
        ensures written { IfOk result
            (λ n. Sends (pieces_as_output self.old) (take n bytes.now) n (pieces_as_output self.new)) }
        ensures failed { OnErr result (pieces_as_output self.new ≡ after_failed_write (pieces_as_output self.old)) }

        ensures count { IfOk result (λ n. n ≡ min self.old.piece (length bytes.now)) }
        ensures piece { self.new.piece ≡ self.old.piece }
        ensures fails { self.old.fails_after ≡ Some 0 → IsErr result }
        ensures after { self.new.fails_after ≡ after_call self.old.fails_after }
    {
        if call(&mut self.fails_after).is_err() {
            self.tally.fail();
            return Err(Failed);
        }
        let n = self.piece.min(bytes.len());
        match self.output.extend_from_slice(&bytes[..n]) {
            Ok(()) => {
                self.tally.add(n);
                Ok(n)
            }
            Err(_) => {
                self.tally.fail();
                Err(Failed)
            }
        }
    }
}
