//! A stream over memory.

ghost use Rattle.std.specs.Prelude.{◌≡◌, ◌<◌, ◌≤◌, [], Some, IfOk, OnErr, length, min, take};
ghost use Rattle.http_streams.specs.Streams.{Receives, IsAtEnd, Sends, after_failed_read, after_failed_write};
ghost use Rattle.streams_in_memory.specs.InMemory.{tape_as_input, no_calls, tape_as_output};

use crate::fault::copy_front;
use http_streams::{Failed, Input, Output, Tally};
use std::alloc::{AllocError, Global};
use std::marker::Model;

/// Bytes to read, and the bytes that were written. It reads and writes all that is requested, and a write fails only if
/// an allocation fails.
#[derive(Drop)]
pub struct Tape {
    input: Vec<u8>,
    read: usize,
    output: Vec<u8>,
    reads: Tally,
    writes: Tally,
}

impl Model for Tape {
    ghost use Rattle.std.specs.Prelude.{◌≤◌, drop, vec_len};
    ghost use Rattle.streams_in_memory.specs.InMemory.{TapeValue};

    ghost Value = { TapeValue };

    ghost view = { λ tape. record {
      left = drop tape.read tape.input.items;
      written = tape.output.items;
      reads = tape.reads;
      writes = tape.writes;
    } };

    ghost invariant = { λ tape. tape.read ≤ vec_len tape.input };
}

impl Tape {
    /// A tape with these bytes to read, and nothing written. The error is a failed allocation.
    pub fn new(alloc: Global, bytes: &[u8]) -> Result<Tape, AllocError>
        ensures { IfOk result
            (λ tape. tape ≡ record { left = bytes.now; written = []; reads = no_calls; writes = no_calls }) }
    {
        Ok(Tape {
            input: Vec::from_slice(alloc, bytes)?,
            read: 0,
            output: Vec::new(alloc),
            reads: Tally::new(),
            writes: Tally::new(),
        })
    }

    /// What was written.
    pub fn written(&self) -> &[u8]
        ensures { result.now ≡ self.now.written }
    {
        self.output.as_slice()
    }
}

impl Input for Tape {
    ghost use Rattle.std.specs.Prelude.{Ok};
    ghost use Rattle.streams_in_memory.specs.InMemory.{tape_as_input};

    ghost input_state = { tape_as_input };

    /// As many bytes as are left and fit into the room.
    fn read(&mut self, room: &mut [u8]) -> Result<usize, Failed>
        requires { 0 < length room.old }
        ensures within { IfOk result (λ n. n ≤ length room.new) }
        ensures read { IfOk result (λ n. Receives (tape_as_input self.old) (take n room.new) n
            (tape_as_input self.new)) }
        ensures end { IfOk result (λ n. n ≡ 0 → IsAtEnd (Some self.old.left)) }
        ensures failed { OnErr result (tape_as_input self.new ≡ after_failed_read (tape_as_input self.old)) }

        ensures count { result ≡ Ok (min (length room.old) (length self.old.left)) }
        ensures written { self.new.written ≡ self.old.written }
        ensures writes { self.new.writes ≡ self.old.writes }
    {
        let n = copy_front(room, &self.input[self.read..]);
        self.read += n;
        self.reads.add(n);
        Ok(n)
    }
}

impl Output for Tape {
    ghost use Rattle.streams_in_memory.specs.InMemory.{tape_as_output};

    ghost output_state = { tape_as_output };

    /// All of the bytes.
    fn write(&mut self, bytes: &[u8]) -> Result<usize, Failed>
        ensures within { IfOk result (λ n. n ≤ length bytes.now) }
        ensures some { IfOk result (λ n. 0 < length bytes.now → 0 < n) }
        ensures written { IfOk result
            (λ n. Sends (tape_as_output self.old) (take n bytes.now) n (tape_as_output self.new)) }
        ensures failed { OnErr result (tape_as_output self.new ≡ after_failed_write (tape_as_output self.old)) }

        ensures all { IfOk result (λ n. n ≡ length bytes.now) }
        ensures left { self.new.left ≡ self.old.left }
        ensures reads { self.new.reads ≡ self.old.reads }
    {
        match self.output.extend_from_slice(bytes) {
            Ok(()) => {
                self.writes.add(bytes.len());
                Ok(bytes.len())
            }
            Err(_) => {
                self.writes.fail();
                Err(Failed)
            }
        }
    }
}
