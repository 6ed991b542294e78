//! The streams that a server reads from and writes to.

ghost use Rattle.std.specs.Prelude.{◌≡◌, ◌<◌, ◌≤◌, length, take, IfOk, OnErr};
ghost use Rattle.http_streams.specs.Streams.{InputState, Receives, IsAtEnd, OutputState};
ghost use Rattle.http_streams.specs.Streams.{Sends, after_failed_read, after_failed_write};

use thiserror::Error;

/// A read or a write failed.
#[derive(Clone, Copy, Debug, PartialEq, Eq, Error)]
#[error("the stream failed")]
pub struct Failed;

/// A stream of bytes to read.
pub trait Input {
    /// What contracts see: how many bytes were read, how many reads have failed, and the bytes if the implementer
    /// reveals them. [`Tally`](crate::Tally) counts bytes and failures.
    ghost input_state: { Self → InputState };

    /// Reads the next bytes to the beginning of `room`, and returns how many there are; 0 means the end of the input.
    /// What follows them in `room`, or all of it after a failure, is unspecified.
    fn read(&mut self, room: &mut [u8]) -> Result<usize, Failed>
        requires { 0 < length room.old }
        ensures within { IfOk result (λ n. n ≤ length room.new) }
        ensures read { IfOk result (λ n. Receives (input_state self.old) (take n room.new) n (input_state self.new)) }
        ensures end { IfOk result (λ n. n ≡ 0 → IsAtEnd (input_state self.old).left) }
        ensures failed { OnErr result (input_state self.new ≡ after_failed_read (input_state self.old)) };
}

/// A stream of bytes to write.
pub trait Output {
    /// What contracts see: how many bytes were written, how many writes have failed, and the bytes if the implementer
    /// reveals them.
    ghost output_state: { Self → OutputState };

    /// Writes some bytes from the beginning of `bytes`, and returns how many: at least one, if there is one.
    fn write(&mut self, bytes: &[u8]) -> Result<usize, Failed>
        ensures within { IfOk result (λ n. n ≤ length bytes.now) }
        ensures some { IfOk result (λ n. 0 < length bytes.now → 0 < n) }
        ensures written { IfOk result (λ n. Sends (output_state self.old) (take n bytes.now) n
            (output_state self.new)) }
        ensures failed { OnErr result (output_state self.new ≡ after_failed_write (output_state self.old)) };
}
