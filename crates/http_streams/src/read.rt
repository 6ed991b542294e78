//! The reading of a head.

ghost use Rattle.std.specs.Prelude.{◌≡◌, ◌<◌, ◌≤◌, ◌+◌, ℕ, List, Err, IfOk, OnErr, drop, length, take, vec_capacity};
ghost use Rattle.http_streams.specs.HeadReading.{IsReadInPart, IsReadWhole};
ghost use Rattle.http_streams.specs.Streams.{Receives, IsAtEnd, after_failed_read};
ghost use Rattle.http_streams.specs.declared.error.HeadError.TheVariants as head_error;

use crate::error::HeadError;
use crate::progress::Progress;
use crate::stream::{Failed, Input};
use std::alloc::Global;

/// The maximum number of bytes that are read of a request.
pub const MAX_HEAD_BYTES: usize = 16_384;

/// Most heads fit into this number of bytes. The buffer has the memory for the maximum, but its rest is filled with
/// zeros only for longer heads.
const USUAL_HEAD_BYTES: usize = 2_048;

/// One read into the buffer, after its first `filled` bytes.
fn read_more<I: Input>(input: &mut I, room: &mut Vec<u8>, filled: usize) -> Result<usize, Failed>
    requires { filled < length room.old.items }
    ensures within { IfOk result (λ n. filled + n ≤ length room.new.items) }
    ensures len { length room.new.items ≡ length room.old.items }
    ensures capacity { vec_capacity room.new ≡ vec_capacity room.old }
    ensures kept { take filled room.new.items ≡ take filled room.old.items }
    ensures read { IfOk result (λ n. Receives (I.input_state input.old) (take n (drop filled room.new.items)) n
        (I.input_state input.new)) }
    ensures end { IfOk result (λ n. n ≡ 0 → IsAtEnd (I.input_state input.old).left) }
    ensures failed { OnErr result (I.input_state input.new ≡ after_failed_read (I.input_state input.old)) }
{
    input.read(&mut room[filled..])
}

/// Widens the buffer to `most` bytes if it has no room after its first `filled` bytes.
fn widen(room: &mut Vec<u8>, filled: usize, most: usize)
    requires more { filled < most }
    requires filled { filled ≤ length room.old.items }
    requires within { length room.old.items ≤ most }
    requires capacity { most ≤ vec_capacity room.old }
    ensures kept { take filled room.new.items ≡ take filled room.old.items }
    ensures more { filled < length room.new.items }
    ensures within { length room.new.items ≤ most }
    ensures capacity { most ≤ vec_capacity room.new }
{
    if filled == room.len() {
        room.resize(most, 0).unwrap();
    }
}

/// Reads into the buffer until an empty line ends the head, the input ends or `most` bytes have come, and returns the
/// number of bytes.
fn fill<I: Input>(input: &mut I, room: &mut Vec<u8>, most: usize) -> Result<usize, Failed>
    requires within { length room.old.items ≤ most }
    requires capacity { most ≤ vec_capacity room.old }
    ensures within { IfOk result (λ n. n ≤ length room.new.items) }
    ensures whole { IfOk result
        (λ n. IsReadWhole most (I.input_state input.old) (take n room.new.items) (I.input_state input.new)) }
    ensures in_part { OnErr result
        ((bytes : List ℕ) × IsReadInPart most (I.input_state input.old) bytes (I.input_state input.new)) }
{
    let mut filled: usize = 0;
    let mut progress = Progress::BeforeText;
    while filled < most && !progress.is_done() {
        widen(room, filled, most);
        let n = read_more(input, room, filled)?;
        if n == 0 {
            return Ok(filled);
        }
        progress = progress.after_all(&room[filled..filled + n]);
        filled += n;
    }
    Ok(filled)
}

/// The same into a new buffer, whose memory is taken first.
fn read_up_to<I: Input>(alloc: Global, input: &mut I, most: usize) -> Result<Vec<u8>, HeadError>
    ensures whole { IfOk result (λ head. IsReadWhole most (I.input_state input.old) head.items
        (I.input_state input.new)) }
    ensures in_part { result ≡ Err head_error.Failed
        → ((bytes : List ℕ) × IsReadInPart most (I.input_state input.old) bytes (I.input_state input.new)) }
    ensures no_memory { result ≡ Err head_error.NoMemory → I.input_state input.new ≡ I.input_state input.old }
{
    let mut room = Vec::with_capacity(alloc, most)?;
    room.resize(most.min(USUAL_HEAD_BYTES), 0)?;
    let filled = fill(input, &mut room, most)?;
    room.truncate(filled);
    Ok(room)
}

/// Reads until an empty line ends the head, the input ends, or [`MAX_HEAD_BYTES`] bytes have come, and returns what was
/// read. Bytes after the head that came with its last ones are included.
///
/// The error is `NoMemory` before anything is read, or `Failed` if a read fails.
pub fn read_head<I: Input>(alloc: Global, input: &mut I) -> Result<Vec<u8>, HeadError>
    ensures whole { IfOk result
        (λ head. IsReadWhole MAX_HEAD_BYTES (I.input_state input.old) head.items (I.input_state input.new)) }

    // A read failed before the head was complete.
    ensures in_part { result ≡ Err head_error.Failed
        → ((bytes : List ℕ) × IsReadInPart MAX_HEAD_BYTES (I.input_state input.old) bytes (I.input_state input.new)) }

    ensures no_memory { result ≡ Err head_error.NoMemory → I.input_state input.new ≡ I.input_state input.old }
    ensures limit { MAX_HEAD_BYTES ≡ 16384 }
{
    read_up_to(alloc, input, MAX_HEAD_BYTES)
}
