//! Calls that fail when a test says so, and the copying of bytes that all streams over memory share.

ghost use Rattle.std.specs.Prelude.{◌≡◌, ◌↔◌, IsErr, Some, length, take, min};
ghost use Rattle.streams_in_memory.specs.InMemory.{after_call};

use http_streams::Failed;

/// Counts a call; it fails if it is the one with the number `fails_after`, counted from 0.
pub(crate) fn call(fails_after: &mut Option<usize>) -> Result<(), Failed>
    ensures fails { IsErr result ↔ (fails_after.old ≡ Some 0) }
    ensures after { fails_after.new ≡ after_call fails_after.old }
{
    match *fails_after {
        None => Ok(()),
        Some(0) => {
            *fails_after = None;
            Err(Failed)
        }
        Some(calls) => {
            *fails_after = Some(calls - 1);
            Ok(())
        }
    }
}

/// Copies as many of the first bytes as fit to the beginning of the room, and returns how many.
pub(crate) fn copy_front(room: &mut [u8], bytes: &[u8]) -> usize
    ensures count { result ≡ min (length room.old) (length bytes.now) }
    ensures bytes { take result room.new ≡ take result bytes.now }
{
    let n = room.len().min(bytes.len());
    room[..n].copy_from_slice(&bytes[..n]);
    n
}
