//! Single calls of a reader or a writer. A call that a signal interrupts is made again; over a socket, each of them has
//! the whole time-out.

ghost use Rattle.std.specs.Prelude.{◌<◌, IfOk};
ghost use Rattle.std.specs.Io.{ReadsAtMost, WritesAtMost};
ghost use Rattle.std.specs.Io.KnownBytes.{ReadConsumes, WriteAppends};

use crate::stream::Failed;
use std::io::{ErrorKind, Read, Write};

/// The first call, and 16 more.
const MAX_ATTEMPTS: usize = 17;

/// One read.
pub(crate) fn read_from<R: Read>(reader: &mut R, room: &mut [u8]) -> Result<usize, Failed>
    ensures within { ReadsAtMost result room.new }
    ensures read { ReadConsumes (R.remaining reader.old) (R.remaining reader.new) result room.new }
{
    for _attempt in 0..MAX_ATTEMPTS {
        match reader.read(room) {
            Err(e) if e.kind() == ErrorKind::Interrupted => {}
            Err(_) => return Err(Failed),
            Ok(n) => return Ok(n),
        }
    }
    Err(Failed)
}

/// One write. A write of no bytes counts as failed, since it would be repeated for ever.
pub(crate) fn write_to<W: Write>(writer: &mut W, bytes: &[u8]) -> Result<usize, Failed>
    ensures within { WritesAtMost result bytes.now }
    ensures some { IfOk result (λ n. 0 < n) }
    ensures written { WriteAppends (W.contents writer.old) (W.contents writer.new) result bytes.now }
{
    for _attempt in 0..MAX_ATTEMPTS {
        match writer.write(bytes) {
            Err(e) if e.kind() == ErrorKind::Interrupted => {}
            Ok(0) | Err(_) => return Err(Failed),
            Ok(n) => return Ok(n),
        }
    }
    Err(Failed)
}
