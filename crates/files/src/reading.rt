//! Reading a whole file, up to a limit.

ghost use Rattle.std.specs.Prelude.{◌≡◌, ◌≤◌, ◌<◌, ◌+◌, ◌^◌, Err, IfOk, length};
ghost use Rattle.files.specs.Found.{Absent, Gives, IsLong};
ghost use Rattle.files.specs.Changes.{Unchanged};
ghost use Rattle.files.specs.declared.call.FileCall.TheVariants.{Read};
ghost use Rattle.files.specs.declared.error.FileError.TheVariants.{Failed, NoMemory};
ghost use Rattle.files.specs.declared.error.ReadError.TheVariants.{TooLong, File};

use crate::error::ReadError;
use crate::files::Files;
use std::alloc::Global;

/// Reads all bytes of the file at the path, if they are not more than `limit`. Of a longer file, `limit` + 1 bytes are
/// read into memory.
pub fn read_whole<F: Files>(
    alloc: Global,
    files: &mut F,
    path: &str,
    limit: usize,
) -> Result<Vec<u8>, ReadError>
    requires { limit + 1 < 2 ^ 63 }
    ensures whole { IfOk result (λ bytes. Gives (F.at files.old path.now) bytes.items) }
    ensures short { IfOk result (λ bytes. length bytes.items ≤ limit) }
    ensures too_long { result ≡ Err TooLong → IsLong limit (F.at files.old path.now) }
    ensures absent { F.at files.old path.now ≡ Absent → result ≡ Err (File Failed) }
    ensures same { Unchanged (F.at files.old) (F.at files.new) }
    ensures failed { result ≡ Err (File Failed) → F.fails files.old Read path.now files.new }
    ensures ran_out { result ≡ Err (File NoMemory) → F.runs_out files.old Read path.now files.new }
{
    let front = files.read(alloc, path, limit)?;
    if front.len() > limit {
        return Err(ReadError::TooLong);
    }
    Ok(front)
}
