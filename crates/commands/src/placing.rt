//! Files that a command writes.

ghost use Rattle.std.specs.Prelude.{◌≡◌, IfOk, length, string_bytes};
ghost use Rattle.answers.specs.Results.{text_result};
ghost use Rattle.commands.specs.Placing.{Places, count_line};

use crate::fault::{Answer, Fault};
use answers::Refusal;
use files::{FileError, Files, place};
use std::alloc::{AllocError, Global};

/// Places a file of these bytes at the path, and returns the line with their number. The file is written to `PATH.new`,
/// which must not exist, and then renamed.
pub(crate) fn place_counted<'a, F: Files>(
    alloc: Global,
    files: &mut F,
    path: &'a str,
    bytes: &[u8],
) -> Answer<'a>
    ensures { Places F.at F.mode_at F.fails F.runs_out files.old files.new path.entry bytes.now (text_result result) }
{
    // The line is made first, so that no allocation can fail once the file is placed.
    let line = bytes_line(alloc, bytes.len())?;
    match place(alloc, files, path, bytes) {
        Ok(()) => Ok(line),
        Err(FileError::Failed) => Err(Fault::Device(path)),
        Err(FileError::NoMemory) => Err(Fault::Refused(Refusal::Memory)),
    }
}

/// The line that says how many bytes a file has.
fn bytes_line(alloc: Global, count: usize) -> Result<String, AllocError>
    ensures { IfOk result (λ line. string_bytes line ≡ count_line count) }
{
    format!(in alloc; "{count} bytes\n")
}
