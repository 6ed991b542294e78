//! Writing a whole text to an output.

ghost use Rattle.std.specs.Prelude.{◌≢◌, IfErr, OnErr, OnOk};
ghost use Rattle.std.specs.Io.KnownBytes.{Appends};
ghost use Rattle.std.specs.IoError.{error_kind};
ghost use Rattle.files.specs.Writing.{IsWrittenInPart};

use std::io::{self, ErrorKind, Write};

/// Writes all of the text. After an error the output has received a beginning of it, perhaps nothing.
///
/// A write that a signal interrupts is tried again. `WriteZero` if the output accepts no byte.
pub fn write_text<W: Write>(output: &mut W, text: &str) -> io::Result<()>
    ensures ok { OnOk result (Appends (W.contents output.old) (W.contents output.new) text.now) }
    ensures err { OnErr result (IsWrittenInPart (W.contents output.old) (W.contents output.new) text.now) }
    ensures retried { IfErr result (λ e. error_kind e ≢ ErrorKind.Interrupted) }
{
    let mut rest = text.as_bytes();
    // A bound, since each function must end.
    for _ in 0..u64::MAX {
        if rest.is_empty() {
            return Ok(());
        }
        match output.write(rest) {
            Ok(0) => return Err(io::Error::from(ErrorKind::WriteZero)),
            Ok(n) => rest = &rest[n..],
            Err(e) if e.kind() == ErrorKind::Interrupted => {}
            Err(e) => return Err(e),
        }
    }
    Err(io::Error::from(ErrorKind::TimedOut))
}
