//! The writing of a whole reply.

ghost use Rattle.std.specs.Prelude.{◌<◌, ◌++◌, length, take, IfErr, OnOk};
ghost use Rattle.http_streams.specs.Streams.{Sends, SendsInPart};

use crate::stream::{Failed, Output};

/// Writes all of the bytes, in several writes if necessary. If a write fails, the error is the number of bytes that
/// were written before.
pub fn write_all<O: Output>(output: &mut O, bytes: &[u8]) -> Result<(), usize>
    ensures all { OnOk result (Sends (O.output_state output.old) bytes.now (length bytes.now)
        (O.output_state output.new)) }
    ensures first { IfErr result (λ n. SendsInPart (O.output_state output.old) (take n bytes.now) n
        (O.output_state output.new)) }
    ensures in_part { IfErr result (λ n. n < length bytes.now) }
{
    let mut sent: usize = 0;
    while sent < bytes.len() {
        match output.write(&bytes[sent..]) {
            Ok(n) => sent += n,
            Err(Failed) => return Err(sent),
        }
    }
    Ok(())
}

/// Writes all of `first` and then all of `second`, without joining them. The result is that of [`write_all`] for the
/// joined bytes.
pub fn write_both<O: Output>(output: &mut O, first: &[u8], second: &[u8]) -> Result<(), usize>
    ensures all { OnOk result (Sends (O.output_state output.old) (first.now ++ second.now)
        (length (first.now ++ second.now)) (O.output_state output.new)) }
    ensures front { IfErr result
        (λ n. SendsInPart (O.output_state output.old) (take n (first.now ++ second.now)) n
        (O.output_state output.new)) }
    ensures in_part { IfErr result (λ n. n < length (first.now ++ second.now)) }
{
    write_all(output, first)?;
    match write_all(output, second) {
        Ok(()) => Ok(()),
        Err(sent) => Err(first.len() + sent),
    }
}
