//! A text is written whole to an output that accepts one byte a call; an output that fails has a beginning of it.

use files::write_text;
use std::alloc::{AllocError, Global};
use std::io::{self, ErrorKind, Write};

/// An output that accepts one byte a call, each after a call that a signal interrupts. With no room left it fails with
/// an error of this kind, or else accepts nothing.
#[derive(Drop)]
struct SlowOutput {
    received: Vec<u8>,
    room: usize,
    failure: Option<ErrorKind>,
    is_interrupted: bool,
}

impl Write for SlowOutput {
    fn write(&mut self, bytes: &[u8]) -> io::Result<usize> {
        self.is_interrupted = !self.is_interrupted;
        if self.is_interrupted {
            return Err(io::Error::from(ErrorKind::Interrupted));
        }
        if self.received.len() < self.room {
            let Some(byte) = bytes.first() else {
                return Ok(0);
            };
            self.received.push(*byte)?;
            return Ok(1);
        }
        match self.failure {
            Some(kind) => Err(io::Error::from(kind)),
            None => Ok(0),
        }
    }

    fn flush(&mut self) -> io::Result<()> {
        Ok(())
    }
}

const LINE: &str = "listening 127.0.0.1:8080\n";

/// The room of the output, the kind of its failure, the kind of the error, and what the output has received.
const WRITTEN: [(usize, Option<ErrorKind>, Option<ErrorKind>, &str); 5] = [
    (25, Some(ErrorKind::BrokenPipe), None, LINE),
    (
        24,
        None,
        Some(ErrorKind::WriteZero),
        "listening 127.0.0.1:8080",
    ),
    (
        9,
        Some(ErrorKind::BrokenPipe),
        Some(ErrorKind::BrokenPipe),
        "listening",
    ),
    (
        1,
        Some(ErrorKind::WouldBlock),
        Some(ErrorKind::WouldBlock),
        "l",
    ),
    (0, None, Some(ErrorKind::WriteZero), ""),
];

/// Whether writing to such an output has this error, and the output has then received this.
fn writes(
    alloc: Global,
    output: (usize, Option<ErrorKind>),
    expected: (Option<ErrorKind>, &str),
) -> Result<bool, AllocError> {
    let mut output = SlowOutput {
        received: Vec::with_capacity(alloc, LINE.len())?,
        room: output.0,
        failure: output.1,
        is_interrupted: false,
    };
    let error = write_text(&mut output, LINE).err().map(|e| e.kind());
    let received = output.received.as_slice();
    Ok((error, received) == (expected.0, expected.1.as_bytes()))
}

#[test]
fn outputs_have_a_beginning(rt: HostRuntime) -> Result<(), AllocError> {
    for (room, failure, expected, received) in WRITTEN {
        let is_so = writes(rt.alloc(), (room, failure), (expected, received))?;
        assert!(rt; is_so, "{room}");
    }
    Ok(())
}
