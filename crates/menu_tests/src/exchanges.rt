//! Exchanges with peers that send and receive a few bytes at a time, or fail.

use crate::shared::{REPLY, REQUEST};
use http_front::{ServeError, Served, serve_one};
use registry::Registry;
use std::alloc::{AllocError, Global};
use std::test::Fail;
use streams_in_memory::{PieceIn, PieceOut};

/// Whether the exchange of the request ends so, with the first `written` bytes of the reply, if the input reads and the
/// output writes `piece` bytes at a time, and they fail at the given calls.
fn exchanges(
    alloc: Global,
    piece: usize,
    fails: (Option<usize>, Option<usize>),
    expected: Result<Served, ServeError>,
    written: usize,
) -> Result<bool, AllocError> {
    let registry = Registry::new(alloc);
    let mut input = PieceIn::new(alloc, REQUEST, piece.max(1), fails.0)?;
    let mut output = PieceOut::new(alloc, piece.max(1), fails.1)?;
    let served = serve_one(alloc, &mut input, &mut output, &registry);
    Ok(served == expected && output.written() == &REPLY[..written.min(116)])
}

#[test]
fn in_pieces(rt: HostRuntime) -> Result<(), Fail> {
    let replied = Ok(Served::Replied(404));
    // After 28 reads of a byte the head has ended, and no more are made.
    for (piece, fail_at) in [(1, None), (2, None), (3, None), (28, None), (1, Some(28))] {
        let ends = exchanges(rt.alloc(), piece, (fail_at, None), replied, 116)?;
        assert!(rt; ends, "in pieces of {piece}");
    }
    Ok(())
}

#[test]
fn a_read_fails(rt: HostRuntime) -> Result<(), Fail> {
    for fail_at in 0..28 {
        let fault = Err(ServeError::ReadFault);
        let ends = exchanges(rt.alloc(), 1, (Some(fail_at), None), fault, 0)?;
        assert!(rt; ends, "at {fail_at}");
    }
    Ok(())
}

#[test]
fn a_write_fails(rt: HostRuntime) -> Result<(), Fail> {
    for fail_at in 0..116 {
        let fault = Err(ServeError::WriteFault(fail_at));
        let ends = exchanges(rt.alloc(), 1, (None, Some(fail_at)), fault, fail_at)?;
        assert!(rt; ends, "at {fail_at}");
    }
    Ok(())
}

const PRINTED: [(ServeError, &str); 2] = [
    (ServeError::ReadFault, "ReadFault"),
    (ServeError::WriteFault(115), "WriteFault after 115 bytes"),
];

#[test]
fn faults_are_printed(rt: HostRuntime) -> Result<(), Fail> {
    for (fault, printed) in PRINTED {
        assert_eq!(rt; format!(in rt.alloc(); "{fault}")?.as_str(), printed);
    }
    Ok(())
}
