//! Streams, and the reading of a head.

use crate::shared::REQUEST;
use http_streams::{Failed, HeadError, Input, MAX_HEAD_BYTES, Output, read_head, write_both};
use std::alloc::{AllocError, Global};
use std::test::Fail;
use streams_in_memory::{PieceIn, PieceOut, Tape};

/// How many of these bytes are read as a head, at most `piece` at a time, if read number `fail_at` fails; `usize::MAX`
/// if other bytes are read.
fn count_read(
    alloc: Global,
    bytes: &[u8],
    piece: usize,
    fail_at: Option<usize>,
) -> Result<usize, HeadError> {
    let mut input = PieceIn::new(alloc, bytes, piece.max(1), fail_at)?;
    let head = read_head(alloc, &mut input)?;
    if !bytes.starts_with(&head) {
        return Ok(usize::MAX);
    }
    Ok(head.len())
}

/// Bytes, how many are read at a time, which read fails, and how many bytes are read as a head.
const READ: [(&[u8], usize, Option<usize>, usize); 18] = [
    (REQUEST, 1, None, 28),
    (REQUEST, 2, None, 28),
    (REQUEST, 3, None, 28),
    (REQUEST, 28, None, 28),
    // Nothing is read after the head, or after the end of the input.
    (REQUEST, 1, Some(28), 28),
    (b"a", 1, Some(2), 1),
    (b"", 1, None, 0),
    (b"a", 1, None, 1),
    (b"a\n\nb", 1, None, 3),
    (b"a\n\r\nb", 1, None, 4),
    (b"a\r\n\r\nb", 1, None, 5),
    (b"a\r\n\nb", 1, None, 4),
    (b"a\n\rb\n\nc", 1, None, 6),
    (b"a\r\r\nb", 1, None, 5),
    (b"a\n\r\r\nb", 1, None, 6),
    (b"\n\n\r\n\r\n", 1, None, 6),
    (b"\r\n\na\nb\n\nc", 1, None, 8),
    (b"a\nb\nc\n", 1, None, 6),
];

#[test]
fn reads_a_head_in_pieces_and_nothing_more(rt: HostRuntime) {
    for (bytes, piece, fail_at, count) in READ {
        let read = count_read(rt.alloc(), bytes, piece, fail_at);
        assert_eq!(rt; read, Ok(count), "{piece} of {bytes:?}");
    }
}

#[test]
fn a_head_may_fail_at_each_read(rt: HostRuntime) {
    for fail_at in 0..28 {
        let read = count_read(rt.alloc(), REQUEST, 1, Some(fail_at));
        assert_eq!(rt; read, Err(HeadError::Failed), "at {fail_at}");
    }
}

/// How many of these bytes, which are no head, are read, and how many after them.
fn read_all(alloc: Global, bytes: &[u8], piece: usize) -> Result<(usize, Option<usize>), Fail> {
    let mut input = PieceIn::new(alloc, bytes, piece.max(1), None)?;
    let count = read_head(alloc, &mut input)?.len();
    Ok((count, input.read(&mut [0; 4]).ok()))
}

#[test]
fn leaves_what_is_no_head(rt: HostRuntime) -> Result<(), Fail> {
    let bytes = vec![in rt.alloc(); b'x'; MAX_HEAD_BYTES + 1]?;
    for piece in [1000, MAX_HEAD_BYTES + 1] {
        assert_eq!(rt; read_all(rt.alloc(), &bytes, piece)?, (16_384, Some(1)));
    }
    Ok(())
}

/// What is written, in two parts.
const DIGITS: &[u8; 10] = b"0123456789";

/// What is written after them, in one piece.
const MUCH: &[u8; 1_000] = &[b'x'; 1_000];

/// Whether writing the digits in two parts, at most `piece` bytes at a time, has this result and leaves the first
/// `written` bytes, if write number `fail_at` fails. The next write succeeds, with a whole piece.
fn go_out(
    alloc: Global,
    piece: usize,
    fail_at: Option<usize>,
    expected: Result<(), usize>,
    written: usize,
) -> Result<bool, AllocError> {
    let mut output = PieceOut::new(alloc, piece.max(1), fail_at)?;
    let (first, rest) = DIGITS.split_at(4);
    let is_expected = write_both(&mut output, first, rest) == expected;
    let is_written = output.written() == &DIGITS[..written.min(10)];
    let much = &MUCH[..piece.min(1_000)];
    let takes_much = output.write(much) == Ok(piece) && output.written().ends_with(much);
    Ok(is_expected && is_written && takes_much)
}

/// How many bytes are written at a time, which write fails, the result, and how many bytes are written.
const WRITTEN: [(usize, Option<usize>, Result<(), usize>, usize); 7] = [
    (1, None, Ok(()), 10),
    (3, None, Ok(()), 10),
    (10, None, Ok(()), 10),
    (11, None, Ok(()), 10),
    (1_000, None, Ok(()), 10),
    (4, Some(2), Err(8), 8),
    (3, Some(3), Err(7), 7),
];

#[test]
fn writes_in_pieces_up_to_a_failure(rt: HostRuntime) -> Result<(), Fail> {
    for (piece, fail_at, expected, written) in WRITTEN {
        let went = go_out(rt.alloc(), piece, fail_at, expected, written)?;
        assert!(rt; went, "in pieces of {piece}");
    }
    for fail_at in 0..10 {
        let went = go_out(rt.alloc(), 1, Some(fail_at), Err(fail_at), fail_at)?;
        assert!(rt; went, "at {fail_at}");
    }
    Ok(())
}

/// What reads of two bytes from a tape return, what they read, and what is written after each.
const TAPE: [(Result<usize, Failed>, &[u8], &[u8]); 3] = [
    (Ok(2), b"ab", b"one"),
    (Ok(1), b"c", b"two"),
    (Ok(0), b"", b""),
];

/// Whether the tape gives and takes so.
fn goes(tape: &mut Tape, step: (Result<usize, Failed>, &[u8], &[u8])) -> bool {
    let (count, read, written) = step;
    let mut room = [0; 2];
    tape.read(&mut room) == count
        && room.starts_with(read)
        && tape.write(written) == Ok(written.len())
}

#[test]
fn tapes_give_and_take(rt: HostRuntime) -> Result<(), Fail> {
    let mut tape = Tape::new(rt.alloc(), b"abc")?;
    for step in TAPE {
        assert!(rt; goes(&mut tape, step));
    }
    assert_eq!(rt; tape.written(), b"onetwo".as_slice());
    Ok(())
}

/// What reads of eight bytes in pieces of two return, if the second fails, and what they read.
const READS: [(Result<usize, Failed>, &[u8]); 3] = [
    (Ok(2), b"ab"),
    (Err(Failed), b""),
    (Ok(1), b"c"),
];

#[test]
fn a_read_that_fails_takes_nothing(rt: HostRuntime) -> Result<(), Fail> {
    let mut input = PieceIn::new(rt.alloc(), b"abc", 2, Some(1))?;
    for (count, read) in READS {
        let mut room = [0; 8];
        assert!(rt;
            input.read(&mut room) == count && room.starts_with(read),
            "{read:?}"
        );
    }
    Ok(())
}
