//! Exchanges with a peer that sends and receives one byte at a time.

use crate::allocate_last;
use http_front::{ServeError, Served, serve_one};
use registry::Registry;
use std::process::Abort;
use std::test::Fail;
use streams_in_memory::{PieceIn, PieceOut};

/// The reply if an allocation fails, and its head.
const UNAVAILABLE: &[u8] =
    b"HTTP/1.1 503 Service Unavailable\r\nContent-Type: text/plain; charset=utf-8\r\nContent-Length: 14\r\n\
    Connection: close\r\n\r\nout of memory\n";

/// How many bytes of that reply come before its body.
const HEAD: usize = UNAVAILABLE.len() - 14;

/// Requests, and the status, the reply, and how many bytes the reply has if an allocation fails while it is made.
const REQUESTS: [(&[u8], u16, &[u8], usize); 3] = [
    (
        b"GET /x HTTP/1.1\r\nHost: a\r\n\r\n",
        404,
        b"HTTP/1.1 404 Not Found\r\nContent-Type: text/plain; charset=utf-8\r\nContent-Length: 10\r\n\
        Connection: close\r\n\r\nnot found\n",
        HEAD + 14,
    ),
    (
        b"GET /openurl HTTP/1.0\r\n\r\n",
        200,
        b"HTTP/1.1 200 OK\r\nContent-Type: text/html; charset=utf-8\r\nContent-Length: 53\r\n\
        Connection: close\r\n\r\n<!DOCTYPE html>\n<title>Links</title>\n<p>No links</p>\n",
        HEAD + 14,
    ),
    (
        b"HEAD /openurl HTTP/1.0\r\n\r\n",
        200,
        b"HTTP/1.1 200 OK\r\nContent-Type: text/html; charset=utf-8\r\nContent-Length: 53\r\n\
        Connection: close\r\n\r\n",
        HEAD,
    ),
];

/// The reply is whole; or it has the status 503; or the output failed, and has the beginning of the reply.
fn exchanges<R: Abort + AllocGlobal>(
    rt: &R,
    request: &[u8],
    expected: (u16, &[u8], usize),
) -> Result<(), Fail> {
    let (status, reply, length) = expected;
    let registry = Registry::new(rt.alloc());
    let mut input = PieceIn::new(rt.alloc(), request, 1, None)?;
    let mut output = PieceOut::new(rt.alloc(), 1, None)?;
    match serve_one(rt.alloc(), &mut input, &mut output, &registry) {
        Ok(Served::Replied(503)) => {
            let written = output.written();
            // If there was no memory to read the head, the method is unknown.
            let is_head = written.len() == length && UNAVAILABLE.starts_with(written);
            assert!(rt; is_head || written == UNAVAILABLE);
            Err(Fail::new("reply: out of memory"))
        }
        Err(ServeError::WriteFault(sent)) => {
            assert_eq!(rt; output.written().len(), sent);
            assert!(rt; reply.starts_with(output.written()));
            Err(Fail::new("write: out of memory"))
        }
        served => {
            assert_eq!(rt; served, Ok(Served::Replied(status)));
            assert_eq!(rt; output.written(), reply);
            Ok(())
        }
    }
}

#[test]
fn replies_are_whole_or_unavailable(rt: HostRuntime) -> Result<(), Fail> {
    for (request, status, reply, length) in REQUESTS {
        exchanges(&rt, request, (status, reply, length))?;
    }
    allocate_last(rt.alloc())
}
