//! One exchange.

ghost use Rattle.std.specs.Prelude.{◌≡◌, ◌≤◌, ◌++◌, ℕ, List, length};
ghost use Rattle.http_streams.specs.declared.read.TheConstants.{MAX_HEAD_BYTES};
ghost use Rattle.http_exchange.specs.Exchange as spec;

use crate::menu_page::print_reply;
use crate::reply::{NO_MEMORY, unavailable_body, unavailable_head};
use http_request::read_request;
use http_streams::{HeadError, Input, Output, read_head, write_both};
use menu_source::MenuSource;
use std::alloc::{AllocError, Global};
use thiserror::Error;

/// How an exchange ended.
#[derive(Clone, Copy, Debug, PartialEq, Eq)]
pub enum Served {
    /// The input ended at once, and nothing was written.
    Nothing,
    /// A whole reply with this status was written.
    Replied(u16),
}

/// Why no whole reply was written.
#[derive(Clone, Copy, Debug, PartialEq, Eq, Error)]
pub enum ServeError {
    /// A read failed; nothing was written.
    #[error("ReadFault")]
    ReadFault,
    /// A write failed; exactly that many bytes from the beginning of the reply were written.
    #[error("WriteFault after {0} bytes")]
    WriteFault(usize),
}

/// Writes a reply: its head, and then its body.
fn send<O: Output>(
    output: &mut O,
    status: u16,
    head: &[u8],
    body: &[u8],
) -> Result<Served, ServeError>
    ensures { spec.IsSent (O.output_state output.old) status (head.now ++ body.now) result (O.output_state output.new) }
{
    match write_both(output, head, body) {
        Ok(()) => Ok(Served::Replied(status)),
        Err(sent) => Err(ServeError::WriteFault(sent)),
    }
}

/// Writes the reply to the bytes of a request.
fn answer<O: Output, S: MenuSource>(
    alloc: Global,
    output: &mut O,
    source: &S,
    bytes: &[u8],
) -> Result<Served, ServeError>
    requires { length bytes.now ≤ MAX_HEAD_BYTES }
    ensures { (status : ℕ) × (reply : List ℕ) × spec.IsReply (S.menus source.now) bytes.now status reply
        × spec.IsSent (O.output_state output.old) status reply result (O.output_state output.new) }
{
    let request = read_request(bytes);
    match print_reply(alloc, source, request) {
        Ok((reply, head)) => {
            let body = reply.sent_body(request.without_body);
            send(output, reply.status(), head.as_bytes(), body.as_bytes())
        }
        Err(AllocError) => {
            let body = unavailable_body(request.without_body);
            send(output, NO_MEMORY, unavailable_head(), body)
        }
    }
}

/// Reads one request, until an empty line ends its head, the input ends or
/// [`MAX_HEAD_BYTES`](http_streams::MAX_HEAD_BYTES) bytes have come, and writes its reply: the head, and then the body,
/// which is not copied. If nothing came, nothing is written. If an allocation fails, the reply has the status 503; if
/// it is the first one, of the buffer for the request's head, nothing has been read then.
///
/// The status is decided by the first of these that applies: the bytes begin with no valid head, 431 if that many bytes
/// came and the head has not ended, and otherwise 400; a wrong number of Host fields, 400; a method that is neither GET
/// nor HEAD, 405; a target of another form, 400; a path that is none of the pages, 404; a query that is rejected, 400;
/// otherwise 200.
pub fn serve_one<I: Input, O: Output, S: MenuSource>(
    alloc: Global,
    input: &mut I,
    output: &mut O,
    source: &S,
) -> Result<Served, ServeError>
    ensures exchange { spec.IsExchange (S.menus source.now) (I.input_state input.old) (O.output_state output.old) result
        (I.input_state input.new) (O.output_state output.new) }
    ensures limit { MAX_HEAD_BYTES ≡ 16384 }
{
    match read_head(alloc, input) {
        Ok(bytes) if bytes.is_empty() => Ok(Served::Nothing),
        Ok(bytes) => answer(alloc, output, source, &bytes),
        Err(HeadError::NoMemory) => send(
            output,
            NO_MEMORY,
            unavailable_head(),
            unavailable_body(false),
        ),
        Err(HeadError::Failed) => Err(ServeError::ReadFault),
    }
}
