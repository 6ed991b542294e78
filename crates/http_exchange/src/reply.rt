//! Replies, and how they are printed.

ghost use Rattle.std.specs.Prelude.{◌≡◌, ◌++◌, IfOk, OnOk, length, string_bytes};
ghost use Rattle.http_exchange.specs.Replies as spec;

use http::StatusCode;
use std::alloc::{AllocError, Global};
use std::marker::Model;

/// The type of a body (RFC 9110, section 8.3).
#[derive(Clone, Copy, Debug, PartialEq, Eq)]
pub enum BodyType {
    /// A page of HTML.
    Html,
    /// Plain text.
    Plain,
    /// JSON (RFC 8259).
    Json,
}

/// A reply: its status, and its body with its type.
#[derive(Drop)]
pub(crate) struct Reply {
    status: StatusCode,
    body_type: BodyType,
    body: String,
}

impl Model for Reply {
    ghost use Rattle.std.specs.Prelude.{string_bytes};
    ghost use Rattle.http_exchange.specs.Replies.{ReplyValue};

    ghost Value = { ReplyValue };

    ghost view = { λ reply. record {
      status = reply.status;
      body_type = reply.body_type;
      body = string_bytes reply.body;
    } };
}

impl Reply {
    pub(crate) fn new(status: StatusCode, body_type: BodyType, body: String) -> Reply
        ensures { result ≡ record { status = status; body_type = body_type; body = string_bytes body } }
    {
        Reply {
            status,
            body_type,
            body,
        }
    }

    /// A reply with a line of plain text.
    pub(crate) fn plain(alloc: Global, status: StatusCode, body: &str) -> Result<Reply, AllocError>
        ensures { IfOk result (λ reply. reply ≡ spec.plain status body.now) }
    {
        Ok(Reply::new(status, BodyType::Plain, String::from_str(alloc, body)?))
    }

    pub(crate) fn status(&self) -> u16
        ensures { result ≡ self.now.status }
    {
        self.status.as_u16()
    }

    /// The line of the status (RFC 9112, section 4).
    fn push_status_line(&self, out: &mut String) -> Result<(), AllocError>
        ensures { OnOk result (string_bytes out.new ≡ string_bytes out.old ++ spec.status_line self.now.status) }
    {
        let status = self.status;
        write!(out, "HTTP/1.1 {status}\r\n")
    }

    fn type_line(&self) -> &'static str
        ensures { result.now ≡ spec.type_line self.now.body_type }
    {
        match self.body_type {
            BodyType::Html => "Content-Type: text/html; charset=utf-8\r\n",
            BodyType::Plain => "Content-Type: text/plain; charset=utf-8\r\n",
            BodyType::Json => "Content-Type: application/json; charset=utf-8\r\n",
        }
    }

    fn push_length_line(&self, out: &mut String) -> Result<(), AllocError>
        ensures { OnOk result (string_bytes out.new ≡ string_bytes out.old ++ spec.length_line (length self.now.body)) }
    {
        let length = self.body.len();
        write!(out, "Content-Length: {length}\r\n")
    }

    /// The Allow field, in a reply to a method that is not served (RFC 9110, section 15.5.6).
    fn allow_line(&self) -> &'static str
        ensures { result.now ≡ spec.allow_line self.now.status }
    {
        if self.status == StatusCode::METHOD_NOT_ALLOWED {
            "Allow: GET, HEAD\r\n"
        } else {
            ""
        }
    }

    /// The body that is sent: none if only the head was requested.
    pub(crate) fn sent_body(&self, without_body: bool) -> &str
        ensures { result.now ≡ spec.sent_body self.now without_body }
    {
        if without_body { "" } else { self.body.as_str() }
    }

    /// The bytes before the body (RFC 9112, section 2.1).
    pub(crate) fn head(&self, alloc: Global) -> Result<String, AllocError>
        ensures { IfOk result (λ text. string_bytes text ≡ spec.head_of self.now) }
    {
        let mut text = String::new(alloc);
        self.push_status_line(&mut text)?;
        text.push_str(self.type_line())?;
        self.push_length_line(&mut text)?;
        text.push_str("Connection: close\r\n")?;
        text.push_str(self.allow_line())?;
        text.push_str("\r\n")?;
        Ok(text)
    }
}

/// The status of the reply if an allocation failed.
pub(crate) const NO_MEMORY: u16 = 503;

/// The head of that reply, which needs no allocation.
pub(crate) fn unavailable_head() -> &'static [u8]
    ensures bytes { result.now ≡ spec.head_of spec.unavailable }
    ensures status { NO_MEMORY ≡ spec.unavailable.status }
{
    b"HTTP/1.1 503 Service Unavailable\r\nContent-Type: text/plain; charset=utf-8\r\n\
    Content-Length: 14\r\nConnection: close\r\n\r\n"
}

/// The body of that reply that is sent: none if only the head was requested.
pub(crate) fn unavailable_body(without_body: bool) -> &'static [u8]
    ensures { result.now ≡ spec.sent_body spec.unavailable without_body }
{
    if without_body {
        b""
    } else {
        b"out of memory\n"
    }
}
