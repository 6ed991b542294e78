//! The encodings in which sources send requests, read as UTF-8.
//!
//! ```rust
//! let encoding = declared_in(rt.alloc(), b"ctx_enc=info:ofi/enc:ISO-8859-1&rft.volume=3")?;
//! let text = text_in(rt.alloc(), encoding, b"Caf\xe9")?;
//! assert!(rt; text.as_str() == "Caf\u{e9}");
//! ```
//!
//! Differences from the WHATWG Encoding Standard:
//!
//! - Names of encodings are compared by their ends, so that URIs such as `info:ofi/enc:UTF-8` name them.
//! - Of the legacy encodings there are seven of one byte a character; US-ASCII is UTF-8.
//! - Bytes that are not UTF-8, though they should be, are windows-1252.
#![tactic(auto)]

mod declaration;
mod encoding;
pub mod laws;
mod tables;
mod texts;

pub use declaration::declared_in;
pub use encoding::{ByteEncoding, Encoding};
pub use texts::{is_utf8_value, text_in, value_in};
