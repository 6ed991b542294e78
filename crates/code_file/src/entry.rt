//! The entries of a code's tables.

use std::marker::Model;

/// The name of a variable: of a list, or of a text. In a code it has 1 to 255 bytes, each from 21 to 7e hexadecimal.
#[derive(Drop)]
pub struct Name {
    /// Whether it is the name of a list.
    pub list: bool,
    /// The name itself.
    pub text: String,
}

impl Model for Name {
    ghost use Rattle.std.specs.Prelude.{string_bytes};
    ghost use Rattle.code_model.specs.Code as code;

    ghost Value = { code.Name };

    ghost view = { λ n. record { list = n.list; text = string_bytes n.text } };
}

/// A text of the code: one to compare with, which in a code is UTF-8 (RFC 3629), or one for a link,
/// which is URI text (RFC 3986, sections 2.1 to 2.3).
#[derive(Drop)]
pub struct Literal {
    /// Whether it is a text to compare with.
    pub compared: bool,
    /// The text itself.
    pub bytes: Vec<u8>,
}

impl Model for Literal {
    ghost use Rattle.code_model.specs.Code as code;

    ghost Value = { code.Literal };

    ghost view = { λ l. record { compared = l.compared; bytes = l.bytes.items } };
}
