//! The parts of a template's tree.

ghost use Rattle.std.specs.Prelude.{◌≡◌};

use std::marker::Model;
use uri_text::Text;

/// How an expression writes its values (RFC 6570, section 2.2).
#[derive(Clone, Copy, PartialEq, Eq)]
pub enum Op {
    /// No operator.
    Simple,
    /// `+`
    Plus,
    /// `#`
    Hash,
    /// `.`
    Dot,
    /// `/`
    Slash,
    /// `;`
    Semicolon,
    /// `?`
    Question,
    /// `&`
    Ampersand,
}

/// A variable of an expression and its modifier (RFC 6570, sections 2.3 and 2.4).
#[derive(Drop)]
pub struct Spec {
    /// At most 255 bytes, all of them ASCII. Triplets in it are not decoded.
    pub name: Text,
    /// The maximum number of items of the value that are used, 1 to 9,999; 0 if there is no prefix. An item is a code
    /// point or, if the operator copies triplets, a whole triplet.
    pub cut: u16,
    /// Whether the variable has the modifier `*`.
    pub explode: bool,
}

/// The variables of an expression, which contracts see as a list.
#[derive(Drop)]
pub struct Specs {
    list: Vec<Spec>,
}

impl Model for Specs {
    ghost use Rattle.std.specs.Prelude.{List};
    ghost use Rattle.uri_grammar.specs.declared.parts.Spec.{Spec};

    ghost Value = { List Spec };

    ghost view = { λ specs. specs.list.items };
}

impl Specs {
    /// The variables in the order of the list.
    pub fn new(list: Vec<Spec>) -> Specs
        ensures { result ≡ list.items }
    {
        Specs { list }
    }

    /// The variables in their order.
    pub fn as_slice(&self) -> &[Spec]
        ensures { result.now ≡ self.now }
    {
        &self.list
    }
}

/// A part of a template.
#[derive(Drop)]
pub enum Part {
    /// A run of literals as it is written in a link: reserved and unreserved characters and triplets are copied, and
    /// any other character is written as the triplets of its UTF-8 (RFC 6570, section 3.1).
    Literal(Text),
    /// What is written between braces.
    Expression { op: Op, specs: Specs },
}
