//! The operators' table (RFC 6570, appendix A).

ghost use Rattle.std.specs.Prelude.{◌≡◌};
ghost use Rattle.uri_template.specs.Expansion.{style_of};

use std::marker::Model;
use text_model::Writing;
use uri_grammar::Op;

/// How an expression is written, by its operator.
#[derive(Drop)]
pub struct Style {
    /// What is written before the first defined variable.
    pub first: &'static str,
    /// What is written before each later one, and between exploded members.
    pub sep: &'static str,
    /// Whether a value is written after its variable's name.
    pub named: bool,
    /// What follows the name if the value is empty.
    pub ifemp: &'static str,
    /// What the standard's table calls `allow`.
    pub writing: Writing,
}

impl Model for Style {
    ghost use Rattle.uri_template.specs.Expansion.{Style as Row};

    ghost Value = { Row };

    ghost view = { λ s. record {
      first = s.first.now;
      sep = s.sep.now;
      named = s.named;
      ifemp = s.ifemp.now;
      writing = s.writing;
    } };
}

impl Style {
    /// The row of the table that belongs to the operator.
    pub fn of(op: Op) -> Style
        ensures { result ≡ style_of op }
    {
        match op {
            Op::Simple => row("", ",", false, "", Writing::U),
            Op::Plus => row("", ",", false, "", Writing::UR),
            Op::Hash => row("#", ",", false, "", Writing::UR),
            Op::Dot => row(".", ".", false, "", Writing::U),
            Op::Slash => row("/", "/", false, "", Writing::U),
            Op::Semicolon => row(";", ";", true, "", Writing::U),
            Op::Question => row("?", "&", true, "=", Writing::U),
            Op::Ampersand => row("&", "&", true, "=", Writing::U),
        }
    }
}

fn row(
    first: &'static str,
    sep: &'static str,
    named: bool,
    ifemp: &'static str,
    writing: Writing,
) -> Style
    ensures { result ≡ record {
      first = first.now;
      sep = sep.now;
      named = named;
      ifemp = ifemp.now;
      writing = writing;
    } }
{
    Style {
        first,
        sep,
        named,
        ifemp,
        writing,
    }
}
