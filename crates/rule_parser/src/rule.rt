//! A rule, its guards and their bounds.

ghost use Rattle.std.specs.Prelude.{◌≡◌};

use std::marker::Model;
use uri_grammar::{Template, Text};

/// A bound of a `from` or `counts` guard.
#[derive(Drop)]
pub enum Bound {
    /// `*`
    Open,
    /// 1 to [`MAX_DIGITS`](crate::MAX_DIGITS) decimal digits, as they are written in the rule.
    Digits(Text),
    /// The name of a text, whose leading number is the bound.
    Name(Text),
}

/// A condition for a rule's link; each variant shows its line without `when `.
#[derive(Drop)]
pub enum Guard {
    /// `has NAME`: the name is defined. A list without members is undefined.
    Has(Text),
    /// `lacks NAME`: the name is undefined.
    Lacks(Text),
    /// `given NAME`: the name's text is defined and not empty.
    Given(Text),
    /// `NAME is "TEXT"`: the name's text equals TEXT.
    Same(Text, Text),
    /// `LIST holds "TEXT"`: a member of the list equals TEXT.
    Holds(Text, Text),
    /// `NAME from LO to HI`: the name's text begins with a number, which is between the bounds or equal to one. A bound
    /// without a number is open.
    Between(Text, Bound, Bound),
    /// `LIST counts LO to HI`: the number of the list's members is between the bounds or equal to one. An undefined
    /// list has no members, and a bound without a number is open.
    Counts(Text, Bound, Bound),
}

/// Guards, which contracts see as a list.
#[derive(Drop)]
pub struct Guards {
    list: Vec<Guard>,
}

impl Model for Guards {
    ghost use Rattle.std.specs.Prelude.{List};
    ghost use Rattle.rule_parser.specs.declared.rule.Guard.{Guard};

    ghost Value = { List Guard };

    ghost view = { λ guards. guards.list.items };
}

impl Guards {
    /// The guards in the order of the list.
    pub fn new(list: Vec<Guard>) -> Guards
        ensures { result ≡ list.items }
    {
        Guards { list }
    }

    /// The guards in their order.
    pub fn as_slice(&self) -> &[Guard]
        ensures { result.now ≡ self.now }
    {
        &self.list
    }
}

/// A link, and the conditions for it.
#[derive(Drop)]
pub struct Rule {
    /// All of them have to hold for the link to be used.
    pub guards: Guards,
    /// The template of the link.
    pub template: Template,
}
