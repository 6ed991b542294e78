//! A link for a query.

ghost use Rattle.std.specs.Prelude.{◌≡◌};
ghost use Rattle.source_menus.specs.Found as spec;

use crate::parts::target_of;
pub use menu::Text;
use std::marker::Model;

/// The request of a query that gave a link.
#[derive(Clone, Copy, Debug, PartialEq, Eq)]
pub enum LinkRequest<'a> {
    /// The query's own, for targets that have the cited title.
    Own,
    /// The one with a further number of the title.
    Further(&'a str),
    /// The one for targets that answer every request.
    Any,
}

/// A link of a target.
#[derive(Drop)]
pub struct FoundLink<'a> {
    /// The name of the part of the target that gave the link, as the registry has it.
    pub name: &'a str,
    /// The row of the part's table, counted from 0.
    pub row: usize,
    /// The link, an address of the web.
    pub link: Text,
    /// The request that gave it.
    pub request: LinkRequest<'a>,
}

impl<'a> Model for FoundLink<'a> {
    ghost use Rattle.source_menus.specs.Found.{FoundLink, request_value};

    ghost Value = { FoundLink };

    ghost view = { λ found. record {
      name = found.name.now;
      row = found.row;
      link = found.link;
      request = request_value found.request;
    } };
}

impl FoundLink<'_> {
    /// The target.
    pub fn target(&self) -> &str
        ensures { result.now ≡ spec.target self.now }
    {
        target_of(self.name)
    }

    /// Whether it is a link of this target.
    pub(crate) fn is_of(&self, target: &str) -> bool
        ensures { result ≡ spec.is_of target.now self.now }
    {
        self.target() == target
    }
}
