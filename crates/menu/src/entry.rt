//! The entries of a menu.

ghost use Rattle.std.specs.Prelude.{◌≡◌};
ghost use Rattle.menu.specs.Links.{has_link};

use std::marker::Model;
use uri_text::Text;

/// The outcome of a target: its link, or the reason why it has none.
#[derive(Drop)]
pub enum Resolution {
    /// A row of the target's table gave a link; rows count from 0.
    Link { row: usize, link: Text },
    /// No row has the cited title.
    NoRow,
    /// The target's rules gave no link.
    NoLink,
    /// The target's rules gave a link, but not a web link.
    NotAWebLink,
    /// The target's rules did not run, because they might have printed that many bytes, which is over the limit.
    OverBudget(u64),
}

/// The entry of one target.
#[derive(Drop)]
pub struct MenuEntry<'a> {
    /// The target's name.
    pub name: &'a str,
    /// Its link, or the reason why it has none.
    pub resolution: Resolution,
}

impl<'a> Model for MenuEntry<'a> {
    ghost use Rattle.menu.specs.Entries.{MenuEntry};

    ghost Value = { MenuEntry };

    ghost view = { λ entry. record { name = entry.name.now; resolution = entry.resolution } };
}

impl MenuEntry<'_> {
    /// Whether the target has a link.
    pub fn has_link(&self) -> bool
        ensures { result ≡ has_link self.now }
    {
        matches!(self.resolution, Resolution::Link { .. })
    }
}
