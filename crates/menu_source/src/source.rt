//! A source of menus.

ghost use Rattle.std.specs.Prelude.{◌≡◌, IfOk};
ghost use Rattle.menu_source.specs.Menus.{Menus};

use kev_read::Request;
use menu::Menu;
use std::alloc::{AllocError, Global};

/// What gives the menu for a request, as a registry of targets does.
pub trait MenuSource {
    /// The entries of the menu for the pairs of any request.
    ghost menus: { Self → Menus };

    /// The menu for a request.
    ///
    /// `AllocError` if an allocation failed.
    fn menu_for<'a>(&'a self, alloc: Global, request: &Request) -> Result<Menu<'a>, AllocError>
        ensures { IfOk result (λ menu. menu ≡ menus self.now request.now.pairs) };
}
