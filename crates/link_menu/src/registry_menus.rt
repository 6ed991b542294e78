//! A registry as a source of menus.

ghost use Rattle.std.specs.Prelude.{◌≡◌};

use crate::resolver::resolve;
use kev_read::Request;
use menu::Menu;
use menu_source::MenuSource;
use registry::Registry;
use std::alloc::{AllocError, Global};
use std::marker::Model;

/// The menus that [`resolve`] gives for a registry. Contracts see the registry's targets.
#[derive(Drop)]
pub struct RegistryMenus<'a> {
    registry: &'a Registry,
}

impl<'a> Model for RegistryMenus<'a> {
    ghost use Rattle.std.specs.Prelude.{List};
    ghost use Rattle.registry.specs.Targets.{TargetValue};

    ghost Value = { List TargetValue };

    ghost view = { λ menus. menus.registry.now };
}

impl<'a> RegistryMenus<'a> {
    /// The menus of this registry.
    pub fn new(registry: &'a Registry) -> RegistryMenus<'a>
        ensures { result ≡ registry.now }
    {
        RegistryMenus { registry }
    }
}

impl<'a> MenuSource for RegistryMenus<'a> {
    ghost use Rattle.registry.specs.Entries.{menu_of};

    ghost menus = { menu_of };

    fn menu_for<'m>(&'m self, alloc: Global, request: &Request) -> Result<Menu<'m>, AllocError> {
        resolve(alloc, self.registry, request)
    }
}
