//! What the error gives back if a target is not added.

use crate::codes::LIST_CODE;
use crate::shared::add;
use registry::{AddError, AddErrorKind, Registry};
use std::alloc::{AllocError, Global};
use std::test::Fail;

/// How many targets the registry has if the first is alpha, with the instructions of its code and the rows of its
/// table; 0 if it is not.
fn count_from_alpha(registry: &Registry) -> usize {
    let targets = registry.targets();
    let Some(first) = targets.first() else {
        return 0;
    };
    let parts = (
        first.name(),
        first.code().code().len(),
        first.table().rows(),
    );
    if parts == ("alpha", 6, 2) {
        targets.len()
    } else {
        0
    }
}

/// Adds a target of the same code and table under the name `alpha`, and returns whether it is added.
fn add_again(alloc: Global, registry: &mut Registry, error: AddError) -> Result<bool, AllocError> {
    let name = String::from_str(alloc, "alpha")?;
    Ok(registry.add(name, error.code, error.table).is_ok())
}

/// Whether a target with this name is not added, for its name, which is given back; and whether its parts then make
/// another target.
fn refuse(alloc: Global, registry: &mut Registry, name: &str) -> Result<(bool, bool), Fail> {
    let Err(error) = add(alloc, registry, name, LIST_CODE)? else {
        return Ok((false, false));
    };
    let is_bad = error.kind == AddErrorKind::BadTargetName && error.name.as_str() == name;
    let is_refused = is_bad && registry.targets().is_empty();
    Ok((is_refused, add_again(alloc, registry, error)?))
}

#[test]
fn gives_the_parts_back(rt: HostRuntime) -> Result<(), Fail> {
    let mut registry = Registry::new(rt.alloc());
    let refused = refuse(rt.alloc(), &mut registry, "a b")?;
    assert_eq!(rt; (refused, count_from_alpha(&registry)), ((true, true), 1));
    Ok(())
}
