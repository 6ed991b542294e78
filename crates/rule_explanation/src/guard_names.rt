//! The names that guards mention.

ghost use Rattle.std.specs.Prelude.{◌≡◌, IfOk};

use kbart_rows::{Keys, NameSet};
use rule_parser::{Guard, Rule};
use std::alloc::{AllocError, Global};

/// The names that the guards of the rules mention, under these keys. Nothing that is printed depends on them, only how
/// long it takes.
pub(crate) fn guard_names(alloc: Global, keys: Keys, rules: &[Rule]) -> Result<NameSet, AllocError>
    ensures { IfOk result (λ names. names.keys ≡ keys) }
{
    let mut names = NameSet::new(alloc, keys);
    for rule in rules {
        add_names(alloc, &mut names, rule.guards.as_slice())?;
    }
    Ok(names)
}

fn add_names(alloc: Global, names: &mut NameSet, guards: &[Guard]) -> Result<(), AllocError>
    ensures { names.new.keys ≡ names.old.keys }
{
    for guard in guards {
        for name in &guard.names(alloc)? {
            names.add(alloc, name)?;
        }
    }
    Ok(())
}
