//! The registry of all targets.

ghost use Rattle.std.specs.Prelude.{◌≡◌, ◌++◌, ◌∷◌, [], IfErr, IfOk, MatchOption, OnErr, OnOk, string_bytes};
ghost use Rattle.std.specs.Prelude.{if◌then◌else◌, is_ok};
ghost use Rattle.registry.specs.Targets as spec;
ghost use Rattle.registry.specs.Targets.{IsRegistry};
ghost use Rattle.registry.specs.Names.{AreAllAmong, AreAllNames, AreKeysOfFirst, column_names, numbered_names};
ghost use Rattle.registry.specs.Refusals.{IsAddRefusal, MayBeAdded};

use crate::error::{AddError, AddErrorKind};
use crate::name::is_target_name;
use crate::names::Names;
use crate::target::Target;
use kbart_rows::{Keys, NameSet, Table};
use row_scope::NameColumns;
use std::alloc::Global;
use std::marker::Model;
use verifier::Verified;

/// The maximum number of targets in a registry.
pub const MAX_TARGETS: usize = 256;

/// Targets in the order in which they were added; no two have the same name. The code of each is safe.
#[derive(Drop)]
pub struct Registry {
    alloc: Global,
    names: Names,
    targets: Vec<Target>,
    // For each target, the columns and the numbers of the names of its code.
    places: Vec<NameColumns>,
}

impl Model for Registry {
    ghost use Rattle.std.specs.Prelude.{List};
    ghost use Rattle.registry.specs.Targets.{TargetValue, IsRegistry};
    ghost use Rattle.registry.specs.Names.{AreNames};

    ghost Value = { List TargetValue };

    ghost view = { λ registry. registry.targets.items };

    ghost invariant = { λ registry. IsRegistry registry.targets.items
        × AreNames registry.targets.items registry.names.columns registry.names.numbered registry.places.items };
}

impl Registry {
    /// A registry without targets. It allocates nothing. The clause `limits` says how many targets a registry may have.
    pub fn new(alloc: Global) -> Registry
        ensures value { result ≡ [] }
        ensures limits { MAX_TARGETS ≡ 256 }
    {
        Registry {
            alloc,
            names: Names::new(alloc, Keys::new(0, 0)),
            targets: Vec::new(alloc),
            places: Vec::new(alloc),
        }
    }

    /// The targets, in the order in which they were added.
    pub fn targets(&self) -> &[Target]
        ensures value { result.now ≡ self.now }
        ensures known { IsRegistry self.now }
    {
        &self.targets
    }

    /// The names of the columns of all tables.
    pub fn columns(&self) -> &NameSet
        ensures names { result.now.names ≡ column_names self.now }
        ensures keys { AreKeysOfFirst result.now.keys self.now }
        ensures among { AreAllAmong result.now.names self.now }
    {
        &self.names.columns
    }

    /// The names of all codes that have numbers; and for each target, the columns and the numbers of the names of its
    /// code.
    pub fn names(&self) -> (&NameSet, &[NameColumns])
        ensures names { result.0.now.names ≡ numbered_names self.now }
        ensures keys { AreKeysOfFirst result.0.now.keys self.now }
        ensures places { AreAllNames result.0.now.names self.now result.1.now }
    {
        (&self.names.numbered, &self.places)
    }

    /// Adds a target after the others.
    ///
    /// The error is the first of the reasons of [`AddErrorKind`] that applies, and gives the parts back; the targets
    /// are then unchanged.
    pub fn add(&mut self, name: String, code: Verified, table: Table) -> Result<(), AddError>
        ensures ok { OnOk result
            (self.new ≡ self.old ++ record { name = string_bytes name; code = code; table = table } ∷ []) }
        ensures accepted { IfOk result (λ _. MayBeAdded self.old (string_bytes name)) }
        ensures err { OnErr result (self.new ≡ self.old) }
        ensures refused { IfErr result (λ e. IsAddRefusal self.old (string_bytes name) e.kind) }
        ensures parts { IfErr result (λ e. (string_bytes e.name ≡ string_bytes name) × (e.code ≡ code)
            × (e.table ≡ table)) }
    {
        if let Some(kind) = self.refusal(name.as_str()) {
            return Err(AddError {
                kind,
                name,
                code,
                table,
            });
        }
        let is_first = self.targets().is_empty();
        self.names.set_keys(self.alloc, is_first, table.keys());
        let lens = self.names.lens();
        let Ok(places) = self.names.add(self.alloc, code.code(), &table) else {
            return Err(AddError {
                kind: AddErrorKind::NoMemory,
                name,
                code,
                table,
            });
        };
        let target = Target::new(name, code, table);
        match push_both(&mut self.targets, &mut self.places, target, places) {
            Ok(()) => Ok(()),
            Err(target) => {
                self.names.truncate(lens);
                Err(AddError::new(AddErrorKind::NoMemory, target))
            }
        }
    }

    /// Why a target of this name is not added, apart from memory.
    fn refusal(&self, name: &str) -> Option<AddErrorKind>
        ensures { MatchOption result (MayBeAdded self.now name.now) (IsAddRefusal self.now name.now) }
    {
        if self.targets.len() >= MAX_TARGETS {
            Some(AddErrorKind::Full)
        } else if !is_target_name(name) || has_name(&self.targets, name) {
            Some(AddErrorKind::BadTargetName)
        } else {
            None
        }
    }
}

/// Adds a target, and the places of its code's names, after the others. If an allocation failed, the target is given
/// back.
fn push_both(
    targets: &mut Vec<Target>,
    all_places: &mut Vec<NameColumns>,
    target: Target,
    places: NameColumns,
) -> Result<(), Target>
    ensures targets { targets.new.items
        ≡ (if is_ok result then targets.old.items ++ target ∷ [] else targets.old.items) }
    ensures places { all_places.new.items
        ≡ (if is_ok result then all_places.old.items ++ places ∷ [] else all_places.old.items) }
    ensures back { IfErr result (λ given. given ≡ target) }
{
    if all_places.push(places).is_err() {
        return Err(target);
    }
    match targets.push(target) {
        Ok(()) => Ok(()),
        Err(failed) => {
            all_places.pop();
            Err(failed.value)
        }
    }
}

/// Whether one of the targets has the name.
fn has_name(targets: &[Target], name: &str) -> bool
    ensures { result ≡ spec.has_name targets.now name.now }
{
    targets.iter().any(|target| target.name() == name)
}
