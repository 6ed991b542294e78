//! Registries from their files.

ghost use Rattle.std.specs.Prelude.{◌≡◌, ◌≤◌, ◌+◌, ◌++◌, ◌∷◌, [], Err, IfErr, IfOk, OnOk, length};
ghost use Rattle.csv.specs.Records.{fields_of};
ghost use Rattle.files.specs.Changes.{Unchanged};
ghost use Rattle.files.specs.Found.{Absent};
ghost use Rattle.registry.specs.Targets.{TargetValue};
ghost use Rattle.registry_file.specs.Loading.{AreTargetsOf, IsLoaded, IsNotLoaded, IsRefusedLine, IsRegistryFault};
ghost use Rattle.registry_file.specs.Loading.{IsTargetAt, fails_on};
ghost use Rattle.registry_file.specs.declared.error.RegistryError.TheVariants.{Device};
ghost use Rattle.registry_file.specs.declared.lines.TheConstants.{MAX_REGISTRY_BYTES};

use crate::error::RegistryError;
use crate::lines::{MAX_REGISTRY_BYTES, read_lines, target_line};
use crate::target::add_target;
use csv::ByteRecord;
use files::{Files, read_whole};
use kbart_rows::{KeySource, Keys};
use registry::Registry;
use std::alloc::Global;

/// The registry of the registry file at the path. Each line of the file, in order, has its code loaded and its table
/// read, and then the target is added. Paths are used as they are written. The keys of the tables' hashed look-ups are
/// drawn once, after the registry file has been read.
///
/// Rejects the file by its first error: see [`RegistryError`].
pub fn load_registry<F: Files, K: KeySource>(
    alloc: Global,
    files: &mut F,
    keys: &mut K,
    path: &str,
) -> Result<Registry, RegistryError>
    ensures limit { MAX_REGISTRY_BYTES ≡ 65536 }
    ensures ok { IfOk result (IsLoaded K.draws (F.at files.old) keys.old path.now keys.new) }
    ensures err { IfErr result (IsNotLoaded (fails_on F.at F.fails (F.at files.old)) K.draws K.fails (F.at files.old)
        keys.old path.now keys.new) }
    ensures absent { F.at files.old path.now ≡ Absent → result ≡ Err Device }
    ensures same { Unchanged (F.at files.old) (F.at files.new) }
{
    let bytes = read_whole(alloc, files, path, MAX_REGISTRY_BYTES)?;
    let keys = keys.draw()?;
    registry_of(alloc, files, &bytes, keys)
}

/// The registry of a registry file with these bytes. The hashed look-ups of its tables have these keys.
fn registry_of<F: Files>(
    alloc: Global,
    files: &mut F,
    bytes: &[u8],
    keys: Keys,
) -> Result<Registry, RegistryError>
    requires { length bytes.now ≤ MAX_REGISTRY_BYTES }
    ensures ok { IfOk result (AreTargetsOf (F.at files.old) keys bytes.now) }
    ensures err { IfErr result (IsRegistryFault (fails_on F.at F.fails (F.at files.old)) (F.at files.old) keys
        bytes.now) }
    ensures same { Unchanged (F.at files.old) (F.at files.new) }
{
    let lines = read_lines(alloc, bytes)?;
    let mut registry = Registry::new(alloc);
    for (before, line) in lines.iter().enumerate() {
        add_line(alloc, files, &mut registry, before + 1, line, keys)?;
    }
    Ok(registry)
}

/// Adds the target of a line after the others.
fn add_line<F: Files>(
    alloc: Global,
    files: &mut F,
    registry: &mut Registry,
    number: usize,
    line: &ByteRecord,
    keys: Keys,
) -> Result<(), RegistryError>
    ensures ok { OnOk result ((target : TargetValue) × IsTargetAt (F.at files.old) keys (fields_of line.now) target
        × (registry.new ≡ registry.old ++ target ∷ [])) }
    ensures err { IfErr result (IsRefusedLine (fails_on F.at F.fails (F.at files.old)) (F.at files.old) registry.old
        number (fields_of line.now)) }
    ensures same { Unchanged (F.at files.old) (F.at files.new) }
{
    let Some(cells) = target_line(line) else {
        return Err(RegistryError::Line(number));
    };
    match add_target(alloc, files, registry, &cells, keys) {
        Ok(()) => Ok(()),
        Err(stop) => Err(RegistryError::Target(stop.of_target(alloc, cells.name)?)),
    }
}
