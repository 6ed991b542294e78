//! One target of a registry file.

ghost use Rattle.std.specs.Prelude.{◌≡◌, ◌++◌, ◌∷◌, [], Err, IfErr, IfOk, OnOk};
ghost use Rattle.files.specs.Changes.{Unchanged};
ghost use Rattle.files.specs.Found.{Absent, OfFile};
ghost use Rattle.kbart_rows.specs.Reading.{IsTable};
ghost use Rattle.registry.specs.Targets.{TargetValue};
ghost use Rattle.registry_file.specs.Loading.{fails_on};
ghost use Rattle.registry_file.specs.Private.Stops.{IsNoCode, IsNoTable, IsNotAdded, IsStop, IsTargetOf};
ghost use Rattle.registry_file.specs.declared.stop.Stop.TheVariants.{Device};
ghost use Rattle.verifier.specs.Accepted.{IsAcceptedFile};

use crate::lines::TargetLine;
use crate::stop::Stop;
use code_file::{CodeErrorKind, MAX_BYTES};
use files::{Files, ReadError, read_whole};
use kbart_rows::{Keys, MAX_TABLE_BYTES, Table, TableError};
use registry::Registry;
use std::alloc::Global;
use verifier::{LoadError, Verified, load};

/// Loads the code of a target, reads its table, and adds it after the others.
pub(crate) fn add_target<'a, F: Files>(
    alloc: Global,
    files: &mut F,
    registry: &mut Registry,
    line: &TargetLine<'a>,
    keys: Keys,
) -> Result<(), Stop<'a>>
    ensures ok { OnOk result
        ((target : TargetValue) × IsTargetOf (F.at files.old) keys line.now.name.now line.now.code.now
        line.now.table.now target
        × (registry.new ≡ registry.old ++ target ∷ [])) }
    ensures err { IfErr result
        (IsStop (fails_on F.at F.fails (F.at files.old)) (F.at files.old) registry.old line.now.name.now
        line.now.code.now line.now.table.now) }
    ensures same { Unchanged (F.at files.old) (F.at files.new) }
{
    let code = load_code(alloc, files, line.code)?;
    let table = read_table(alloc, files, line.table, keys)?;
    add_named(alloc, registry, line.name, code, table)
}

/// Adds a target of this name, code and table after the others.
fn add_named<'a>(
    alloc: Global,
    registry: &mut Registry,
    name: &str,
    code: Verified,
    table: Table,
) -> Result<(), Stop<'a>>
    ensures ok { OnOk result
        (registry.new ≡ registry.old ++ record { name = name.now; code = code; table = table } ∷ []) }
    ensures err { IfErr result (IsNotAdded registry.old name.now) }
{
    let name = String::from_str(alloc, name)?;
    match registry.add(name, code, table) {
        Ok(()) => Ok(()),
        Err(refused) => Err(Stop::from(refused.kind)),
    }
}

/// The accepted code of the file at the path.
fn load_code<'a, F: Files>(
    alloc: Global,
    files: &mut F,
    path: &'a str,
) -> Result<Verified, Stop<'a>>
    ensures ok { IfOk result (λ code. OfFile (F.at files.old path.now) (λ bytes. IsAcceptedFile bytes code)) }
    ensures err { IfErr result (IsNoCode (fails_on F.at F.fails (F.at files.old)) (F.at files.old path.now) path.now) }
    ensures absent { F.at files.old path.now ≡ Absent → result ≡ Err (Device path.entry) }
    ensures same { Unchanged (F.at files.old) (F.at files.new) }
{
    match read_whole(alloc, files, path, MAX_BYTES) {
        Ok(bytes) => Ok(load(alloc, &bytes)?),
        Err(ReadError::TooLong) => Err(Stop::Load(LoadError::Code(
            CodeErrorKind::TooLong,
            MAX_BYTES,
        ))),
        Err(ReadError::File(e)) => Err(Stop::of_file(e, path)),
    }
}

/// The table of the file at the path.
fn read_table<'a, F: Files>(
    alloc: Global,
    files: &mut F,
    path: &'a str,
    keys: Keys,
) -> Result<Table, Stop<'a>>
    ensures ok { IfOk result (λ table. OfFile (F.at files.old path.now) (λ bytes. IsTable bytes table)) }
    ensures keyed { IfOk result (λ table. table.keys ≡ keys) }
    ensures err { IfErr result (IsNoTable (fails_on F.at F.fails (F.at files.old)) (F.at files.old path.now) path.now) }
    ensures absent { F.at files.old path.now ≡ Absent → result ≡ Err (Device path.entry) }
    ensures same { Unchanged (F.at files.old) (F.at files.new) }
{
    match read_whole(alloc, files, path, MAX_TABLE_BYTES) {
        Ok(bytes) => Ok(Table::read_keyed(alloc, &bytes, keys)?),
        Err(ReadError::TooLong) => Err(Stop::Table(TableError::TooLong)),
        Err(ReadError::File(e)) => Err(Stop::of_file(e, path)),
    }
}
