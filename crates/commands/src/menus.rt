//! `resolve REGISTRY QUERY`: the menu of a registry file for a query.

ghost use Rattle.std.specs.Prelude.{◌≡◌, IfOk, IfErr};
ghost use Rattle.files.specs.Changes.{Unchanged};
ghost use Rattle.registry_file.specs.Loading.{IsLoaded};
ghost use Rattle.answers.specs.Menu.{IsMenuOf};
ghost use Rattle.answers.specs.Results.{text_result};
ghost use Rattle.commands.specs.Answers.{IsNoRegistry, Resolves};

use crate::fault::{Answer, Fault, answered, registry_fault};
use answers::menu_text_of;
use files::Files;
use kbart_rows::KeySource;
use registry::Registry;
use registry_file::load_registry;
use std::alloc::Global;

/// The text of the menu that the registry file at the path has for the query: a line for each link.
pub(crate) fn resolve<'a, F: Files, K: KeySource>(
    alloc: Global,
    files: &mut F,
    keys: &mut K,
    registry: &'a str,
    query: &str,
) -> Answer<'a>
    ensures ends { Resolves F.at F.fails F.runs_out K.draws K.fails files.old files.new keys.old keys.new
        (λ targets. IsMenuOf targets query.now) registry.entry (text_result result) }
    ensures same { Unchanged (F.at files.old) (F.at files.new) }
{
    let targets = open_registry(alloc, files, keys, registry)?;
    answered(menu_text_of(alloc, &targets, query))
}

/// The registry of the registry file at the path, which has at most 65,536 bytes and 256 targets.
pub(crate) fn open_registry<'a, F: Files, K: KeySource>(
    alloc: Global,
    files: &mut F,
    keys: &mut K,
    path: &'a str,
) -> Result<Registry, Fault<'a>>
    ensures ok { IfOk result (IsLoaded K.draws (F.at files.old) keys.old path.now keys.new) }
    ensures err { IfErr result (IsNoRegistry F.at F.fails F.runs_out K.draws K.fails files.old files.new keys.old
        keys.new path.entry) }
    ensures same { Unchanged (F.at files.old) (F.at files.new) }
{
    match load_registry(alloc, files, keys, path) {
        Ok(registry) => Ok(registry),
        Err(e) => Err(registry_fault(e, path)),
    }
}
