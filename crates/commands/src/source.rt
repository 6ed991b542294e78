//! The commands that take a query of any source: `read` and `find`.

ghost use Rattle.std.specs.Prelude.{◌≡◌};
ghost use Rattle.files.specs.Changes.{Unchanged};
ghost use Rattle.answers.specs.Results.{text_result};
ghost use Rattle.answers.specs.Source.{AreLinksOf, IsReadingOf};
ghost use Rattle.commands.specs.Answers.{Answered, Resolves};

use crate::fault::{Answer, answered};
use crate::menus::open_registry;
use answers::{links_text_of, reading_text_of};
use files::Files;
use kbart_rows::KeySource;
use std::alloc::Global;

/// `read QUERY`: the pairs of a query of any source, as they are read.
pub(crate) fn read<'a>(alloc: Global, query: &str) -> Answer<'a>
    ensures { Answered (IsReadingOf query.now) (text_result result) }
{
    answered(reading_text_of(alloc, query))
}

/// `find REGISTRY QUERY`: the links that the registry file at the path has for a query of any source, each target once.
pub(crate) fn find<'a, F: Files, K: KeySource>(
    alloc: Global,
    files: &mut F,
    keys: &mut K,
    registry: &'a str,
    query: &str,
) -> Answer<'a>
    ensures ends { Resolves F.at F.fails F.runs_out K.draws K.fails files.old files.new keys.old keys.new
        (λ targets. AreLinksOf targets query.now) registry.entry (text_result result) }
    ensures same { Unchanged (F.at files.old) (F.at files.new) }
{
    let targets = open_registry(alloc, files, keys, registry)?;
    answered(links_text_of(alloc, &targets, query))
}
