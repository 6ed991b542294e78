//! The commands on code files: `verify`, `show`, `upgrade` and `run`.

ghost use Rattle.files.specs.Changes.{Unchanged};
ghost use Rattle.answers.specs.Listing.{IsListingOf};
ghost use Rattle.answers.specs.Results.{text_result};
ghost use Rattle.answers.specs.Run.{IsRunLinkOf};
ghost use Rattle.answers.specs.Upgrade.{IsUpgradeOf};
ghost use Rattle.answers.specs.Verdict.{IsVerdictOf};
ghost use Rattle.commands.specs.Answers.{Makes, Tells};
ghost use Rattle.commands.specs.Reading.{code_file, loaded_file};

use crate::fault::{Answer, answered};
use crate::placing::place_counted;
use crate::reading::read_file;
use answers::{Refusal, listing_of, run_link_of, upgrade_of, verdict_of};
use code_file::{CodeError, CodeErrorKind, MAX_BYTES};
use files::Files;
use std::alloc::Global;
use verifier::LoadError;

/// The error of `show` and `upgrade` for a file of more than 65,536 bytes.
const LONG_CODE: CodeError = CodeError {
    kind: CodeErrorKind::TooLong,
    at: MAX_BYTES,
};

/// The error of `verify` and `run` for a file of more than 65,536 bytes.
const LONG_TO_LOAD: LoadError = LoadError::Code(CodeErrorKind::TooLong, MAX_BYTES);

/// `verify CODE`: the lines of the verdict on the code file.
pub(crate) fn verify<'a, F: Files>(alloc: Global, files: &mut F, code: &'a str) -> Answer<'a>
    ensures ends { Tells F.at F.fails F.runs_out files.old files.new loaded_file IsVerdictOf code.entry
        (text_result result) }
    ensures same { Unchanged (F.at files.old) (F.at files.new) }
{
    let bytes = read_file(alloc, files, code, MAX_BYTES, Refusal::Load(LONG_TO_LOAD))?;
    answered(verdict_of(alloc, &bytes))
}

/// `show CODE`: the listing of the code file.
pub(crate) fn show<'a, F: Files>(alloc: Global, files: &mut F, code: &'a str) -> Answer<'a>
    ensures ends { Tells F.at F.fails F.runs_out files.old files.new code_file IsListingOf code.entry
        (text_result result) }
    ensures same { Unchanged (F.at files.old) (F.at files.new) }
{
    let bytes = read_file(alloc, files, code, MAX_BYTES, Refusal::Code(LONG_CODE))?;
    answered(listing_of(alloc, &bytes))
}

/// `upgrade OLD NEW`: writes the code of a file as a file of version 2; the line with the number of its bytes.
pub(crate) fn upgrade<'a, F: Files>(
    alloc: Global,
    files: &mut F,
    old: &'a str,
    new: &'a str,
) -> Answer<'a>
    ensures { Makes F.at F.fails F.runs_out files.old files.new F.mode_at code_file IsUpgradeOf old.entry new.entry
        (text_result result) }
{
    let bytes = read_file(alloc, files, old, MAX_BYTES, Refusal::Code(LONG_CODE))?;
    let file = upgrade_of(alloc, &bytes)?;
    place_counted(alloc, files, new, &file)
}

/// `run CODE QUERY`: the line of the link that the code file gives for the query.
pub(crate) fn run<'a, F: Files>(
    alloc: Global,
    files: &mut F,
    code: &'a str,
    query: &str,
) -> Answer<'a>
    ensures ends { Tells F.at F.fails F.runs_out files.old files.new loaded_file
        (λ bytes. IsRunLinkOf bytes query.now) code.entry (text_result result) }
    ensures same { Unchanged (F.at files.old) (F.at files.new) }
{
    let bytes = read_file(alloc, files, code, MAX_BYTES, Refusal::Load(LONG_TO_LOAD))?;
    answered(run_link_of(alloc, &bytes, query))
}
