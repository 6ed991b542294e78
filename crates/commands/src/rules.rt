//! The commands on templates and rule files: `expand`, `link` and `compile`.

ghost use Rattle.files.specs.Changes.{Unchanged};
ghost use Rattle.text_model.specs.Texts.{texts_of};
ghost use Rattle.answers.specs.Code.{IsCodeOf};
ghost use Rattle.answers.specs.Expansion.{IsExpansionOf, names_of};
ghost use Rattle.answers.specs.Link.{IsLinkOf};
ghost use Rattle.answers.specs.Results.{text_result};
ghost use Rattle.commands.specs.Answers.{Answered, Makes, Tells};
ghost use Rattle.commands.specs.Reading.{rule_file};

use crate::fault::{Answer, answered};
use crate::list_options::ExpandArguments;
use crate::placing::place_counted;
use crate::reading::{LONG_RULES, read_file};
use answers::{Refusal, code_of, expansion_of, link_of};
use files::Files;
use rule_parser::MAX_BYTES;
use std::alloc::Global;

/// `expand [--list NAME].. TEMPLATE QUERY`: the line of the template's expansion for the query.
pub(crate) fn expand<'a>(alloc: Global, arguments: ExpandArguments) -> Answer<'a>
    ensures { Answered (IsExpansionOf (names_of (texts_of arguments.entry.options.now))
        arguments.entry.template.now arguments.entry.query.now) (text_result result) }
{
    answered(expansion_of(
        alloc,
        arguments.options,
        arguments.template,
        arguments.query,
    ))
}

/// `link RULES QUERY`: the line of the link that the rules of the file give for the query.
pub(crate) fn link<'a, F: Files>(
    alloc: Global,
    files: &mut F,
    rules: &'a str,
    query: &str,
) -> Answer<'a>
    ensures ends { Tells F.at F.fails F.runs_out files.old files.new rule_file (λ bytes. IsLinkOf bytes query.now)
        rules.entry (text_result result) }
    ensures same { Unchanged (F.at files.old) (F.at files.new) }
{
    let bytes = read_file(alloc, files, rules, MAX_BYTES, Refusal::Rules(LONG_RULES))?;
    answered(link_of(alloc, &bytes, query))
}

/// `compile RULES CODE`: writes the code of the rules to a file of its own; the line with the number of its bytes.
pub(crate) fn compile<'a, F: Files>(
    alloc: Global,
    files: &mut F,
    rules: &'a str,
    code: &'a str,
) -> Answer<'a>
    ensures { Makes F.at F.fails F.runs_out files.old files.new F.mode_at rule_file IsCodeOf rules.entry code.entry
        (text_result result) }
{
    let bytes = read_file(alloc, files, rules, MAX_BYTES, Refusal::Rules(LONG_RULES))?;
    let file = code_of(alloc, &bytes)?;
    place_counted(alloc, files, code, &file)
}
