//! The commands that examine the files of one target: `inspect`, `lint` and `explain`.

ghost use Rattle.std.specs.Prelude.{◌≡◌};
ghost use Rattle.files.specs.Changes.{Unchanged};
ghost use Rattle.answers.specs.Findings.{IsInspectionOf, IsLintOf};
ghost use Rattle.answers.specs.Results.{report_result};
ghost use Rattle.commands.specs.Answers.{TellsKeyed, TellsOfTarget};
ghost use Rattle.commands.specs.Explaining.{Explained, Explains};
ghost use Rattle.commands.specs.Output.{end_of, output_of};

use crate::fault::{Fault, answered};
use crate::reading::{read_keyed, read_target};
use answers::{Refusal, inspection_of, lint_of, request_of, table_of};
use files::Files;
use kbart_rows::{KeySource, Table};
use printed_text::Findings;
use rule_explanation::ExplainError;
use rule_parser::Rules;
use std::alloc::Global;
use std::io::Write;

/// `inspect TABLE`: the findings in the holdings table.
pub(crate) fn inspect<'a, F: Files, K: KeySource>(
    alloc: Global,
    files: &mut F,
    keys: &mut K,
    table: &'a str,
) -> Result<Findings, Fault<'a>>
    ensures ends { TellsKeyed F.at F.fails F.runs_out K.draws K.fails files.old files.new keys.old keys.new
        IsInspectionOf table.entry (report_result result) }
    ensures same { Unchanged (F.at files.old) (F.at files.new) }
{
    let (bytes, keys) = read_keyed(alloc, files, keys, table)?;
    answered(inspection_of(alloc, &bytes, keys))
}

/// `lint RULES TABLE`: the findings in the rules and the holdings table. The rules are read first.
pub(crate) fn lint<'a, F: Files, K: KeySource>(
    alloc: Global,
    files: &mut F,
    keys: &mut K,
    rules: &'a str,
    table: &'a str,
) -> Result<Findings, Fault<'a>>
    ensures ends { TellsOfTarget F.at F.fails F.runs_out K.draws K.fails files.old files.new keys.old keys.new
        IsLintOf rules.entry table.entry (report_result result) }
    ensures same { Unchanged (F.at files.old) (F.at files.new) }
{
    let (rules, bytes, keys) = read_target(alloc, files, keys, rules, table)?;
    answered(lint_of(alloc, &rules, &bytes, keys))
}

/// `explain RULES TABLE QUERY`: prints what the rules give for the query on each row of the table that is tried;
/// `Warning` if none of them has a web link. The text is printed row by row, so an error can come after some of it.
pub(crate) fn explain<'a, F: Files, K: KeySource, O: Write>(
    alloc: Global,
    files: &mut F,
    keys: &mut K,
    rules: &'a str,
    table: &'a str,
    query: &str,
    output: &mut O,
) -> Result<(), Fault<'a>>
    ensures ends { Explains F.at F.fails F.runs_out K.draws K.fails files.old files.new keys.old keys.new
        rules.entry table.entry query.now (output_of O.contents output.old output.new) (end_of result) }
    ensures same { Unchanged (F.at files.old) (F.at files.new) }
{
    let (rules, bytes, keys) = read_target(alloc, files, keys, rules, table)?;
    let table = table_of(alloc, &bytes, keys)?;
    explain_query(alloc, &rules, &table, query, output)
}

/// Prints what the rules give for the query on each row of the table that is tried.
fn explain_query<'a, O: Write>(
    alloc: Global,
    rules: &Rules,
    table: &Table,
    query: &str,
    output: &mut O,
) -> Result<(), Fault<'a>>
    ensures { Explained rules.now table.now query.now (output_of O.contents output.old output.new) (end_of result) }
{
    let found = rule_explanation::explain(alloc, rules, table, &request_of(alloc, query)?, output);
    match found {
        Ok(true) => Ok(()),
        Ok(false) => Err(Fault::Warning),
        Err(ExplainError::NoMemory) => Err(Fault::Refused(Refusal::Memory)),
        Err(ExplainError::Output) => Err(Fault::Device("-")),
    }
}
