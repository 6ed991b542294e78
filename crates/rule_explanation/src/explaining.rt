//! Row after row, until one has a web link.

ghost use Rattle.std.specs.Prelude.{◌≡◌, IfErr, IfOk, OnErr, OnOk};
ghost use Rattle.std.specs.Io.KnownBytes.{Appends};
ghost use Rattle.std.specs.List.{flat_map};
ghost use Rattle.files.specs.Writing.{IsWrittenInPart};
ghost use Rattle.kbart_rows.specs.Identifiers.{ids_of};
ghost use Rattle.rule_explanation.specs.Explanation.{explanation, tried_row_text};
ghost use Rattle.rule_explanation.specs.Failing.{numbered};
ghost use Rattle.rule_explanation.specs.Rows.{has_web_link, tried_rows};
ghost use Rattle.rule_explanation.specs.declared.error.ExplainError.TheVariants.{Output};

use crate::error::ExplainError;
use crate::rows::explain_row;
use crate::rules_request::RulesRequest;
use files::write_text;
use kbart_rows::{Ids, Table};
use kev_read::Request;
use rule_parser::Rules;
use std::alloc::Global;
use std::io::Write;

/// The rules that fail are printed for at most this number of the rows that are tried, the first ones.
pub const MAX_DETAILED: usize = 100;

/// Writes what the rules give on each row of the table that matches the request, row by row, until a row has a web
/// link. Returns whether one has.
///
/// `NoMemory` if an allocation failed, `Output` if the output failed. After either, the output has received a beginning
/// of the text, perhaps nothing.
pub fn explain<W: Write>(
    alloc: Global,
    rules: &Rules,
    table: &Table,
    request: &Request,
    output: &mut W,
) -> Result<bool, ExplainError>
    ensures found { IfOk result (λ found. found ≡ has_web_link rules.now table.now request.now.pairs) }
    ensures printed { OnOk result (Appends (W.contents output.old) (W.contents output.new)
        (explanation rules.now table.now request.now.pairs)) }
    ensures in_part { OnErr result (IsWrittenInPart (W.contents output.old) (W.contents output.new)
        (explanation rules.now table.now request.now.pairs)) }
{
    let ids = Ids::of(alloc, request)?;
    match table.next_match(&ids, 0) {
        Some(_) => explain_rows(alloc, rules, table, request, &ids, output),
        None => {
            write(output, "no row\n")?;
            Ok(false)
        }
    }
}

/// Writes what the rules give on each row that is tried.
fn explain_rows<W: Write>(
    alloc: Global,
    rules: &Rules,
    table: &Table,
    request: &Request,
    ids: &Ids,
    output: &mut W,
) -> Result<bool, ExplainError>
    requires { ids.now ≡ ids_of request.now.pairs }
    ensures found { IfOk result (λ found. found ≡ has_web_link rules.now table.now request.now.pairs) }
    ensures printed { OnOk result (Appends (W.contents output.old) (W.contents output.new)
        (flat_map (tried_row_text rules.now table.now request.now.pairs)
        (numbered (tried_rows rules.now table.now request.now.pairs)))) }
    ensures in_part { OnErr result (IsWrittenInPart (W.contents output.old) (W.contents output.new)
        (flat_map (tried_row_text rules.now table.now request.now.pairs)
        (numbered (tried_rows rules.now table.now request.now.pairs)))) }
{
    let request = RulesRequest::new(alloc, rules, table, request)?;
    let rows = table.rows();
    let mut from = 0;
    let mut place = 1;
    while let Some(row) = table.next_match(ids, from) {
        prove!(row < rows);
        let is_detailed = place <= MAX_DETAILED;
        let explained = explain_row(alloc, &request, row, is_detailed)?;
        write(output, explained.text.as_str())?;
        if explained.has_web_link {
            return Ok(true);
        }
        from = row + 1;
        place += 1;
    }
    Ok(false)
}

fn write<W: Write>(output: &mut W, text: &str) -> Result<(), ExplainError>
    ensures ok { OnOk result (Appends (W.contents output.old) (W.contents output.new) text.now) }
    ensures in_part { OnErr result (IsWrittenInPart (W.contents output.old) (W.contents output.new) text.now) }
    ensures err { IfErr result (λ e. e ≡ Output) }
{
    match write_text(output, text) {
        Ok(()) => Ok(()),
        Err(_) => Err(ExplainError::Output),
    }
}
