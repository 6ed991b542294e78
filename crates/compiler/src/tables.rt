//! The tables of code: each name and each literal once, in the order in which lines use them.

ghost use Rattle.std.specs.Prelude.{◌≡◌, ◌≤◌, All, length, OnOk};
ghost use Rattle.std.specs.List.{list_any, filter_map, position};
ghost use Rattle.compiler_model.specs.Tables.{name_entry, literal_entry, is_same_name, is_same_literal, name_used};
ghost use Rattle.compiler_model.specs.Tables.{literal_used, name_index as index_of_name};
ghost use Rattle.compiler_model.specs.Tables.{literal_index as index_of_literal};
ghost use Rattle.compiler.specs.Private.Growth.{added, with_entry, gathered, IsUtf8Literal};

use code_file::{Literal, Name};
use compiler_model::{Action, Line};
use std::alloc::{AllocError, Global};

fn has_name(names: &[Name], list: bool, text: &str) -> bool
    ensures { result ≡ list_any (is_same_name (name_entry list text.now)) names.now }
{
    names
        .iter()
        .any(|name| text == name.text.as_str() && list == name.list)
}

fn has_literal(literals: &[Literal], compared: bool, bytes: &[u8]) -> bool
    ensures { result ≡ list_any (is_same_literal (literal_entry compared bytes.now)) literals.now }
{
    literals.iter().any(|literal| bytes == literal.bytes.as_slice() && compared == literal.compared)
}

fn add_name(alloc: Global, names: &mut Vec<Name>, list: bool, text: &str) -> Result<(), AllocError>
    ensures { OnOk result (names.new.items ≡ added is_same_name names.old.items (name_entry list text.now)) }
{
    if has_name(names, list, text) {
        return Ok(());
    }
    let text = String::from_str(alloc, text)?;
    names.push(Name { list, text })?;
    Ok(())
}

fn add_literal(
    alloc: Global,
    literals: &mut Vec<Literal>,
    compared: bool,
    text: &str,
) -> Result<(), AllocError>
    requires { All IsUtf8Literal literals.old.items }
    ensures added { OnOk result
        (literals.new.items ≡ added is_same_literal literals.old.items (literal_entry compared text.now)) }
    ensures utf8 { OnOk result (All IsUtf8Literal literals.new.items) }
{
    if has_literal(literals, compared, text.as_bytes()) {
        return Ok(());
    }
    let bytes = text.as_bytes().to_vec(alloc)?;
    literals.push(Literal { compared, bytes })?;
    Ok(())
}

fn add_used_name(alloc: Global, names: &mut Vec<Name>, line: &Line) -> Result<(), AllocError>
    ensures { OnOk result (names.new.items ≡ with_entry is_same_name names.old.items (name_used line.now)) }
{
    match line {
        Line::Acts(Action::LoadText(_, name)) => add_name(alloc, names, false, name.as_str()),
        Line::Acts(Action::LoadList(_, name)) => add_name(alloc, names, true, name.as_str()),
        _ => Ok(()),
    }
}

fn add_used_literal(
    alloc: Global,
    literals: &mut Vec<Literal>,
    line: &Line,
) -> Result<(), AllocError>
    requires { All IsUtf8Literal literals.old.items }
    ensures added { OnOk result
        (literals.new.items ≡ with_entry is_same_literal literals.old.items (literal_used line.now)) }
    ensures utf8 { OnOk result (All IsUtf8Literal literals.new.items) }
{
    match line {
        Line::Acts(Action::LoadConst(_, text)) => add_literal(alloc, literals, true, text.as_str()),
        Line::Acts(Action::Emits(text)) => add_literal(alloc, literals, false, text.as_str()),
        Line::Acts(Action::Separates(text)) => add_literal(alloc, literals, false, text.as_str()),
        _ => Ok(()),
    }
}

/// The names that lines use, after the existing ones.
pub(crate) fn add_names(
    alloc: Global,
    names: &mut Vec<Name>,
    lines: &[Line],
) -> Result<(), AllocError>
    ensures { OnOk result (names.new.items ≡ gathered is_same_name names.old.items (filter_map name_used lines.now)) }
{
    for line in lines {
        add_used_name(alloc, names, line)?;
    }
    Ok(())
}

/// The literals that lines use, after the existing ones.
pub(crate) fn add_literals(
    alloc: Global,
    literals: &mut Vec<Literal>,
    lines: &[Line],
) -> Result<(), AllocError>
    requires { All IsUtf8Literal literals.old.items }
    ensures gathered { OnOk result (literals.new.items ≡ gathered is_same_literal literals.old.items
        (filter_map literal_used lines.now)) }
    ensures utf8 { OnOk result (All IsUtf8Literal literals.new.items) }
{
    for line in lines {
        add_used_literal(alloc, literals, line)?;
    }
    Ok(())
}

/// The place of a name in its table, if it is in it.
fn find_name(names: &[Name], list: bool, text: &str) -> Option<usize>
    ensures { result ≡ position (is_same_name (name_entry list text.now)) names.now }
{
    names
        .iter()
        .position(|name| text == name.text.as_str() && list == name.list)
}

/// The place of a literal in its table, if it is in it.
fn find_literal(literals: &[Literal], compared: bool, bytes: &[u8]) -> Option<usize>
    ensures { result ≡ position (is_same_literal (literal_entry compared bytes.now)) literals.now }
{
    literals.iter().position(|literal| bytes == literal.bytes.as_slice()
        && compared == literal.compared)
}

/// The index of a name; the length of the table if it is not in it.
#[tactic(auto, using(text_model::proofs::Lists::index_or_length, text_model::proofs::Lists::index_within))]
pub(crate) fn name_index(names: &[Name], list: bool, text: &str) -> usize
    ensures index { result ≡ index_of_name names.now list text.now }
    ensures within { result ≤ length names.now }
{
    find_name(names, list, text).unwrap_or(names.len())
}

/// The index of a literal; the length of the table if it is not in it.
#[tactic(auto, using(text_model::proofs::Lists::index_or_length, text_model::proofs::Lists::index_within))]
pub(crate) fn literal_index(literals: &[Literal], compared: bool, bytes: &[u8]) -> usize
    ensures index { result ≡ index_of_literal literals.now compared bytes.now }
    ensures within { result ≤ length literals.now }
{
    find_literal(literals, compared, bytes).unwrap_or(literals.len())
}
