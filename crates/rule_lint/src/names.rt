//! The names that are defined for a target.

ghost use Rattle.std.specs.Prelude.{◌≡◌, ◌++◌, ◌∷◌, [], IfOk, OnOk, filter};
ghost use Rattle.std.specs.List.{find};
ghost use Rattle.std.specs.Option.{option_copied};
ghost use Rattle.text_model.specs.Texts.{texts_of};
ghost use Rattle.environment_model.specs.Environment.{is_among as is_one_of};
ghost use Rattle.environment_model.specs.Lists.{list_names};
ghost use Rattle.rule_parser.specs.Names.{each_once};
ghost use Rattle.standard_names.specs.Keys.{request_keys as every_key};
ghost use Rattle.rule_lint.specs.Names.{is_known as is_defined, is_standard_column as is_in_standard};
ghost use Rattle.rule_lint.specs.Names.{is_name as is_template_name, resembles, resembled as first_resembled};
ghost use Rattle.rule_lint.specs.Host.{is_rows_own as is_of_rows};
ghost use Rattle.rule_lint.specs.Private.Starts.{AreSearchStarts};

use crate::resemblance::first_like;
use crate::starts::{Firsts, start_of};
use crate::target::Target;
use crate::varchars::is_template_name;
use kbart_rows::{RowCursor, Table};
use standard_names::{column_names, request_keys};
use std::alloc::{AllocError, Global};

/// Whether the name is one of these.
pub(crate) fn is_among(names: &[&str], name: &str) -> bool
    ensures { result ≡ is_one_of name.now (texts_of names.now) }
{
    names.contains(&name)
}

/// Whether the name is one of the columns that the standard defines.
pub(crate) fn is_standard_column(name: &str) -> bool
    ensures { result ≡ is_in_standard name.now }
{
    is_among(column_names(), name)
}

fn push_if_template_name<'a>(names: &mut Vec<&'a str>, column: &'a str) -> Result<(), AllocError>
    ensures { OnOk result (texts_of names.new.items
        ≡ texts_of names.old.items ++ filter is_template_name (column.now ∷ [])) }
{
    if is_template_name(column) {
        names.push(column)?;
    }
    Ok(())
}

/// The columns whose names can be used in a template.
pub(crate) fn template_columns<'a>(
    alloc: Global,
    table: &'a Table,
) -> Result<Vec<&'a str>, AllocError>
    ensures { IfOk result (λ names. texts_of names.items ≡ filter is_template_name table.now.header) }
{
    let mut names = Vec::new(alloc);
    let mut columns = RowCursor::new(table.header());
    while let Some(column) = columns.next_cell() {
        push_if_template_name(&mut names, column)?;
    }
    Ok(names)
}

/// The first of these names that resembles the name, by the first names with each key.
fn first_from_start<'a>(
    names: &[&'a str],
    firsts: &Firsts,
    multiplier: u64,
    name: &str,
) -> Option<&'a str>
    requires { AreSearchStarts multiplier firsts.now (texts_of names.now) }
    ensures { option_copied result ≡ find (resembles name.now) (texts_of names.now) }
{
    let start = start_of(firsts, multiplier, name.as_bytes()).min(names.len());
    first_like(&names[start..], name)
}

fn key_like(name: &str) -> Option<&'static str>
    ensures { option_copied result ≡ find (resembles name.now) every_key }
{
    first_like(request_keys(), name)
}

impl<'a> Target<'a> {
    /// Whether the name is a list, a column or a key.
    pub(crate) fn is_known(&self, name: &str) -> bool
        ensures { result ≡ is_defined self.now.rules.now self.now.table.now name.now }
    {
        self.rules.is_list(name)
            || self.table.column(name).is_some()
            || is_among(request_keys(), name)
    }

    /// The first column that resembles the name and whose own name can be used in a template.
    fn column_like(&self, name: &str) -> Option<&'a str>
        ensures { option_copied result
            ≡ find (resembles name.now) (filter is_template_name self.now.table.now.header) }
    {
        first_from_start(
            &self.template_columns,
            &self.column_starts,
            self.multiplier,
            name,
        )
    }

    fn list_like(&self, name: &str) -> Option<&'a str>
        ensures { option_copied result ≡ find (resembles name.now) (each_once (list_names self.now.rules.now.lists)) }
    {
        first_from_start(&self.lists, &self.list_starts, self.multiplier, name)
    }

    /// The first column, list or key that the name resembles.
    pub(crate) fn resembled(&self, name: &str) -> Option<&'a str>
        ensures { option_copied result ≡ first_resembled self.now.rules.now self.now.table.now name.now }
    {
        if let Some(column) = self.column_like(name) {
            return Some(column);
        }
        if let Some(list) = self.list_like(name) {
            return Some(list);
        }
        key_like(name)
    }

    /// Whether every row decides what the name denotes, whatever the request.
    pub(crate) fn is_rows_own(&self, name: &str) -> bool
        ensures { result ≡ is_of_rows self.now.rules.now self.now.table.now name.now }
    {
        match self.table.column(name) {
            Some(k) => !self.rules.is_list(name) && self.columns[k].complete == self.table.rows(),
            None => false,
        }
    }
}
