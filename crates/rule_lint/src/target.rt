//! The rules and the table of a target.

ghost use Rattle.std.specs.Prelude.{◌≡◌, filter};
ghost use Rattle.text_model.specs.Texts.{texts_of};
ghost use Rattle.environment_model.specs.Lists.{list_names};
ghost use Rattle.rule_parser.specs.Names.{each_once};
ghost use Rattle.rule_lint.specs.Names.{is_name};
ghost use Rattle.rule_lint.specs.Private.Columns.{AreColumns};
ghost use Rattle.rule_lint.specs.Private.Starts.{AreSearchStarts};

use crate::columns::Column;
use crate::starts::Firsts;
use kbart_rows::Table;
use rule_parser::Rules;

/// The rules and the table of a target, with the names of the rules' lists, the columns of the table, those whose names
/// can be used in a template, and where a search for a similar one among these columns and lists begins.
#[derive(Drop)]
pub(crate) struct Target<'a> {
    pub(crate) rules: &'a Rules,
    pub(crate) table: &'a Table,
    pub(crate) lists: Vec<&'a str>,
    pub(crate) columns: Vec<Column>,
    pub(crate) template_columns: Vec<&'a str>,
    pub(crate) multiplier: u64,
    pub(crate) list_starts: Firsts,
    pub(crate) column_starts: Firsts,
    ghost lists_of_rules: { texts_of lists.items ≡ each_once (list_names rules.now.lists) },
    ghost template_columns_of_table: { texts_of template_columns.items ≡ filter is_name table.now.header },
    ghost starts_of_lists: { AreSearchStarts multiplier list_starts (texts_of lists.items) },
    ghost starts_of_columns: { AreSearchStarts multiplier column_starts (texts_of template_columns.items) },
    ghost columns_of_table: { AreColumns table.now.header table.now.rows columns.items },
}
