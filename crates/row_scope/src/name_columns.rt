//! A code over a table: which columns have its names, and which of its names are lists.

ghost use Rattle.std.specs.Prelude.{◌≡◌, ◌<◌, All, IfOk, OnErr, OnOk, length};
ghost use Rattle.environment_model.specs.Lists as spec;
ghost use Rattle.row_scope.specs.RowEnvironments.{lists_of};
ghost use Rattle.row_scope.specs.NameNumbers.{AreKept, AreOwnNumbers, with_code_names};
ghost use Rattle.row_scope.specs.NameColumns.{AreColumns, AreMarked, AreNameColumns, AreOwnLists, names_at};

use crate::name_numbers::numbers_of;
use code_file::Code;
use kbart_rows::{NameSet, Table};
use kev_read::is_standard_list;
use std::alloc::{AllocError, Global};

/// A column of a table that has a name of a code.
#[derive(Clone, Copy)]
pub struct NameColumn {
    pub(crate) column: usize,
    /// The index of the name in the code's table.
    pub(crate) number: usize,
}

/// What is known about a code and a table before any request.
#[derive(Drop)]
pub struct NameColumns {
    /// Each name that has a column, in the order of the columns.
    pub(crate) columns: Vec<NameColumn>,
    /// The numbers of the lists that the code declares in addition to those of the standard, each once.
    pub(crate) lists: Vec<usize>,
    /// For each name of the code, whether it names a list.
    pub(crate) marks: Vec<bool>,
    /// For each name of the code, its own number among those of many codes, if it has one.
    pub(crate) numbers: Vec<Option<usize>>,
}

impl NameColumns {
    /// The columns of a table that have names of a code. Names of the code that have no number yet are added to the
    /// numbered ones, up to 256.
    ///
    /// `AllocError` if an allocation failed; the numbered names are then as they were.
    pub fn new(
        alloc: Global,
        code: &Code,
        table: &Table,
        numbered: &mut NameSet,
    ) -> Result<NameColumns, AllocError>
        ensures columns { IfOk result (AreNameColumns code.now table.now.header) }
        ensures own { IfOk result (λ names. AreOwnNumbers numbered.new.names code.now names.numbers.items) }
        ensures names { OnOk result (numbered.new.names ≡ with_code_names numbered.old.names code.now) }
        ensures keys { numbered.new.keys ≡ numbered.old.keys }
        ensures kept { AreKept numbered.old.names numbered.new.names }
        ensures err { OnErr result (numbered.new ≡ numbered.old) }
    {
        Ok(NameColumns {
            columns: columns_of(alloc, code, table)?,
            lists: own_lists(alloc, code)?,
            marks: marks_of(alloc, code)?,
            numbers: numbers_of(alloc, numbered, code)?,
        })
    }
}

fn columns_of(alloc: Global, code: &Code, table: &Table) -> Result<Vec<NameColumn>, AllocError>
    ensures { IfOk result (λ columns. AreColumns code.now table.now.header columns.items) }
{
    let mut columns = Vec::new(alloc);
    for number in 0..code.names().len() {
        if let Some(column) = table.column(code.name(number).text.as_str()) {
            columns.push(NameColumn { column, number })?;
        }
    }
    columns.sort_unstable_by_key(|place| place.column);
    Ok(columns)
}

fn own_lists(alloc: Global, code: &Code) -> Result<Vec<usize>, AllocError>
    ensures { IfOk result (λ lists. AreOwnLists code.now lists.items) }
{
    let mut lists = Vec::new(alloc);
    for number in 0..code.names().len() {
        let name = code.name(number);
        if name.list && !is_known_list(code, &lists, name.text.as_str()) {
            lists.push(number)?;
        }
    }
    Ok(lists)
}

fn marks_of(alloc: Global, code: &Code) -> Result<Vec<bool>, AllocError>
    ensures { IfOk result (λ marks. AreMarked code.now marks.items) }
{
    code.names()
        .iter()
        .map(|name| is_list(code, name.text.as_str()))
        .collect(alloc)
}

/// Whether a name is a list by the standard, or is one of these names of the code.
fn is_known_list(code: &Code, numbers: &[usize], name: &str) -> bool
    requires { All (λ number. number < length code.now.names) numbers.now }
    ensures { result ≡ spec.is_list (names_at code.now numbers.now) name.now }
{
    is_standard_list(name)
        || numbers
            .iter()
            .any(|number| code.name(*number).text.as_str() == name)
}

/// Whether a code reads a name as a list.
pub(crate) fn is_list(code: &Code, name: &str) -> bool
    ensures { result ≡ spec.is_list (lists_of code.now) name.now }
{
    is_standard_list(name)
        || code
            .names()
            .iter()
            .any(|other| other.list && other.text.as_str() == name)
}
