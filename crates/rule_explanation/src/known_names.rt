//! What names are, found once for all rows.

ghost use Rattle.std.specs.Prelude.{◌≡◌, IfOk, IfSome, string_bytes};
ghost use Rattle.std.specs.Str.{bytes_eq};
ghost use Rattle.std.specs.List.{position as position_in};
ghost use Rattle.rule_explanation.specs.Private.KnownNames.{AreKnown, known_as};

use crate::list_names::ListNames;
use kbart_rows::{NameSet, Table};
use std::alloc::{AllocError, Global};

/// As many names as this are compared one after another, which takes less time than a hash. More are found by hash.
const FEW_NAMES: usize = 16;

/// What a name is to rules and a table.
#[derive(Clone, Copy)]
pub(crate) struct KnownName {
    pub(crate) is_list: bool,
    /// The first column with the name.
    pub(crate) column: Option<usize>,
}

impl KnownName {
    /// Looks a name up among the lists and the columns, each by hash.
    pub(crate) fn new(lists: &ListNames, table: &Table, name: &str) -> KnownName
        ensures { result ≡ known_as lists.now table.now.header name.now }
    {
        KnownName {
            is_list: lists.contains(name),
            column: table.column(name),
        }
    }
}

/// Names that were looked up, and what they are.
#[derive(Drop)]
pub(crate) struct KnownNames {
    names: NameSet,
    known: Vec<KnownName>,
}

impl KnownNames {
    /// Looks these names up.
    pub(crate) fn new(
        alloc: Global,
        names: NameSet,
        lists: &ListNames,
        table: &Table,
    ) -> Result<KnownNames, AllocError>
        ensures known { IfOk result (AreKnown lists.now table.now.header) }
        ensures names { IfOk result (λ found. found.names ≡ names) }
    {
        let texts = names.as_slice();
        let mut known = Vec::new(alloc);
        for name in texts {
            known.push(KnownName::new(lists, table, name.as_str()))?;
        }
        Ok(KnownNames { names, known })
    }

    /// What the name is; `None` if it was not looked up.
    pub(crate) fn get(&self, lists: &ListNames, table: &Table, name: &str) -> Option<KnownName>
        requires { AreKnown lists.now table.now.header self.now }
        ensures { IfSome result (λ known. known ≡ known_as lists.now table.now.header name.now) }
    {
        let number = position(&self.names, name)?;
        let known = *self.known.get(number)?;
        Some(known)
    }
}

/// How many names come before this one; `None` if it is not among them.
fn position(names: &NameSet, name: &str) -> Option<usize>
    ensures { result ≡ position_in (bytes_eq name.now) names.now.names }
{
    if names.len() > FEW_NAMES {
        names.position(name)
    } else {
        first_equal(names.as_slice(), name)
    }
}

/// The index of the first text that equals this one.
fn first_equal(texts: &[String], text: &str) -> Option<usize>
    ensures { result ≡ position_in (λ other. bytes_eq text.now (string_bytes other)) texts.now }
{
    texts.iter().position(|other| text == other.as_str())
}
