//! Sets of names: of columns of any number of tables, or of codes.

ghost use Rattle.std.specs.Prelude.{◌≡◌, [], OnErr, OnOk, length, map, string_bytes, take};
ghost use Rattle.std.specs.List.{position};
ghost use Rattle.std.specs.Str.{bytes_eq};
ghost use Rattle.kbart_rows.specs.NameSets.{has, with_name, with_names};

use crate::keys::Keys;
use crate::row_cursor::RowCursor;
use crate::table::Table;
use indexmap::IndexSet;
use std::alloc::{AllocError, Global};
use std::marker::Model;

/// Names, each once, in the order in which they were first added, which are found by keyed hashes. Contracts see the
/// names and the keys.
#[derive(Drop)]
pub struct NameSet {
    names: IndexSet<String, Keys>,
}

impl Model for NameSet {
    ghost use Rattle.kbart_rows.specs.NameSets.{NameSetValue};
    ghost use Rattle.kbart_rows.specs.Private.NameSetTexts.{texts_in};
    ghost use Rattle.std.specs.HashSet.{hasher_of};

    ghost Value = { NameSetValue };

    ghost view = { λ set. record { names = texts_in set.names.keys; keys = hasher_of set.names } };
}

impl NameSet {
    /// No names. Later ones are found by these keys.
    pub fn new(alloc: Global, keys: Keys) -> NameSet
        ensures { result ≡ record { names = []; keys = keys } }
    {
        NameSet {
            names: IndexSet::with_hasher(alloc, keys),
        }
    }

    /// Adds a name after the others, if it is not among them.
    ///
    /// `AllocError` if an allocation failed; the names are then as they were.
    pub fn add(&mut self, alloc: Global, name: &str) -> Result<(), AllocError>
        ensures names { OnOk result (self.new.names ≡ with_name self.old.names name.now) }
        ensures keys { self.new.keys ≡ self.old.keys }
        ensures err { OnErr result (self.new ≡ self.old) }
    {
        if !self.names.contains(name) {
            self.names.insert(String::from_str(alloc, name)?)?;
        }
        Ok(())
    }

    /// Adds the names of a table's columns, in their order.
    ///
    /// `AllocError` if an allocation failed; the names are then as they were.
    pub fn add_columns(&mut self, alloc: Global, table: &Table) -> Result<(), AllocError>
        ensures names { OnOk result (self.new.names ≡ with_names self.old.names table.now.header) }
        ensures keys { self.new.keys ≡ self.old.keys }
        ensures err { OnErr result (self.new ≡ self.old) }
    {
        let len = self.len();
        let added = self.add_cells(alloc, table);
        if added.is_err() {
            self.truncate(len);
        }
        added
    }

    /// Keeps the first `len` names.
    pub fn truncate(&mut self, len: usize)
        ensures names { self.new.names ≡ take len self.old.names }
        ensures keys { self.new.keys ≡ self.old.keys }
    {
        self.names.truncate(len);
    }

    /// Whether the name is among them.
    pub fn contains(&self, name: &str) -> bool
        ensures { result ≡ has self.now.names name.now }
    {
        self.names.contains(name)
    }

    /// How many names come before this one; `None` if it is not among them.
    pub fn position(&self, name: &str) -> Option<usize>
        ensures { result ≡ position (bytes_eq name.now) self.now.names }
    {
        self.names.get_index_of(name)
    }

    /// How many names there are.
    pub fn len(&self) -> usize
        ensures { result ≡ length self.now.names }
    {
        self.names.len()
    }

    /// The names, in their order.
    pub fn as_slice(&self) -> &[String]
        ensures { map string_bytes result.now ≡ self.now.names }
    {
        self.names.as_slice()
    }

    /// Adds the names of a table's columns. If an allocation failed, some of them are missing.
    fn add_cells(&mut self, alloc: Global, table: &Table) -> Result<(), AllocError>
        ensures names { OnOk result (self.new.names ≡ with_names self.old.names table.now.header) }
        ensures keys { self.new.keys ≡ self.old.keys }
        ensures kept { take (length self.old.names) self.new.names ≡ self.old.names }
    {
        let mut cells = RowCursor::new(table.header());
        while let Some(name) = cells.next_cell() {
            self.add(alloc, name)?;
        }
        Ok(())
    }
}
