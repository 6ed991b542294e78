//! The names of all targets.

ghost use Rattle.std.specs.Prelude.{◌≡◌, [], IfOk, OnErr, OnOk, false, length, take, true};
ghost use Rattle.kbart_rows.specs.NameSets.{with_names};
ghost use Rattle.row_scope.specs.NameColumns.{AreNameColumns};
ghost use Rattle.row_scope.specs.NameNumbers.{AreKept, AreOwnNumbers, with_code_names};

use code_file::Code;
use kbart_rows::{Keys, NameSet, Table};
use row_scope::NameColumns;
use std::alloc::{AllocError, Global};

/// The names of all targets.
#[derive(Drop)]
pub(crate) struct Names {
    /// The names of the columns of all tables.
    pub(crate) columns: NameSet,
    /// The names of all codes that have numbers.
    pub(crate) numbered: NameSet,
}

impl Names {
    /// No names. Later ones are found by these keys.
    pub(crate) fn new(alloc: Global, keys: Keys) -> Names
        ensures { result ≡ record {
          columns = record { names = []; keys = keys };
          numbered = record { names = []; keys = keys };
        } }
    {
        Names {
            columns: NameSet::new(alloc, keys),
            numbered: NameSet::new(alloc, keys),
        }
    }

    /// Names are found by these keys from now on, if there are no targets yet.
    pub(crate) fn set_keys(&mut self, alloc: Global, is_first: bool, keys: Keys)
        ensures first { is_first ≡ true → self.new ≡ record {
          columns = record { names = []; keys = keys };
          numbered = record { names = []; keys = keys };
        } }
        ensures others { is_first ≡ false → self.new ≡ self.old }
    {
        if is_first {
            *self = Names::new(alloc, keys);
        }
    }

    /// Adds the names of a table and of a code, and returns the columns and the numbers of the code's names.
    ///
    /// `AllocError` if an allocation failed; the names are then as they were.
    pub(crate) fn add(
        &mut self,
        alloc: Global,
        code: &Code,
        table: &Table,
    ) -> Result<NameColumns, AllocError>
        ensures columns { OnOk result (self.new.columns
            ≡ record self.old.columns { names = with_names self.old.columns.names table.now.header }) }
        ensures numbered { OnOk result (self.new.numbered
            ≡ record self.old.numbered { names = with_code_names self.old.numbered.names code.now }) }
        ensures kept { AreKept self.old.numbered.names self.new.numbered.names }
        ensures places { IfOk result (AreNameColumns code.now table.now.header) }
        ensures own { IfOk result (λ places.
            AreOwnNumbers self.new.numbered.names code.now places.numbers.items) }
        ensures err { OnErr result (self.new ≡ self.old) }
    {
        let len = self.columns.len();
        self.columns.add_columns(alloc, table)?;
        match NameColumns::new(alloc, code, table, &mut self.numbered) {
            Ok(places) => Ok(places),
            Err(error) => {
                self.columns.truncate(len);
                Err(error)
            }
        }
    }

    /// How many names of columns there are, and how many that have numbers.
    pub(crate) fn lens(&self) -> (usize, usize)
        ensures { result ≡ (length self.now.columns.names, length self.now.numbered.names) }
    {
        (self.columns.len(), self.numbered.len())
    }

    /// Keeps that many names of columns, and that many that have numbers.
    pub(crate) fn truncate(&mut self, lens: (usize, usize))
        ensures columns { self.new.columns
            ≡ record self.old.columns { names = take lens.0 self.old.columns.names } }
        ensures numbered { self.new.numbered
            ≡ record self.old.numbered { names = take lens.1 self.old.numbered.names } }
    {
        self.columns.truncate(lens.0);
        self.numbered.truncate(lens.1);
    }
}
