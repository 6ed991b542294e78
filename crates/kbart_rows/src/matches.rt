//! The rows of a table that have one of a request's identifiers.

ghost use Rattle.std.specs.Prelude.{◌≡◌, ◌+◌, ◌<◌, [], IfSome, drop, length, true};
ghost use Rattle.std.specs.List.{slice_get};
ghost use Rattle.kbart_rows.specs.Identifiers.{first_from, matching_rows};
ghost use Rattle.kbart_rows.specs.Private.Runs.{AreReady};

use crate::ids::Ids;
use crate::runs::Runs;
use crate::table::Table;
use std::marker::Model;

/// A table's rows that match a request's identifiers, one after another; contracts see the rows that are still to come.
#[derive(Drop)]
pub struct Matches<'a> {
    table: &'a Table,
    ids: &'a Ids,
    runs: Runs<'a>,
    // The rows before this one were returned, or do not match.
    from: usize,
}

impl<'a> Model for Matches<'a> {
    ghost use Rattle.std.specs.Prelude.{ℕ, List, filter, nat_le};
    ghost use Rattle.kbart_rows.specs.Identifiers.{matching_rows};
    ghost use Rattle.kbart_rows.specs.Private.Runs.{AreReady};

    ghost Value = { List ℕ };

    ghost view = { λ matches. filter (nat_le matches.from) (matching_rows matches.table.now matches.ids.now) };

    ghost invariant = { λ matches. AreReady matches.table.now matches.ids.now matches.from matches.runs };
}

impl<'a> Matches<'a> {
    /// The rows that have one of the identifiers.
    pub(crate) fn new(table: &'a Table, ids: &'a Ids) -> Matches<'a>
        ensures { result ≡ matching_rows table.now ids.now }
    {
        Matches {
            table,
            ids,
            runs: table.runs(ids, 0),
            from: 0,
        }
    }

    /// The next row, in rising order. It takes the same time whatever rows the table has.
    pub fn next(&mut self) -> Option<usize>
        ensures head { result ≡ slice_get self.old 0 }
        ensures tail { self.new ≡ drop 1 self.old }
    {
        if self.is_over() {
            return None;
        }
        let mut runs = self.runs;
        match next_row(self.table, self.ids, &mut runs, self.from) {
            Some(row) => {
                self.runs = runs;
                self.from = row + 1;
                Some(row)
            }
            None => None,
        }
    }

    /// Whether the index has no more entry of the identifiers, so that no row is left.
    fn is_over(&self) -> bool
        ensures { result ≡ true → self.now ≡ [] }
    {
        match self.runs.least() {
            Some(_) => false,
            None => true,
        }
    }
}

/// The first row at or after `from` that has one of the identifiers.
pub(crate) fn next_row(table: &Table, ids: &Ids, runs: &mut Runs, from: usize) -> Option<usize>
    requires { AreReady table.now ids.now from runs.old }
    ensures first { result ≡ first_from from (matching_rows table.now ids.now) }
    ensures within { IfSome result (λ row. row < length table.now.rows) }
    ensures ready { IfSome result (λ row. AreReady table.now ids.now (row + 1) runs.new) }
{
    let mut least = from;
    while let Some(row) = runs.least() {
        runs.pass(row);
        if row >= least {
            if table.is_match(row, ids) {
                return Some(row);
            }
            least = row + 1;
        }
    }
    None
}
