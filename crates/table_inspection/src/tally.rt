//! How many identifiers there are, and which has the most rows.

ghost use Rattle.std.specs.Prelude.{◌≡◌, ◌≤◌, ◌<◌, ◌+◌, ◌++◌, ℕ, [], ◌∷◌, List, IfOk, OnOk, false, length, true};
ghost use Rattle.std.specs.List.{list_any};
ghost use Rattle.std.specs.Option.{option_to_list};
ghost use Rattle.std.specs.Str.{bytes_eq};
ghost use Rattle.text_model.specs.Texts.{Text};
ghost use Rattle.kbart_rows.specs.Cells.{defined};
ghost use Rattle.kbart_rows.specs.Identifiers.{identifier_columns, matching_rows};
ghost use Rattle.kbart_rows.specs.Sharing.{SharesAtMost, row_has};
ghost use Rattle.table_inspection.specs.Columns.{is_empty_text};
ghost use Rattle.table_inspection.specs.Identifiers.{identifiers_of};
ghost use Rattle.table_inspection.specs.Private.Tallying as spec;

use crate::most_rows::Most;
use kbart_rows::{Ids, Sharing, Table};
use std::alloc::{AllocError, Global};

/// The identifiers of the rows so far: how many there are, and the first that has the most rows of the table.
#[derive(Drop)]
pub(crate) struct Tally {
    pub(crate) identifiers: usize,
    pub(crate) most: Most,
}

/// The identifiers of a row, in normal form and empty where there is none, and what they share with other rows.
#[derive(Clone, Copy)]
pub(crate) struct RowIds<'a> {
    pub(crate) row: usize,
    pub(crate) print: &'a [u8],
    pub(crate) online: &'a [u8],
    pub(crate) sharing: Sharing,
    /// Whether an earlier row is known to have the same identifiers.
    pub(crate) is_repeated: bool,
}

impl Tally {
    /// No identifiers.
    pub(crate) fn new(alloc: Global) -> Tally
        ensures tallied { (number : Text → ℕ) → spec.AreTallied number [] result }
        ensures none { result.identifiers ≡ 0 }
    {
        Tally {
            identifiers: 0,
            most: Most::none(alloc),
        }
    }

    /// Counts the identifiers of the next row that no earlier row has. `ids` is overwritten; calls share its memory.
    pub(crate) fn add_row(
        &mut self,
        alloc: Global,
        table: &Table,
        ids: &mut Ids,
        own: RowIds<'_>,
    ) -> Result<(), AllocError>
        requires few { self.old.identifiers + 2 < usize.MAX }
        requires own { spec.AreIdsOf table.now own }
        ensures tallied { OnOk result (spec.IsTallied table.now own.entry.row self.old
            → spec.IsTallied table.now (own.entry.row + 1) self.new) }
        ensures small { OnOk result (self.new.identifiers ≤ self.old.identifiers + 2) }
    {
        if own.is_repeated {
            return Ok(());
        }
        self.add(alloc, table, ids, own, own.print)?;
        if own.online == own.print {
            return Ok(());
        }
        self.add(alloc, table, ids, own, own.online)?;
        Ok(())
    }

    /// Counts an identifier of a row, unless it is empty or an earlier row has it.
    fn add(
        &mut self,
        alloc: Global,
        table: &Table,
        ids: &mut Ids,
        own: RowIds<'_>,
        id: &[u8],
    ) -> Result<(), AllocError>
        requires few { self.old.identifiers < usize.MAX }
        requires shares { SharesAtMost table.now own.row own.sharing.first own.sharing.rows }
        requires has { is_empty_text id.now ≡ false → row_has table.now own.row id.now ≡ true }
        ensures tallied { OnOk result ((others : List Text)
            → (is_empty_text id.now ≡ false
            → list_any (bytes_eq id.now) others ≡ list_any (bytes_eq id.now) (spec.ids_before table.now own.entry.row))
            → spec.AreTallied (spec.rows_in table.now) others self.old
            → spec.AreTallied (spec.rows_in table.now) (others ++ option_to_list (defined id.now)) self.new) }
        ensures small { OnOk result (self.new.identifiers ≤ self.old.identifiers + 1) }
    {
        if id.is_empty() {
            return Ok(());
        }
        if is_known(alloc, table, ids, own.row, own.sharing, id)? {
            return Ok(());
        }
        self.identifiers += 1;
        if self.most.has_fewer(own.sharing.rows) {
            ids.set(alloc, id)?;
            self.most.take_if_more(id, rows_of(table, ids))?;
        }
        Ok(())
    }
}

/// Whether a row before this one has an identifier of this one. It needs no look-up if no earlier row shares any
/// identifier with this one.
fn is_known(
    alloc: Global,
    table: &Table,
    ids: &mut Ids,
    row: usize,
    sharing: Sharing,
    id: &[u8],
) -> Result<bool, AllocError>
    requires some { is_empty_text id.now ≡ false }
    requires shares { SharesAtMost table.now row sharing.first sharing.rows }
    requires has { row_has table.now row id.now ≡ true }
    ensures { IfOk result (λ known. known ≡ list_any (bytes_eq id.now) (spec.ids_before table.now row)) }
{
    if sharing.first >= row {
        return Ok(false);
    }
    ids.set(alloc, id)?;
    Ok(is_before(table.next_match(ids, 0), row))
}

/// Whether there is a first row, and it is before this one.
fn is_before(first: Option<usize>, row: usize) -> bool
    ensures { result ≡ spec.is_before first row }
{
    match first {
        Some(first) => first < row,
        None => false,
    }
}

/// How many rows have one of the identifiers.
fn rows_of(table: &Table, ids: &Ids) -> usize
    ensures { result ≡ length (matching_rows table.now ids.now) }
{
    let most = table.rows();
    let mut matches = table.matches(ids);
    for count in 0..most {
        if matches.next().is_none() {
            return count;
        }
    }
    most
}
