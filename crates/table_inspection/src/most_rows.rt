//! The identifier that has the most rows.

ghost use Rattle.std.specs.Prelude.{◌≡◌, ◌||◌, ◌++◌, ◌∷◌, [], List, ℕ, OnOk, false, nat_lt};
ghost use Rattle.text_model.specs.Texts.{Text};
ghost use Rattle.table_inspection.specs.Columns.{is_empty_text};
ghost use Rattle.table_inspection.specs.Identifiers.{most_rows};
ghost use Rattle.table_inspection.specs.Private.AddedLines.{Adds};
ghost use Rattle.table_inspection.specs.Private.Tallying as spec;

use crate::lines::add_most_rows;
use printed_text::Findings;
use std::alloc::{AllocError, Global};

/// An identifier in normal form, empty where there is none, and how many rows have it.
#[derive(Drop)]
pub(crate) struct Most {
    pub(crate) id: Vec<u8>,
    pub(crate) rows: usize,
}

impl Most {
    /// No identifier.
    pub(crate) fn none(alloc: Global) -> Most
        ensures { (number : Text → ℕ) → spec.IsMostOf number [] result }
    {
        Most {
            id: Vec::new(alloc),
            rows: 0,
        }
    }

    /// Takes an identifier in place of the one so far, if it has more rows.
    pub(crate) fn take_if_more(&mut self, id: &[u8], rows: usize) -> Result<(), AllocError>
        ensures { OnOk result ((number : Text → ℕ) (ids : List Text) → is_empty_text id.now ≡ false
            → rows ≡ number id.now → spec.IsMostOf number ids self.old
            → spec.IsMostOf number (ids ++ id.now ∷ []) self.new) }
    {
        if self.has_fewer(rows) {
            self.id.clear();
            self.id.extend_from_slice(id)?;
            self.rows = rows;
        }
        Ok(())
    }

    /// Whether it has fewer rows than that many, or is none.
    pub(crate) fn has_fewer(&self, rows: usize) -> bool
        ensures { result ≡ (is_empty_text self.now.id.items || nat_lt self.now.rows rows) }
    {
        self.id.is_empty() || self.rows < rows
    }
}

/// Adds the first identifier that has the most rows of a table, if there is one.
pub(crate) fn add_most(findings: &mut Findings, most: &Most) -> Result<(), AllocError>
    ensures { OnOk result ((table : spec.Holdings) → spec.IsMostIn table most.now
        → Adds findings.old findings.new (most_rows table)) }
{
    if most.id.is_empty() {
        return Ok(());
    }
    let id = most.id.as_slice();
    add_most_rows(findings, "rows of one identifier", most.rows, id)?;
    Ok(())
}
