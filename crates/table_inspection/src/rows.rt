//! Rows that are not as they should be, counted one after the other.

ghost use Rattle.std.specs.Prelude.{◌≡◌, ◌==◌, ◌&&◌, [], ◌<◌, ◌+◌, ℕ, List, OnOk, if◌then◌else◌};
ghost use Rattle.table_inspection.specs.Cells.{of_rows};
ghost use Rattle.table_inspection.specs.Findings.{TableFinding, counted_rows, is_table_warning, finding_text};
ghost use Rattle.table_inspection.specs.Private.AddedLines.{Adds};
ghost use Rattle.table_inspection.specs.Private.CountedCells.{AreRows};

use crate::lines::add_rows;
use printed_text::Findings;
use std::alloc::AllocError;

/// Rows: how many, and the first.
#[derive(Clone, Copy)]
pub(crate) struct Rows {
    pub(crate) count: usize,
    pub(crate) first: usize,
}

impl Rows {
    pub(crate) fn none() -> Rows
        ensures { AreRows [] result.count result.first }
    {
        Rows { count: 0, first: 0 }
    }

    /// Counts a row that has an error.
    pub(crate) fn add_if(&mut self, has_fault: bool, row: usize)
        requires { self.old.count < usize.MAX }
        ensures count { self.new.count ≡ (if has_fault then self.old.count + 1 else self.old.count) }
        ensures first { self.new.first ≡ (if has_fault && self.old.count == 0 then row else self.old.first) }
    {
        if has_fault && self.count == 0 {
            self.first = row;
        }
        if has_fault {
            self.count += 1;
        }
    }

    /// Adds a line for the rows, unless there are none.
    pub(crate) fn tell(
        self,
        findings: &mut Findings,
        label: &str,
        warns: bool,
    ) -> Result<(), AllocError>
        ensures { OnOk result ((finding : ℕ → ℕ → TableFinding) (rows : List ℕ) → AreRows rows self.count self.first
            → ((count first : ℕ) → finding_text (finding count first) ≡ counted_rows label.now count first)
            → ((count first : ℕ) → is_table_warning (finding count first) ≡ warns)
            → Adds findings.old findings.new (of_rows finding rows)) }
    {
        if self.count == 0 {
            return Ok(());
        }
        add_rows(findings, label, self.count, self.first, warns)?;
        Ok(())
    }
}
