//! Cells that are not as they should be, counted one after the other.

ghost use Rattle.std.specs.Prelude.{◌≡◌, ◌==◌, ◌&&◌, [], ◌<◌, ◌+◌, ℕ, List, OnOk, true, if◌then◌else◌};
ghost use Rattle.text_model.specs.Texts.{Text};
ghost use Rattle.table_inspection.specs.Cells.{CellAt, of_cells};
ghost use Rattle.table_inspection.specs.Findings.{TableFinding, counted_cells, is_table_warning, finding_text};
ghost use Rattle.table_inspection.specs.Private.AddedLines.{Adds};
ghost use Rattle.table_inspection.specs.Private.CountedCells.{AreCells};

use crate::lines::add_cells;
use printed_text::Findings;
use std::alloc::AllocError;

/// Cells: how many, and the row and the text of the first.
#[derive(Clone, Copy)]
pub(crate) struct Cells<'a> {
    pub(crate) count: usize,
    pub(crate) first: usize,
    pub(crate) text: &'a str,
}

impl<'a> Cells<'a> {
    pub(crate) fn none() -> Cells<'a>
        ensures { AreCells [] result.count result.first result.text.now }
    {
        Cells {
            count: 0,
            first: 0,
            text: "",
        }
    }

    /// Counts a cell that has an error.
    pub(crate) fn add_if(&mut self, has_fault: bool, row: usize, text: &'a str)
        requires { self.old.count < usize.MAX }
        ensures count { self.new.count ≡ (if has_fault then self.old.count + 1 else self.old.count) }
        ensures first { self.new.first ≡ (if has_fault && self.old.count == 0 then row else self.old.first) }
        ensures text { self.new.text.now
            ≡ (if has_fault && self.old.count == 0 then text.now else self.old.text.now) }
    {
        if has_fault && self.count == 0 {
            self.first = row;
            self.text = text;
        }
        if has_fault {
            self.count += 1;
        }
    }

    /// Adds a warning of the cells, unless there are none.
    pub(crate) fn tell(self, findings: &mut Findings, label: &str) -> Result<(), AllocError>
        ensures { OnOk result ((finding : ℕ → ℕ → Text → TableFinding) (cells : List CellAt)
            → AreCells cells self.entry.count self.entry.first self.entry.text.now
            → ((count first : ℕ) (text : Text)
            → finding_text (finding count first text) ≡ counted_cells label.now count first text)
            → ((count first : ℕ) (text : Text) → is_table_warning (finding count first text) ≡ true)
            → Adds findings.old findings.new (of_cells finding cells)) }
    {
        if self.count == 0 {
            return Ok(());
        }
        add_cells(findings, label, self.count, self.first, self.text)?;
        Ok(())
    }
}
