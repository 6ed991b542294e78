//! What is found in the columns of dates and links, and in the length of rows.

ghost use Rattle.std.specs.Prelude.{◌++◌, ◌<◌, ◌≤◌, ◌+◌, List, OnOk};
ghost use Rattle.std.specs.Option.{option_copied};
ghost use Rattle.table_inspection.specs.Cells as spec;
ghost use Rattle.table_inspection.specs.Inspection.{findings_in_values};
ghost use Rattle.table_inspection.specs.Private.AddedLines.{Adds};
ghost use Rattle.table_inspection.specs.Private.Forms.{fits};
ghost use Rattle.table_inspection.specs.Private.CountedCells.{AreCells, AreRows, AreValues, faults_at};

use crate::cells::Cells;
use crate::form::{Form, fits};
use crate::row_line::is_longer;
use crate::rows::Rows;
use kbart_rows::{Table, cell_count, cell_in};
use printed_text::Findings;
use std::alloc::AllocError;

/// What is not as it should be in the columns of dates and links, and in the length of rows.
#[derive(Clone, Copy)]
pub(crate) struct Values<'a> {
    pub(crate) first_dates: Cells<'a>,
    pub(crate) last_dates: Cells<'a>,
    pub(crate) links: Cells<'a>,
    pub(crate) unlinked: Rows,
    pub(crate) long_rows: Rows,
}

/// Adds what is found in the columns of dates and links, and in the length of rows.
pub(crate) fn add_values(findings: &mut Findings, table: &Table) -> Result<(), AllocError>
    ensures { OnOk result (Adds findings.old findings.new (findings_in_values table.now)) }
{
    let values = values_of(table);
    values
        .first_dates
        .tell(findings, "date_first_issue_online not a date")?;
    values
        .last_dates
        .tell(findings, "date_last_issue_online not a date")?;
    values.links.tell(findings, "title_url not a web link")?;
    add_unlinked(findings, table, values.unlinked)?;
    values
        .long_rows
        .tell(findings, "rows longer than the header", true)?;
    Ok(())
}

/// Adds the rows without a link, if there is a column of links.
fn add_unlinked(findings: &mut Findings, table: &Table, rows: Rows) -> Result<(), AllocError>
    requires { AreRows (spec.row_faults (spec.has_no_link table.now.header) table.now) rows.count rows.first }
    ensures { OnOk result (Adds findings.old findings.new (spec.unlinked table.now)) }
{
    if table.column("title_url").is_none() {
        return Ok(());
    }
    rows.tell(findings, "rows without title_url", false)?;
    Ok(())
}

/// The cells and rows that are not as they should be, by one pass over the rows.
fn values_of(table: &Table) -> Values<'_>
    ensures { AreValues table.now result }
{
    let first_column = table.column("date_first_issue_online");
    let last_column = table.column("date_last_issue_online");
    let link_column = table.column("title_url");
    let width = cell_count(table.header());
    let mut values = Values {
        first_dates: Cells::none(),
        last_dates: Cells::none(),
        links: Cells::none(),
        unlinked: Rows::none(),
        long_rows: Rows::none(),
    };
    for row in 0..table.rows() {
        let line = table.line(row);
        let link = cell_in(line, link_column);
        add_cell(
            &mut values.first_dates,
            row,
            cell_in(line, first_column),
            Form::Date,
        );
        add_cell(
            &mut values.last_dates,
            row,
            cell_in(line, last_column),
            Form::Date,
        );
        add_cell(&mut values.links, row, link, Form::WebLink);
        values.unlinked.add_if(link.is_none(), row);
        values.long_rows.add_if(is_longer(line, width), row);
    }
    values
}

/// Adds a cell of a row, if it is defined and does not have the form.
fn add_cell<'a>(cells: &mut Cells<'a>, row: usize, cell: Option<&'a str>, form: Form)
    requires { cells.old.count < usize.MAX }
    ensures added { (others : List spec.CellAt)
        → AreCells others cells.old.count cells.old.first cells.old.text.now
        → AreCells (others ++ faults_at (fits form) row (option_copied cell.entry))
        cells.new.count cells.new.first cells.new.text.now }
    ensures small { cells.new.count ≤ cells.old.count + 1 }
{
    if let Some(text) = cell {
        cells.add_if(!fits(form, text), row, text);
    }
}
