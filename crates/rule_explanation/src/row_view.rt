//! A row over a request, as rules see it.

ghost use Rattle.std.specs.Prelude.{◌≡◌, ◌<◌, ◌≤◌, IfOk, IfSome, length};
ghost use Rattle.std.specs.Option.{option_copied};
ghost use Rattle.text_model.specs.Texts.{texts_of};
ghost use Rattle.target_vars.specs.declared.env.TheConstants.{MAX_BYTES};
ghost use Rattle.kbart_rows.specs.Cells.{column_of};
ghost use Rattle.kbart_rows.specs.Lines.{cells_in};
ghost use Rattle.rule_explanation.specs.Private.Seen.{cell_seen};

use crate::rules_request::RulesRequest;
use kbart_rows::RowCursor;
use row_laws::{rows_by_names, rows_shadow_requests};
use std::alloc::{AllocError, Global};
use std::marker::Model;
use target_vars::Members;
use uri_template::Variables;

/// A row of a target's table over a request, as the target's rules see it; nothing is copied. Contracts see the request
/// at the target, and which row it is.
#[derive(Drop)]
pub(crate) struct RowView<'r, 'a> {
    request: &'r RulesRequest<'a>,
    row: usize,
    cells: Vec<&'r str>,
}

impl<'r, 'a> Model for RowView<'r, 'a> {
    ghost use Rattle.std.specs.Prelude.{◌≡◌, ◌<◌, [], get_or, length};
    ghost use Rattle.text_model.specs.Texts.{texts_of};
    ghost use Rattle.rule_explanation.specs.Private.Seen.{RowViewValue};

    ghost Value = { RowViewValue };

    ghost view = { λ v. record { request = v.request.now; row = v.row } };

    ghost invariant = { λ v. texts_of v.cells.items ≡ get_or v.request.now.table.rows v.row [] };
}

impl<'r, 'a> RowView<'r, 'a> {
    pub(crate) fn new(
        alloc: Global,
        request: &'r RulesRequest<'a>,
        row: usize,
    ) -> Result<RowView<'r, 'a>, AllocError>
        requires { row < length request.now.table.rows }
        ensures { IfOk result (λ view. view ≡ record { request = request.now; row = row }) }
    {
        let cells = cells_of(alloc, request.table.line(row))?;
        Ok(RowView {
            request,
            row,
            cells,
        })
    }

    /// The row's cell in the first column with the name, if it is defined.
    fn cell(&self, name: &str, column: Option<usize>) -> Option<&str>
        requires { column ≡ column_of self.now.request.table.header name.now }
        ensures value { option_copied result ≡ cell_seen self.now name.now }
        ensures small { IfSome result (λ cell. length cell.now ≤ MAX_BYTES) }
    {
        let request = self.request;
        let _known = request.table.rows();
        let cell = *self.cells.get(column?)?;
        if cell.is_empty() { None } else { Some(cell) }
    }
}

impl Variables for RowView<'_, '_> {
    ghost use Rattle.rule_explanation.specs.Private.Seen.{seen_row};

    ghost look = { seen_row };

    fn text(&self, name: &str) -> Option<&str> {
        rows_shadow_requests();
        rows_by_names();
        let request = self.request;
        let known = request.name(name);
        if known.is_list {
            return None;
        }
        match self.cell(name, known.column) {
            Some(cell) => Some(cell),
            None => request.values.text(name),
        }
    }

    fn list(&self, name: &str) -> Members<'_> {
        rows_shadow_requests();
        rows_by_names();
        let request = self.request;
        let known = request.name(name);
        if known.is_list && self.cell(name, known.column).is_none() {
            request.values.list(name)
        } else {
            Members::none()
        }
    }
}

/// The cells of a row's line.
fn cells_of<'a>(alloc: Global, line: &'a str) -> Result<Vec<&'a str>, AllocError>
    ensures { IfOk result (λ cells. texts_of cells.items ≡ cells_in line.now) }
{
    let mut cells = Vec::new(alloc);
    let mut cursor = RowCursor::new(line);
    while let Some(cell) = cursor.next_cell() {
        cells.push(cell)?;
    }
    Ok(cells)
}
