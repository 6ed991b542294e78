//! A request as the code and the table of a target see it.

ghost use Rattle.std.specs.Prelude.{◌≡◌, ◌<◌, ◌≤◌, [], IfOk, OnOk, length};
ghost use Rattle.environment_model.specs.Environment.{byte_count, member_count};
ghost use Rattle.kbart_rows.specs.Lines.{cells_in};
ghost use Rattle.kbart_rows.specs.Cells.{named_cells};
ghost use Rattle.kev_read.specs.Filling as by_pairs;
ghost use Rattle.row_laws.specs.Shadowing.{requested, hidden, row_of};
ghost use Rattle.row_scope.specs.RowEnvironments.{environment_of_row, lists_of, names_of};
ghost use Rattle.row_scope.specs.Bindings.{AreBound, laid_in, laid_over};
ghost use Rattle.row_scope.specs.RequestValues.{IsApartFrom};
ghost use Rattle.row_scope.specs.NameNumbers.{AreOwnNumbers};
ghost use Rattle.row_scope.specs.NameColumns.{AreNameColumns, AreOwnLists, AreMarked};

use crate::binding::Binding;
use crate::hidden::hidden_by;
use crate::known_values::KnownValues;
use crate::name_columns::NameColumns;
use crate::request_values::RequestValues;
use crate::row_scope::{FEW_NAMES, RowScope};
use code_file::Code;
use kbart_rows::{RowCursor, Table};
use row_laws::{
    one_more_list, requests_are_small, row_bytes_are_cell_bytes, rows_by_names,
    rows_shadow_requests, same_lists,
};
use smallvec::SmallVec;
use std::alloc::{AllocError, Global};
use std::marker::Model;

/// A request as the code and the table of a target see it. Contracts see the code, the table and the request.
#[derive(Drop)]
pub struct TargetRequest<'a> {
    code: &'a Code,
    table: &'a Table,
    names: &'a NameColumns,
    request: &'a RequestValues<'a>,
    // What the names of the code are bound to in the request without a row, and its E (bytes) and M (members).
    bindings: SmallVec<Binding, FEW_NAMES>,
    bytes: usize,
    members: usize,
}

impl<'a> Model for TargetRequest<'a> {
    ghost use Rattle.row_scope.specs.RowValue.{TargetRequestValue};
    ghost use Rattle.row_scope.specs.Private.Kept.{IsTargetRequest};

    ghost Value = { TargetRequestValue };

    ghost view = { λ t. record { code = t.code.now; table = t.table.now; request = t.request.now } };

    ghost invariant = { λ t. IsTargetRequest
        (record { code = t.code.now; table = t.table.now; request = t.request.now })
        t.names.now t.bindings.items t.bytes t.members };
}

impl<'a> TargetRequest<'a> {
    /// A request for a code over a table. `AllocError` if an allocation failed.
    pub fn new(
        alloc: Global,
        code: &'a Code,
        table: &'a Table,
        names: &'a NameColumns,
        known: &mut KnownValues<'a>,
    ) -> Result<TargetRequest<'a>, AllocError>
        requires names { AreNameColumns code.now table.now.header names.now }
        requires numbers { AreOwnNumbers known.old.numbered code.now names.now.numbers.items }
        requires columns { IsApartFrom known.old.request table.now.header }
        ensures ok { IfOk result (λ t. (t.code ≡ code.now) × (t.table ≡ table.now) × (t.request ≡ known.old.request)) }
        ensures same { known.new ≡ known.old }
    {
        let request = known.request();
        let _known = request.size();
        let mut bindings = SmallVec::new(alloc);
        bind_names(&mut bindings, code, names, known)?;
        let (bytes, members) = sums_with_lists(code, &names.lists, request);
        Ok(TargetRequest {
            code,
            table,
            names,
            request,
            bindings,
            bytes,
            members,
        })
    }

    /// A row of the table, counted from 0, over the request. `AllocError` if an allocation failed.
    pub fn row<'t>(&'t self, alloc: Global, row: usize) -> Result<RowScope<'t, 'a>, AllocError>
        requires { row < length self.now.table.rows }
        ensures entries { IfOk result
            (λ r. r.env.entries ≡ environment_of_row self.now.code self.now.table self.now.request.pairs row) }
        ensures names { IfOk result (λ r. r.names ≡ names_of self.now.code) }
    {
        requests_are_small();
        row_bytes_are_cell_bytes();
        let line = self.table.line(row);
        let mut bindings = SmallVec::new(alloc);
        bindings.extend_from_slice(self.bindings.as_slice())?;
        self.bind_cells(line, bindings.as_mut_slice());
        let bytes = self.bytes + self.table.cell_bytes(row);
        Ok(RowScope::new(self, row, line, bindings, bytes, self.members))
    }

    pub(crate) fn request(&self) -> &RequestValues<'a>
        ensures { result.now ≡ self.now.request }
    {
        self.request
    }

    /// Binds the names for which a row's line has cells to these; all names are bound as in the request alone.
    fn bind_cells(&self, line: &str, bindings: &mut [Binding])
        requires short { length line.now ≤ 65537 }
        requires bound { AreBound (laid_in self.now.request.values (requested (lists_of self.now.code)
            self.now.request.pairs)) (names_of self.now.code) bindings.old }
        ensures { AreBound
            (laid_over self.now.request.values line.now
            (by_pairs.filled (lists_of self.now.code) (row_of (named_cells self.now.table.header (cells_in line.now)))
            self.now.request.pairs))
            (names_of self.now.code) bindings.new }
    {
        rows_shadow_requests();
        rows_by_names();
        let seam = self.request.size() as u32;
        let mut cells = RowCursor::new(line);
        for place in &self.names.columns {
            let (start, len) = cells.seek(place.column);
            if len > 0 {
                bindings[place.number] = Binding::Text(seam + start, len);
            }
        }
    }

    /// How many bytes and members of the request the cells of a row's line hide.
    pub(crate) fn hidden_by(&self, line: &str) -> (usize, usize)
        requires { length line.now ≤ 65537 }
        ensures bytes { result.0
            ≡ byte_count (hidden (row_of (named_cells self.now.table.header (cells_in line.now)))
            (requested (lists_of self.now.code) self.now.request.pairs)) }
        ensures members { result.1
            ≡ member_count (hidden (row_of (named_cells self.now.table.header (cells_in line.now)))
            (requested (lists_of self.now.code) self.now.request.pairs)) }
    {
        hidden_by(self.code, self.table, self.request, line)
    }
}

/// Binds each name of a code to what it is in a request without a row. The bindings are filled where they are, since
/// their type is large to move.
fn bind_names(
    bindings: &mut SmallVec<Binding, FEW_NAMES>,
    code: &Code,
    names: &NameColumns,
    known: &mut KnownValues,
) -> Result<(), AllocError>
    requires none { bindings.old.items ≡ [] }
    requires marks { AreMarked code.now names.now.marks.items }
    requires numbers { AreOwnNumbers known.old.numbered code.now names.now.numbers.items }
    ensures ok { OnOk result (AreBound
        (laid_in known.old.request.values (requested (lists_of code.now) known.old.request.pairs))
        (names_of code.now) bindings.new.items) }
    ensures same { known.new ≡ known.old }
{
    let count = code.names().len();
    bindings.reserve(count)?;
    for i in 0..count {
        let name = code.name(i).text.as_str();
        bindings.push_reserved(known.binding(names.numbers[i], name, names.marks[i]));
    }
    Ok(())
}

/// E and M of a request in which the lists of a code are declared.
fn sums_with_lists(code: &Code, lists: &[usize], request: &RequestValues) -> (usize, usize)
    requires { AreOwnLists code.now lists.now }
    ensures bytes { result.0 ≡ byte_count (requested (lists_of code.now) request.now.pairs) }
    ensures members { result.1 ≡ member_count (requested (lists_of code.now) request.now.pairs) }
{
    one_more_list();
    same_lists();
    requests_are_small();
    let (mut bytes, mut members) = request.sums();
    for number in lists {
        let name = code.name(*number).text.as_str();
        let (all_bytes, all_members) = request.sums_of(name, true);
        bytes = bytes + all_bytes - request.sums_of(name, false).0;
        members += all_members;
    }
    (bytes, members)
}
