//! A row over a request, as a run sees it.

ghost use Rattle.std.specs.Prelude.{◌≡◌, ◌<◌, Some, length, slice_get};
ghost use Rattle.text_model.specs.Texts.{Text};
ghost use Rattle.row_scope.specs.RowEnvironments.{environment_of_row, names_of};
ghost use Rattle.row_scope.specs.Bindings.{IsBound};
ghost use Rattle.row_scope.specs.Private.Kept.{IsRow};

use crate::binding::Binding;
use crate::target_request::TargetRequest;
use row_laws::sums_of_rows_over_requests;
use smallvec::SmallVec;
use std::marker::Model;
use target_vars::Scope;

/// As many names as this are bound without an allocation.
pub(crate) const FEW_NAMES: usize = 16;

/// A row over a request. The buffer has the request's values and then the row's line, and each text is a piece of it.
/// Contracts see the environment, and the names of the code.
#[derive(Drop)]
pub struct RowScope<'t, 'a> {
    target: &'t TargetRequest<'a>,
    row: usize,
    line: &'t str,
    // Most codes have few names, whose bindings need no allocation.
    bindings: SmallVec<Binding, FEW_NAMES>,
    // E (bytes) and M (members) of the request and the row together, of which the row's cells may hide some.
    bytes: usize,
    members: usize,
}

impl<'t, 'a> Model for RowScope<'t, 'a> {
    ghost use Rattle.row_scope.specs.RowEnvironments.{names_of};
    ghost use Rattle.row_scope.specs.RowValue.{RowValue, laid_row};
    ghost use Rattle.row_scope.specs.Private.Kept.{IsRow};

    ghost Value = { RowValue };

    ghost view = { λ r. record {
      env = laid_row r.target.now r.row r.line.now;
      names = names_of r.target.now.code;
    } };

    ghost invariant = { λ r. IsRow r.target.now r.row r.line.now r.bindings.items r.bytes r.members };
}

impl<'t, 'a> RowScope<'t, 'a> {
    pub(crate) fn new(
        target: &'t TargetRequest<'a>,
        row: usize,
        line: &'t str,
        bindings: SmallVec<Binding, FEW_NAMES>,
        bytes: usize,
        members: usize,
    ) -> RowScope<'t, 'a>
        requires { IsRow target.now row line.now bindings.items bytes members }
        ensures entries { result.env.entries ≡ environment_of_row target.now.code target.now.table
            target.now.request.pairs row }
        ensures names { result.names ≡ names_of target.now.code }
    {
        RowScope {
            target,
            row,
            line,
            bindings,
            bytes,
            members,
        }
    }

    /// What the name with this number is bound to.
    fn binding(&self, number: usize) -> Binding
        requires { number < length self.now.names }
        ensures { (name : Text) → slice_get self.now.names number ≡ Some name → IsBound self.now.env name result }
    {
        self.bindings[number]
    }
}

/// A name is looked up by its index in the code's table of names.
impl<'t, 'a> Scope for RowScope<'t, 'a> {
    ghost use Rattle.std.specs.Prelude.{◌≡◌, Some, slice_get};

    ghost environment = { λ r. r.env };

    ghost is_number = { λ r number name. slice_get r.names number ≡ Some name };

    fn text_at(&self, number: usize, _name: &str) -> Option<(u32, u32)> {
        match self.binding(number) {
            Binding::Text(start, len) => Some((start, len)),
            Binding::Nothing | Binding::List(_, _) => None,
        }
    }

    fn members_at(&self, number: usize, _name: &str) -> (u32, u32) {
        match self.binding(number) {
            Binding::List(first, count) => (first, count),
            Binding::Nothing | Binding::Text(_, _) => (0, 0),
        }
    }

    fn span(&self, i: usize) -> (u32, u32) {
        self.target.request().span(i)
    }

    fn piece(&self, start: usize, end: usize) -> &[u8] {
        let request = self.target.request();
        let seam = request.size();
        if end <= seam {
            request.piece(start, end)
        } else {
            &self.line.as_bytes()[start - seam..end - seam]
        }
    }

    fn size(&self) -> usize {
        let _known = self.bytes;
        self.target.request().size() + self.line.len()
    }

    fn sums(&self) -> (usize, usize) {
        sums_of_rows_over_requests();
        let (bytes, members) = self.target.hidden_by(self.line);
        (self.bytes - bytes, self.members - members)
    }

    fn most(&self) -> (usize, usize) {
        sums_of_rows_over_requests();
        (self.bytes, self.members)
    }
}
