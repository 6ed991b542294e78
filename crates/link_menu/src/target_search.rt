//! The search for a target's link, row after row.

ghost use Rattle.std.specs.Prelude.{◌≡◌, None, drop, if◌then◌else◌, slice_get};
ghost use Rattle.registry.specs.Entries.{matching_rows_of};
ghost use Rattle.menu.specs.Links as links;
ghost use Rattle.interleaved_runs.specs.Fates.{fate_value};
ghost use Rattle.link_menu.specs.Private.Searches as spec;

use crate::resolution::{is_link, resolution_of};
use interleaved_runs::Fate;
use kbart_rows::Matches;
use menu::Resolution;
use registry::Target;
use registry::laws::matching_rows_rise;
use row_scope::TargetRequest;
use std::marker::Model;

/// The search for a target's link. Contracts see the request, the target, the row to be tried next, and the resolution
/// so far.
#[derive(Drop)]
pub(crate) struct TargetSearch<'a> {
    pub(crate) target: &'a Target,
    pub(crate) request: TargetRequest<'a>,
    // The matching rows after the next one.
    rows: Matches<'a>,
    /// `None` if a row gave a link, or no more row matches.
    pub(crate) next: Option<usize>,
    pub(crate) resolution: Resolution,
}

impl<'a> Model for TargetSearch<'a> {
    ghost use Rattle.link_menu.specs.Private.Searches.{SearchValue, IsReady};

    ghost Value = { SearchValue };

    ghost view = { λ s. record {
      requested = s.request.request;
      target = s.target.now;
      next = s.next;
      resolution = s.resolution;
    } };

    ghost invariant = { λ s. IsReady s.target.now s.request s.next s.rows };
}

impl<'a> TargetSearch<'a> {
    /// A search that has tried no row. `next` is the first matching row, and `rows` are those after it.
    pub(crate) fn new(
        target: &'a Target,
        request: TargetRequest<'a>,
        next: Option<usize>,
        rows: Matches<'a>,
    ) -> TargetSearch<'a>
        requires code { request.code ≡ target.now.code }
        requires table { request.table ≡ target.now.table }
        requires next { next ≡ slice_get (matching_rows_of target.now request.request.pairs) 0 }
        requires rows { rows ≡ drop 1 (matching_rows_of target.now request.request.pairs) }
        ensures { result ≡ spec.started request.entry.request target.now }
    {
        matching_rows_rise();
        TargetSearch {
            target,
            request,
            rows,
            next,
            resolution: Resolution::NoRow,
        }
    }

    pub(crate) fn is_open(&self) -> bool
        ensures { result ≡ spec.is_open self.now }
    {
        self.next.is_some()
    }

    /// Records the outcome of the next row, and continues with the one after it, unless that row gave a link.
    pub(crate) fn take_over(&mut self, fate: Fate)
        ensures { self.new ≡ spec.after_fate self.old (fate_value fate) }
    {
        matching_rows_rise();
        let Some(row) = self.next else {
            return;
        };
        let resolution = resolution_of(fate, row);
        let following = self.rows.next();
        self.next = row_after(&resolution, following);
        self.resolution = resolution;
    }
}

/// The row that is tried after one with this resolution, if this one follows: none after a link.
fn row_after(resolution: &Resolution, following: Option<usize>) -> Option<usize>
    ensures { result ≡ (if links.is_link resolution.now then None else following) }
{
    if is_link(resolution) { None } else { following }
}
