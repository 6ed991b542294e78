//! The rows that are tried in one round.

ghost use Rattle.std.specs.Prelude.{◌≡◌, ◌++◌, ◌∷◌, [], IfOk, OnOk, map};
ghost use Rattle.std.specs.List.{filter_map};
ghost use Rattle.row_scope.specs.RowEnvironments.{names_of};
ghost use Rattle.link_menu.specs.Private.Searches.{IsBatchOf, code_next, env_next};

use crate::target_search::TargetSearch;
use row_scope::RowScope;
use std::alloc::{AllocError, Global};
use verifier::Verified;

/// The rows that are tried in one round, each as the environment of row and request, and their codes, in the order of
/// the targets.
#[derive(Drop)]
pub(crate) struct Batch<'t, 'a> {
    pub(crate) codes: Vec<&'t Verified>,
    pub(crate) rows: Vec<RowScope<'t, 'a>>,
}

impl<'t, 'a> Batch<'t, 'a> {
    /// The next row of each search that has one.
    ///
    /// `AllocError` if an allocation failed.
    pub(crate) fn of(
        alloc: Global,
        searches: &'t [TargetSearch<'a>],
    ) -> Result<Batch<'t, 'a>, AllocError>
        ensures { IfOk result (IsBatchOf searches.now) }
    {
        let mut batch = Batch {
            codes: Vec::with_capacity(alloc, searches.len())?,
            rows: Vec::with_capacity(alloc, searches.len())?,
        };
        for search in searches {
            batch.add(alloc, search)?;
        }
        Ok(batch)
    }

    fn add(&mut self, alloc: Global, search: &'t TargetSearch<'a>) -> Result<(), AllocError>
        ensures codes { OnOk result (map (λ code. code.now) self.new.codes.items
            ≡ map (λ code. code.now) self.old.codes.items ++ filter_map code_next (search.now ∷ [])) }
        ensures envs { OnOk result (map (λ row. row.env.entries) self.new.rows.items
            ≡ map (λ row. row.env.entries) self.old.rows.items ++ filter_map env_next (search.now ∷ [])) }
        ensures names { OnOk result (map (λ row. row.names) self.new.rows.items
            ≡ map (λ row. row.names) self.old.rows.items ++ map names_of (filter_map code_next (search.now ∷ []))) }
    {
        if let Some(row) = search.next {
            self.codes.push(search.target.code())?;
            self.rows.push(search.request.row(alloc, row)?)?;
        }
        Ok(())
    }
}
