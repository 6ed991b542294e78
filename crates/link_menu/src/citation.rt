//! What is searched for in all targets.

ghost use Rattle.std.specs.Prelude.{◌≡◌, IfOk};
ghost use Rattle.kbart_rows.specs.NameSets.{has};
ghost use Rattle.row_scope.specs.RequestValues.{IsApart};
ghost use Rattle.registry.specs.Entries.{matching_rows_of};

use kbart_rows::{Ids, Keys, Matches, NameSet};
use kev_read::Request;
use registry::Target;
use row_scope::RequestValues;
use std::alloc::{AllocError, Global};
use std::marker::Model;

/// The values of a request, and the identifiers of the title that it cites. Contracts see the values.
#[derive(Drop)]
pub(crate) struct Citation<'a> {
    pub(crate) values: RequestValues<'a>,
    ids: Ids,
}

impl<'a> Model for Citation<'a> {
    ghost use Rattle.std.specs.Prelude.{◌≡◌};
    ghost use Rattle.kbart_rows.specs.Identifiers.{ids_of};
    ghost use Rattle.row_scope.specs.RequestValues.{RequestValue};

    ghost Value = { RequestValue };

    ghost view = { λ citation. citation.values };

    ghost invariant = { λ citation. citation.ids ≡ ids_of citation.values.pairs };
}

impl<'a> Citation<'a> {
    /// The citation of a request, for targets whose tables have columns with these names. In tables with these keys the
    /// title is found without another hash.
    ///
    /// `AllocError` if an allocation failed.
    pub(crate) fn new(
        alloc: Global,
        request: &'a Request,
        columns: &NameSet,
        keys: Keys,
    ) -> Result<Citation<'a>, AllocError>
        ensures pairs { IfOk result (λ citation. citation.pairs ≡ request.now.pairs) }
        ensures apart { IfOk result (λ citation. IsApart citation (has columns.now.names)) }
    {
        let values = RequestValues::new(alloc, request, columns)?;
        let ids = Ids::keyed(alloc, request, keys)?;
        Ok(Citation { values, ids })
    }

    /// The rows of a target that have the title.
    pub(crate) fn rows(&'a self, target: &'a Target) -> Matches<'a>
        ensures { result ≡ matching_rows_of target.now self.now.pairs }
    {
        target.table().matches(&self.ids)
    }
}
