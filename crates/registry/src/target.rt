//! Targets: content providers.

ghost use Rattle.std.specs.Prelude.{◌≡◌, IfOk, string_bytes};
ghost use Rattle.row_scope.specs.RequestValues.{IsApartFrom};
ghost use Rattle.registry.specs.Names.{AreNamesOf};

use kbart_rows::Table;
use row_scope::{KnownValues, NameColumns, TargetRequest};
use std::alloc::{AllocError, Global};
use std::marker::Model;
use verifier::Verified;

/// A content provider: its name, its accepted code, and the table of its holdings, which contracts see as one value.
#[derive(Drop)]
pub struct Target {
    pub(crate) name: String,
    pub(crate) code: Verified,
    pub(crate) table: Table,
}

impl Model for Target {
    ghost use Rattle.std.specs.Prelude.{string_bytes};
    ghost use Rattle.registry.specs.Targets.{TargetValue};

    ghost Value = { TargetValue };

    ghost view = { λ target. record { name = string_bytes target.name; code = target.code; table = target.table } };
}

impl Target {
    pub(crate) fn new(name: String, code: Verified, table: Table) -> Target
        ensures { result ≡ record { name = string_bytes name; code = code; table = table } }
    {
        Target { name, code, table }
    }

    /// The name, which is unique in a registry.
    pub fn name(&self) -> &str
        ensures { result.now ≡ self.now.name }
    {
        self.name.as_str()
    }

    /// The code that runs on the target's rows.
    pub fn code(&self) -> &Verified
        ensures { result.now ≡ self.now.code }
    {
        &self.code
    }

    /// The table of the target's holdings.
    pub fn table(&self) -> &Table
        ensures { result.now ≡ self.now.table }
    {
        &self.table
    }

    /// A request as the code and the table of the target see it. `names` are those that its registry has for it.
    ///
    /// `AllocError` if an allocation failed.
    pub fn request<'a>(
        &'a self,
        alloc: Global,
        names: &'a NameColumns,
        known: &mut KnownValues<'a>,
    ) -> Result<TargetRequest<'a>, AllocError>
        requires names { AreNamesOf known.old.numbered self.now names.now }
        requires apart { IsApartFrom known.old.request self.now.table.header }
        ensures ok { IfOk result (λ t. (t.code ≡ self.now.code) × (t.table ≡ self.now.table)
            × (t.request ≡ known.old.request)) }
        ensures same { known.new ≡ known.old }
    {
        TargetRequest::new(alloc, self.code.code(), &self.table, names, known)
    }
}
