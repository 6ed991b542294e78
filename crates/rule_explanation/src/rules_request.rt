//! A request at a target.

ghost use Rattle.std.specs.Prelude.{◌≡◌, ◌<◌, IfOk, length};
ghost use Rattle.environment_model.specs.Lists.{is_list};
ghost use Rattle.kbart_rows.specs.Cells.{column_of};

use crate::guard_names::guard_names;
use crate::known_names::{KnownName, KnownNames};
use crate::list_names::ListNames;
use crate::row_view::RowView;
use kbart_rows::Table;
use kev_read::Request;
use rule_parser::Rules;
use std::alloc::{AllocError, Global};
use std::marker::Model;
use target_vars::Env;

/// A request, and the rules and the table of a target. Contracts see the three.
#[derive(Drop)]
pub(crate) struct RulesRequest<'a> {
    pub(crate) rules: &'a Rules,
    pub(crate) table: &'a Table,
    request: &'a Request,
    /// The names of the lists of the rules. These and those of the guards are under the keys of the table.
    lists: ListNames,
    /// What the names of the guards are.
    names: KnownNames,
    /// The values of the request without a row, with the lists of the rules.
    pub(crate) values: Env,
}

impl<'a> Model for RulesRequest<'a> {
    ghost use Rattle.std.specs.Prelude.{◌≡◌};
    ghost use Rattle.text_model.specs.Texts.{Text};
    ghost use Rattle.environment_model.specs.Lists.{is_list};
    ghost use Rattle.row_laws.specs.Shadowing.{requested};
    ghost use Rattle.rule_explanation.specs.Private.KnownNames.{AreKnown};
    ghost use Rattle.rule_explanation.specs.Private.ListNames.{has, keys_of};
    ghost use Rattle.rule_explanation.specs.Private.Seen.{RulesRequestValue};

    ghost Value = { RulesRequestValue };

    ghost view = { λ r. record { rules = r.rules.now; table = r.table.now; pairs = r.request.now.pairs } };

    ghost invariant = { λ r. (r.values.entries ≡ requested r.rules.now.lists r.request.now.pairs)
        × AreKnown r.lists r.table.now.header r.names
        × ((name : Text) → has r.lists name ≡ is_list r.rules.now.lists name)
        × (keys_of r.lists ≡ r.table.now.keys) × (r.names.names.keys ≡ r.table.now.keys) };
}

impl<'a> RulesRequest<'a> {
    /// The request at the target with these rules and this table.
    ///
    /// `AllocError` if an allocation failed.
    pub(crate) fn new(
        alloc: Global,
        rules: &'a Rules,
        table: &'a Table,
        request: &'a Request,
    ) -> Result<RulesRequest<'a>, AllocError>
        ensures { IfOk result
            (λ r. r ≡ record { rules = rules.now; table = table.now; pairs = request.now.pairs }) }
    {
        let names = rules.lists(alloc)?;
        let lists = ListNames::new(alloc, table.keys(), &names)?;
        let mentioned = guard_names(alloc, table.keys(), rules.rules())?;
        let known = KnownNames::new(alloc, mentioned, &lists, table)?;
        let mut values = Env::new(alloc);
        match request.fill(&names, &mut values) {
            Ok(()) => Ok(RulesRequest {
                rules,
                table,
                request,
                lists,
                names: known,
                values,
            }),
            Err(_) => Err(AllocError),
        }
    }

    /// Whether a name is a list, and its column.
    pub(crate) fn name(&self, name: &str) -> KnownName
        ensures list { result.is_list ≡ is_list self.now.rules.lists name.now }
        ensures column { result.column ≡ column_of self.now.table.header name.now }
    {
        match self.names.get(&self.lists, self.table, name) {
            Some(known) => known,
            None => KnownName::new(&self.lists, self.table, name),
        }
    }

    /// A row of the table, counted from 0, over the request.
    ///
    /// `AllocError` if an allocation failed.
    pub(crate) fn row<'r>(
        &'r self,
        alloc: Global,
        row: usize,
    ) -> Result<RowView<'r, 'a>, AllocError>
        requires { row < length self.now.table.rows }
        ensures { IfOk result (λ view. view ≡ record { request = self.now; row = row }) }
    {
        RowView::new(alloc, self, row)
    }
}
