//! The searches of a registry's targets, and the menu of their outcomes.

ghost use Rattle.std.specs.Prelude.{◌≡◌, ◌++◌, ◌∷◌, [], All, IfOk, OnOk, length, map};
ghost use Rattle.std.specs.Option.{option_map_or};
ghost use Rattle.row_scope.specs.RequestValues.{IsApartFrom};
ghost use Rattle.menu.specs.declared.entry.Resolution.TheVariants.{NoRow};
ghost use Rattle.registry.specs.Names.{AreAllNames, AreNamesOf};
ghost use Rattle.link_menu.specs.Private.Held.{entries_with, has_row, held};
ghost use Rattle.link_menu.specs.Private.Searches as spec;

use crate::citation::Citation;
use crate::target_search::TargetSearch;
use kbart_rows::NameSet;
use menu::{Menu, MenuEntry, Resolution};
use registry::Target;
use row_scope::{KnownValues, NameColumns};
use std::alloc::{AllocError, Global};

/// The searches of the targets that have a row with the title.
#[derive(Drop)]
pub(crate) struct Searches<'a> {
    /// For each target, whether it has such a row.
    pub(crate) held: Vec<bool>,
    /// In the order of the targets.
    pub(crate) searches: Vec<TargetSearch<'a>>,
}

impl<'a> Searches<'a> {
    /// Searches that have tried no row, of targets whose codes have these names, some of which are numbered.
    ///
    /// `AllocError` if an allocation failed.
    pub(crate) fn begin(
        alloc: Global,
        targets: &'a [Target],
        numbered: &'a NameSet,
        names: &'a [NameColumns],
        citation: &'a Citation<'a>,
    ) -> Result<Searches<'a>, AllocError>
        requires apart { All (λ target. IsApartFrom citation.now target.table.header) targets.now }
        requires names { AreAllNames numbered.now.names targets.now names.now }
        ensures held { IfOk result (λ s. s.held.items ≡ map (has_row citation.now.pairs) targets.now) }
        ensures searches { IfOk result
            (λ s. s.searches.items ≡ map (spec.started citation.now) (held citation.now.pairs targets.now)) }
    {
        let mut known = KnownValues::new(alloc, &citation.values, numbered)?;
        let mut all = Searches {
            held: Vec::with_capacity(alloc, targets.len())?,
            searches: Vec::new(alloc),
        };
        for target in targets {
            let names = &names[all.held.len()];
            all.add(alloc, target, names, citation, &mut known)?;
        }
        Ok(all)
    }

    fn add(
        &mut self,
        alloc: Global,
        target: &'a Target,
        names: &'a NameColumns,
        citation: &'a Citation<'a>,
        known: &mut KnownValues<'a>,
    ) -> Result<(), AllocError>
        requires apart { IsApartFrom citation.now target.now.table.header }
        requires names { AreNamesOf known.old.numbered target.now names.now }
        requires known { known.old.request ≡ citation.now }
        ensures held { OnOk result
            (self.new.held.items ≡ self.old.held.items ++ has_row citation.now.pairs target.now ∷ []) }
        ensures searches { OnOk result
            (self.new.searches.items ≡ self.old.searches.items
            ++ map (spec.started citation.now) (held citation.now.pairs (target.now ∷ []))) }
        ensures same { known.new ≡ known.old }
    {
        let mut rows = citation.rows(target);
        let first = rows.next();
        self.held.push(first.is_some())?;
        if first.is_some() {
            let request = target.request(alloc, names, known)?;
            self.searches
                .push(TargetSearch::new(target, request, first, rows))?;
        }
        Ok(())
    }
}

/// The menu of targets, with the resolutions of the searches for those that have a row with the title.
///
/// `AllocError` if an allocation failed.
pub(crate) fn menu_with<'r>(
    alloc: Global,
    targets: &'r [Target],
    held: &[bool],
    searches: Vec<TargetSearch>,
) -> Result<Menu<'r>, AllocError>
    requires { length held.now ≡ length targets.now }
    ensures { IfOk result (λ menu. menu
        ≡ entries_with targets.now held.now (map (λ search. search.resolution) searches.entry.items)) }
{
    let mut entries = Vec::with_capacity(alloc, targets.len())?;
    let mut searches = searches.into_iter();
    for target in targets {
        let is_held = held[entries.len()];
        let search = if is_held { searches.next() } else { None };
        entries.push(MenuEntry {
            name: target.name(),
            resolution: resolution_so_far(search),
        })?;
    }
    Ok(Menu::new(entries))
}

/// The resolution of a target's search; there is none if no row has the title.
fn resolution_so_far(search: Option<TargetSearch>) -> Resolution
    ensures { result ≡ option_map_or (λ s. s.resolution) search.entry NoRow }
{
    match search {
        Some(search) => search.resolution,
        None => Resolution::NoRow,
    }
}
