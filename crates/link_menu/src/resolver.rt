//! The menu of a registry and a request.

ghost use Rattle.std.specs.Prelude.{◌≡◌, IfOk, OnErr, OnOk, map};
ghost use Rattle.std.specs.List.{list_any};
ghost use Rattle.registry.specs.Entries.{menu_of};
ghost use Rattle.interleaved_runs.specs.Fates.{fate_value};
ghost use Rattle.interleaved_runs.specs.StepLists.{HasSeenAll, HasSeenSome, step_lists_to_end};
ghost use Rattle.link_menu.specs.RowsByRound.{step_lists_in_all_rounds};
ghost use Rattle.link_menu.specs.Private.Searches as spec;

use crate::batch::Batch;
use crate::citation::Citation;
use crate::searches::{Searches, menu_with};
use crate::target_search::TargetSearch;
use interleaved_runs::{Blind, Fate, Watch, round_over};
use kbart_rows::Keys;
use kev_read::Request;
use menu::Menu;
use registry::laws::{matching_rows_rise, rows_are_tried_in_order};
use registry::{Registry, Target};
use std::alloc::{AllocError, Global};

/// The menu of a request: what each target of the registry gives for it, in the order of the targets. The matching rows
/// of a target are tried in order, and the first that gives a web link gives the target's link.
///
/// `AllocError` if an allocation failed.
pub fn resolve<'r>(
    alloc: Global,
    registry: &'r Registry,
    request: &Request,
) -> Result<Menu<'r>, AllocError>
    ensures { IfOk result (λ menu. menu ≡ menu_of registry.now request.now.pairs) }
{
    resolve_watched(alloc, registry, request, &mut Blind)
}

/// The menu of a request, with a watch that observes the runs. It is computed in rounds: in each, every target that has
/// no web link yet tries its next matching row, all of them side by side, as [`round_over`] runs them. The watch
/// observes the rounds one after another.
///
/// `AllocError` if an allocation failed; the watch has then observed everything up to that point.
pub fn resolve_watched<'r, W: Watch>(
    alloc: Global,
    registry: &'r Registry,
    request: &Request,
    watch: &mut W,
) -> Result<Menu<'r>, AllocError>
    ensures menu { IfOk result (λ menu. menu ≡ menu_of registry.now request.now.pairs) }
    ensures observed { OnOk result
        (HasSeenAll (step_lists_in_all_rounds registry.now request.now.pairs) (W.lists watch.old)
        (W.lists watch.new)) }
    ensures err { OnErr result
        (HasSeenSome (step_lists_in_all_rounds registry.now request.now.pairs) (W.lists watch.old)
        (W.lists watch.new)) }
{
    rows_are_tried_in_order();
    matching_rows_rise();
    let targets = registry.targets();
    let citation = Citation::new(alloc, request, registry.columns(), keys_of(targets))?;
    let (numbered, names) = registry.names();
    let begun = Searches::begin(alloc, targets, numbered, names, &citation)?;
    let Searches { held, mut searches } = begun;
    while is_any_open(&searches) {
        try_next_rows(alloc, searches.as_mut_slice(), watch)?;
    }
    menu_with(alloc, targets, &held, searches)
}

/// The keys of the first target's table, which usually are those of all.
fn keys_of(targets: &[Target]) -> Keys {
    match targets.first() {
        Some(target) => target.table().keys(),
        None => Keys::new(0, 0),
    }
}

fn is_any_open(searches: &[TargetSearch]) -> bool
    ensures { result ≡ list_any spec.is_open searches.now }
{
    for search in searches {
        if search.is_open() {
            return true;
        }
    }
    false
}

/// One round: the next row of each search that has one is tried, all of them side by side.
///
/// `AllocError` if an allocation failed; the watch has then observed everything up to that point.
fn try_next_rows<W: Watch>(
    alloc: Global,
    searches: &mut [TargetSearch],
    watch: &mut W,
) -> Result<(), AllocError>
    ensures ok { OnOk result (searches.new ≡ map spec.after_next_row searches.old) }
    ensures observed { OnOk result
        (HasSeenAll (step_lists_to_end (spec.ends_next searches.old)) (W.lists watch.old) (W.lists watch.new)) }
    ensures err { OnErr result
        (HasSeenSome (step_lists_to_end (spec.ends_next searches.old)) (W.lists watch.old) (W.lists watch.new)) }
{
    let fates = run_next_rows(alloc, searches, watch)?;
    take_over_all(searches, fates);
    Ok(())
}

/// The fates of the next rows, which are run side by side.
///
/// `AllocError` if an allocation failed; the watch has then observed everything up to that point.
fn run_next_rows<W: Watch>(
    alloc: Global,
    searches: &[TargetSearch],
    watch: &mut W,
) -> Result<Vec<Fate>, AllocError>
    ensures fates { IfOk result (λ fates. map fate_value fates.items ≡ spec.fates_next searches.now) }
    ensures observed { OnOk result
        (HasSeenAll (step_lists_to_end (spec.ends_next searches.now)) (W.lists watch.old) (W.lists watch.new)) }
    ensures err { OnErr result
        (HasSeenSome (step_lists_to_end (spec.ends_next searches.now)) (W.lists watch.old) (W.lists watch.new)) }
{
    let batch = Batch::of(alloc, searches)?;
    round_over(alloc, &batch.codes, &batch.rows, watch)
}

/// Gives the fates of one round to the searches that have a next row, in their order.
fn take_over_all(searches: &mut [TargetSearch], fates: Vec<Fate>)
    requires { map fate_value fates.items ≡ spec.fates_next searches.old }
    ensures { searches.new ≡ map spec.after_next_row searches.old }
{
    let mut fates = fates.into_iter();
    for search in searches.iter_mut() {
        if search.is_open() {
            search.take_over(fates.next().unwrap());
        }
    }
}
