//! The least table of kinds: kinds are propagated along the edges of each place, in the order of the places, and again
//! from the first place of a loop's body while kinds rise there.

ghost use Rattle.std.specs.Prelude.{◌≡◌, ◌<◌, ◌+◌, ◌⊎◌, [], ◌∷◌, length, min, IfOk};
ghost use Rattle.std.specs.List.{AllByRecursion};
ghost use Rattle.machine_model.specs.Form.{HasGoodForm};
ghost use Rattle.machine_model.specs.Typable.{IsLeast};
ghost use Rattle.verifier.specs.Private.Rows.{table_of, edge_of, one_or_none};
ghost use Rattle.verifier.specs.Private.Walks.{Follows, IsSameBefore, Continues, IsClosedBefore, IsBelowClosed};
ghost use Rattle.verifier.specs.Private.Walks.{ContinuesAt, IsReturn};

use crate::edges::{Edge, edges};
use crate::layout::Layout;
use crate::row::{Row, raise};
use std::alloc::{AllocError, Global};

/// The earlier of two places.
fn earlier(place: usize, other: usize) -> usize
    ensures { result ≡ min place other }
{
    if other < place { other } else { place }
}

/// Joins the kinds of an edge with those of the place that it leads to. Returns the place at which the walk continues:
/// that place if kinds rose there and it is before `next`, and otherwise `next`.
fn push(table: &mut [Option<Row>], edge: Edge, next: usize) -> usize
    requires { edge.to < length table.old }
    ensures follows { Follows (edge_of edge ∷ []) (table_of table.old) (table_of table.new) }
    ensures same { IsSameBefore result (table_of table.old) (table_of table.new) }
    ensures on { Continues next result table.old table.new }
    ensures at { ContinuesAt next (edge_of edge ∷ []) result }
{
    let Some(mut row) = table[edge.to] else {
        table[edge.to] = Some(edge.row);
        return earlier(next, edge.to);
    };
    if !raise(&mut row.kinds, &edge.row.kinds) {
        return next;
    }
    table[edge.to] = Some(row);
    earlier(next, edge.to)
}

/// Follows an edge, if there is one, and returns the place at which the walk continues.
fn follow(table: &mut [Option<Row>], edge: Option<Edge>, next: usize) -> usize
    requires { AllByRecursion (λ e. e.to < length table.old) (one_or_none edge_of edge) }
    ensures follows { Follows (one_or_none edge_of edge) (table_of table.old) (table_of table.new) }
    ensures same { IsSameBefore result (table_of table.old) (table_of table.new) }
    ensures on { Continues next result table.old table.new }
    ensures at { ContinuesAt next (one_or_none edge_of edge) result }
{
    match edge {
        None => next,
        Some(edge) => push(table, edge, next),
    }
}

/// Follows the edges of a place, and returns the place at which the walk continues: the next one, or the first place of
/// a loop's body if this place is its NEXT and kinds rose there.
fn step(layout: &Layout, table: &mut [Option<Row>], place: usize) -> usize
    requires form { HasGoodForm layout.now.code.now }
    requires place { place < length layout.now.code.now.instrs }
    requires long { length table.old ≡ length layout.now.code.now.instrs }
    requires closed { IsClosedBefore layout.now.code.now place (table_of table.old) }
    requires below { IsBelowClosed layout.now.code.now (table_of table.old) }
    ensures closed { IsClosedBefore layout.now.code.now result (table_of table.new) }
    ensures below { IsBelowClosed layout.now.code.now (table_of table.new) }
    ensures on { Continues (place + 1) result table.old table.new }
    ensures at { (result ≡ place + 1) ⊎ IsReturn layout.now.code.now place result }
{
    let Some(row) = table[place] else {
        return place + 1;
    };
    let instruction = layout.instruction(place);
    let body = layout.body(place);
    let (first, second) = edges(place, row, body, instruction);
    let next = follow(table, first, place + 1);
    follow(table, second, next)
}

/// Walks until no kind rises any more.
fn walk(layout: &Layout, table: &mut [Option<Row>])
    requires form { HasGoodForm layout.now.code.now }
    requires long { length table.old ≡ length layout.now.code.now.instrs }
    requires closed { IsClosedBefore layout.now.code.now 0 (table_of table.old) }
    requires below { IsBelowClosed layout.now.code.now (table_of table.old) }
    ensures least { IsLeast layout.now.code.now (table_of table.new) }
{
    let mut place = 0;
    while place < table.len() {
        place = step(layout, table, place);
    }
}

/// The least table of a code of good form.
pub(crate) fn least_table(alloc: Global, layout: &Layout) -> Result<Vec<Option<Row>>, AllocError>
    requires { HasGoodForm layout.now.code.now }
    ensures long { IfOk result (λ v. length v.items ≡ length layout.now.code.now.instrs) }
    ensures least { IfOk result (λ v. IsLeast layout.now.code.now (table_of v.items)) }
{
    let mut table: Vec<Option<Row>> = vec![in alloc; None; layout.code.len()]?;
    table[0] = Some(Row::any());
    walk(layout, &mut table);
    Ok(table)
}
